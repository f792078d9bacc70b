#![tactic(auto)]
// Where text is put. One code counts and writes: a counting pen stores nothing.
ghost use Rattle.std.specs.Prelude.{◌≡◌, ◌+◌, ◌≤◌, length, leb};
ghost use Rattle.std.proofs.lemmas.List.Edits.{sets};
ghost use Rattle.numbers.specs.Digits.{decimal};
ghost use Rattle.names.specs.Spelling.{sanitize};
ghost use Rattle.print_pen.specs.Pen.{reached, pick_bytes, Put};

// How many bytes were put so far, to count them or to store them; or that they do not fit, which stays so whatever is put behind.
#[derive(Clone, Copy, Debug, PartialEq, Eq)]
pub enum Pen {
    Counting(usize),
    Writing(usize),
    Full,
}

// Whether n bytes from `at` on fit into so many.
fn fits(at: usize, n: usize, room: usize) -> bool
    ensures { result ≡ leb (at + n) room }
{
    at <= room && n <= room - at
}

// The pen behind n bytes more.
fn reach(pen: Pen, room: usize, n: usize) -> Pen
    ensures { result ≡ reached room n pen }
{
    match pen {
        Pen::Counting(at) if fits(at, n, room) => Pen::Counting(at + n),
        Pen::Writing(at) if fits(at, n, room) => Pen::Writing(at + n),
        _ => Pen::Full,
    }
}

// Stores bytes as they are.
pub fn copy(src: &[u8], text: &mut [u8], at: usize)
    requires { at + length src.now ≤ length text.old }
    ensures { text.new ≡ sets text.old at src.now }
{
    for i in 0..src.len() {
        text[at + i] = src[i];
    }
}

// Stores bytes as a label spells them.
fn copy_clean(src: &[u8], text: &mut [u8], at: usize)
    requires { at + length (sanitize src.now) ≤ length text.old }
    ensures { text.new ≡ sets text.old at (sanitize src.now) }
{
    let mut to = at;
    for b in src {
        if !names_spelling::is_tail(*b) {
            text[to] = names_spelling::clean_byte(*b);
            to += 1;
        }
    }
}

// Puts bytes as they are.
pub fn put_bytes(text: &mut [u8], pen: Pen, src: &[u8]) -> Pen
    ensures { Put src.now pen text.old text.new result }
{
    let next = reach(pen, text.len(), src.len());
    if let Pen::Writing(end) = next {
        copy(src, text, end - src.len());
    }
    next
}

// Puts one of two texts.
pub fn put_either(text: &mut [u8], pen: Pen, first: bool, a: &[u8], b: &[u8]) -> Pen
    ensures { Put (pick_bytes first a.now b.now) pen text.old text.new result }
{
    if first {
        put_bytes(text, pen, a)
    } else {
        put_bytes(text, pen, b)
    }
}

// Puts bytes as a label spells them.
pub fn put_clean(text: &mut [u8], pen: Pen, src: &[u8]) -> Pen
    ensures { Put (sanitize src.now) pen text.old text.new result }
{
    let n = names_spelling::clean_len(src);
    let next = reach(pen, text.len(), n);
    if let Pen::Writing(end) = next {
        copy_clean(src, text, end - n);
    }
    next
}

// Puts a number's decimal digits.
pub fn put_number(text: &mut [u8], pen: Pen, n: u64) -> Pen
    ensures { Put (decimal n) pen text.old text.new result }
{
    let digits = numbers::digits::decimal_len(n);
    let next = reach(pen, text.len(), digits);
    if let Pen::Writing(end) = next {
        numbers::digits::put_decimal(n, text, end - digits);
    }
    next
}
