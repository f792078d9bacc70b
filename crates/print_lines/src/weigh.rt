// What lines weigh before any is written: whether every one may stand, and how many bytes they have, in one pass.
ghost use Rattle.std.specs.Prelude.{◌≡◌, cond, List, ℕ, ◌+◌, ◌<◌, ◌≤◌, length, drop};
ghost use Rattle.names.specs.Name.{lines};
ghost use Rattle.names.specs.Spelling.{sanitize};
ghost use Rattle.book.specs.Entry.{entries};
ghost use Rattle.book.specs.Decode.{type_to};
ghost use Rattle.print_words.specs.Words.{word_places};
ghost use Rattle.print_words.specs.Plain.{plain_text};
ghost use Rattle.print_types.specs.Starts.{Starts};
ghost use Rattle.print_types.specs.Types.{type_bytes, Typed};
ghost use Rattle.print_forms.specs.Forms.{form_of, allowed_by};
ghost use Rattle.print_forms.specs.All.{Callable, allowed_all};
ghost use Rattle.print_lines.specs.Lines.{parts_text, printed};
ghost use Rattle.print_lines.specs.All.{printed_all};
ghost use Rattle.print_lines.specs.Named.{spelled, around};
ghost use Rattle.print_lines.specs.Weigh.{weight, Weighed};

use crate::put_comment;
use assembly::line;
use book::refusal::Refusal;
use names_spelling::clean_len;
use numbers::digits::decimal_len;
use print_forms::{check_lines, name_allowed, number_allowed, pick};
use print_pen::Pen;
use print_types::starts::name_of;
use print_words::plain::{plain_len, word_len};

// Weighs a line of kind 7 or more behind n bytes.
fn weigh_number(places: &[u16], n: usize, room: usize, kind: u16, x: u64) -> Result<usize, Refusal>
    requires places_value { places.now ≡ word_places }
    requires n_le_room { n ≤ room }
    requires le_kind { 7 ≤ kind }
    ensures { (names function from to : ℕ) → result ≡ weight (allowed_by (form_of kind) x names function from to) (n + length (plain_text kind x)) room }
{
    if !number_allowed(kind, x) {
        return Err(Refusal::BadLine);
    }
    let more = plain_len(places, kind, x);
    if room - n < more {
        return Err(Refusal::NoRoom);
    }
    Ok(n + more)
}

// How many bytes a line has of the name that it names: a syscall's all but the first six, the others' as a label spells them.
fn spelled_len(name: &[u8], kind: u16) -> usize
    requires { kind ≡ 6 → 6 ≤ length name.now }
    ensures { result ≡ spelled kind name.now }
{
    if kind == line::SYSCALL {
        return name.len() - 6;
    }
    clean_len(name)
}

// How many bytes a line of kind 1 to 6 has beside the name that it names: its word, the function's label and `__` before a block's, the
// number of arguments behind a call's, and its end.
fn around_len(places: &[u16], label: usize, kind: u16, x: u64) -> usize
    requires places_value { places.now ≡ word_places }
    requires label_bound { label < 9223372036854775808 }
    requires kind_bound { kind < 94 }
    ensures { result ≡ around label kind x }
{
    let word = word_len(places, kind);
    let block = pick(
        (line::BLOCK_LABEL <= kind) & (kind <= line::JMP_BLOCK),
        label + 2,
        0,
    );
    let digits = decimal_len(pick(kind == line::CALL, x % 256, 0));
    let args = pick(kind == line::CALL, digits + 2, 0);
    word + block + args + 2
}

// Weighs a line of kind 1 to 6 behind n bytes, where a label spells the function's name with `label`.
fn weigh_named(
    places: &[u16],
    names: &[u8],
    starts: &[u64],
    every: bool,
    label: usize,
    n: usize,
    room: usize,
    kind: u16,
    x: u64,
    count: u64,
    from: u64,
    to: u64,
) -> Result<usize, Refusal>
    requires places_value { places.now ≡ word_places }
    requires starts { Starts every names.now starts.now }
    requires callable { Callable (lines names.now) count from to }
    requires label_bound { label < 9223372036854775808 }
    requires n_le_room { n ≤ room }
    requires le_kind { 1 ≤ kind }
    requires kind_bound { kind < 7 }
    ensures { (own : ℕ) (fname : List ℕ) → label ≡ length (sanitize fname) → result ≡ weight (allowed_by (form_of kind) x count own from to) (n + length (parts_text (lines names.now) fname kind x)) room }
{
    if !name_allowed(kind, x, count, from, to) {
        return Err(Refusal::BadLine);
    }
    let name = name_of(names, starts, every, pick(kind == line::CALL, x / 256, x));
    let spelled = spelled_len(name, kind);
    let rest = around_len(places, label, kind, x);
    let left = room - n;
    if left < spelled {
        return Err(Refusal::NoRoom);
    }
    if left - spelled < rest {
        return Err(Refusal::NoRoom);
    }
    Ok(n + (spelled + rest))
}

// Weighs a line behind n bytes; a function's opening comment, of kind 0, is counted as it is written, by a pen. There are `count` names, the
// function's is `own`, spelled with `label` bytes in a label; those from `from` up to `to` start with `__uvm_`.
fn weigh_line(
    text: &mut [u8],
    n: usize,
    places: &[u16],
    names: &[u8],
    starts: &[u64],
    every: bool,
    function: &[u8],
    label: usize,
    kinds: &[u64],
    words: &[u64],
    params: u64,
    kind: u16,
    x: u64,
    count: u64,
    own: u64,
    from: u64,
    to: u64,
) -> Result<usize, Refusal>
    requires places_value { places.now ≡ word_places }
    requires starts { Starts every names.now starts.now }
    requires typed { Typed (length (lines names.now)) 64 kinds.now words.now }
    requires callable { Callable (lines names.now) count from to }
    requires n_in_bounds { n ≤ length text.old }
    requires label_value { label ≡ length (sanitize function.now) }
    ensures { Weighed (allowed_by (form_of kind) x count own from to) (n + length (printed (lines names.now) function.now (type_bytes (lines names.now) (type_to (length (lines names.now)) 64 (entries kinds.now words.now))) params kind x)) text.old text.new result }
{
    if line::PUSH_0N <= kind {
        return weigh_number(places, n, text.len(), kind, x);
    }
    if line::FN_LABEL <= kind {
        return weigh_named(
            places,
            names,
            starts,
            every,
            label,
            n,
            text.len(),
            kind,
            x,
            count,
            from,
            to,
        );
    }
    if x != own {
        return Err(Refusal::BadLine);
    }
    let Pen::Counting(next) = put_comment(
        text,
        Pen::Counting(n),
        names,
        starts,
        every,
        function,
        kinds,
        words,
        params,
    ) else {
        return Err(Refusal::NoRoom);
    };
    Ok(next)
}

// What lines weigh where those before line i may stand, and line i may not or the text is too short for it or before: whether all the
// others may stand is still to be told, since that comes first.
fn weigh_rest(
    line_kinds: &[u16],
    operands: &[u64],
    i: usize,
    count: u64,
    own: u64,
    from: u64,
    to: u64,
) -> Result<usize, Refusal>
    requires i_in_bounds { i ≤ length line_kinds.now }
    requires i_in_bounds_2 { i ≤ length operands.now }
    ensures { result ≡ cond (allowed_all count own from to (drop i line_kinds.now) (drop i operands.now)) (Err Refusal.NoRoom) (Err Refusal.BadLine) }
{
    if check_lines(&line_kinds[i..], &operands[i..], count, own, from, to) {
        Err(Refusal::NoRoom)
    } else {
        Err(Refusal::BadLine)
    }
}

// Weighs as many lines as both slices hold behind `before` bytes. Nothing is written.
pub fn weigh_lines(
    text: &mut [u8],
    before: usize,
    places: &[u16],
    names: &[u8],
    starts: &[u64],
    every: bool,
    function: &[u8],
    kinds: &[u64],
    words: &[u64],
    params: u64,
    line_kinds: &[u16],
    operands: &[u64],
    count: u64,
    own: u64,
    from: u64,
    to: u64,
) -> Result<usize, Refusal>
    requires places_value { places.now ≡ word_places }
    requires starts { Starts every names.now starts.now }
    requires typed { Typed (length (lines names.now)) 64 kinds.now words.now }
    requires callable { Callable (lines names.now) count from to }
    requires before_in_bounds { before ≤ length text.old }
    ensures { Weighed (allowed_all count own from to line_kinds.now operands.now)
        (before + length (printed_all (printed (lines names.now) function.now (type_bytes (lines names.now) (type_to (length (lines names.now)) 64 (entries kinds.now words.now))) params) line_kinds.now operands.now))
        text.old text.new result }
{
    let label = clean_len(function);
    let mut n = before;
    for i in 0..line_kinds.len().min(operands.len()) {
        match weigh_line(
            text,
            n,
            places,
            names,
            starts,
            every,
            function,
            label,
            kinds,
            words,
            params,
            line_kinds[i],
            operands[i],
            count,
            own,
            from,
            to,
        ) {
            Ok(next) => n = next,
            Err(_) => return weigh_rest(line_kinds, operands, i, count, own, from, to),
        }
    }
    Ok(n)
}
