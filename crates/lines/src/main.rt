#![tactic(auto)]
// Reads a book and its names from standard input, and writes the text of its lines at counter 0, or the refusal's number.
ghost use Rattle.std.specs.Prelude.{◌≡◌, ◌≤◌, ◌<◌, ◌*◌, length, take, IfOk};
ghost use Rattle.lines.specs.Shown.{longest, text_room, zeros, word, words, translated, answered, refusal, said, shown, Begins};

use numbers::digits::put_decimal;
use std::io;
use std::io::Read;
use translate::translate;

fn wide(byte: u8) -> u64
    ensures { (result ≡ byte) × (result < 256) }
{
    byte as u64
}

// The u64 that stands in front, its low byte first.
fn read_word(b: &[u8]) -> u64
    requires { 8 ≤ length b.now }
    ensures { result ≡ word b.now }
{
    let high = wide(b[4]) + 256 * (wide(b[5]) + 256 * (wide(b[6]) + 256 * wide(b[7])));
    wide(b[0]) + 256 * (wide(b[1]) + 256 * (wide(b[2]) + 256 * (wide(b[3]) + 256 * high)))
}

// Reads so many words to the front of a book.
fn read_words(input: &[u8], book: &mut [u64], count: usize)
    requires { (8 * count ≤ length input.now) × (count ≤ length book.old) }
    ensures { take count book.new ≡ words count input.now }
{
    for i in 0..count {
        book[i] = read_word(&input[8 * i..]);
    }
}

// Puts a refusal's number and byte 10 to the front of a text, which has room for every number; how many bytes these are.
fn put_refusal(number: u64, text: &mut [u8]) -> usize
    requires { 21 ≤ length text.old }
    ensures { Begins (refusal number) text.new result }
{
    let n = put_decimal(number, text, 0);
    text[n] = b'\n';
    n + 1
}

// Translates a book and prints its lines to the front of the text, or its refusal; how many bytes these are.
fn show_book(
    book: &[u64],
    names: &[u8],
    work: &mut [u64],
    kinds: &mut [u16],
    operands: &mut [u64],
    text: &mut [u8],
) -> usize
    requires { 21 ≤ length text.old }
    ensures { Begins (said (translated book.now names.now work.old kinds.old operands.old text.old))
        text.new result }
{
    match translate(book, names, 0, work, kinds, operands) {
        Ok(t) => {
            match print::print(book, names, &kinds[..t.lines], &operands[..t.lines], text) {
                Ok(bytes) => bytes,
                Err(e) => put_refusal(e.number(), text),
            }
        }
        Err(e) => put_refusal(e.number(), text),
    }
}

// The same for the book that an input begins with; its words go to `book`. The work slice holds the names of every input: each takes two bytes at least,
// so behind a book's 16 there are 32,760 at most, with 8 words each, and 64.
fn show_input(
    input: &[u8],
    book: &mut [u64],
    work: &mut [u64],
    kinds: &mut [u16],
    operands: &mut [u64],
    text: &mut [u8],
) -> usize
    requires in_bounds { 8192 ≤ length book.old }
    requires in_bounds_2 { 262144 ≤ length work.old }
    requires in_bounds_3 { 21 ≤ length text.old }
    ensures { Begins (said (answered input.now kinds.old operands.old text.old)) text.new result }
{
    let bytes = input.len();
    if 65536 < bytes {
        return put_refusal(1, text);
    }
    if bytes < 16 {
        return put_refusal(1, text);
    }
    let entries = read_word(input);
    if ((bytes / 16 - 1) as u64) < entries {
        return put_refusal(1, text);
    }
    let count = 2 + 2 * (entries as usize);
    read_words(input, book, count);
    show_book(
        &book[0..count],
        &input[8 * count..],
        work,
        kinds,
        operands,
        text,
    )
}

// What is shown for the first n bytes of an input slice, to the front of a text that is all 0; how many bytes these are. The slice has room for a byte more
// than is taken, so that a longer input is known.
fn show(input: &[u8], n: usize, text: &mut [u8]) -> usize
    requires n_in_bounds { (n ≤ length input.now) × (longest < length input.now) }
    requires text_value { text.old ≡ zeros text_room }
    ensures { Begins (shown (take n input.now)) text.new result }
{
    let mut book = [0u64; 8192];
    let mut work = [0u64; 262144];
    let mut kinds = [0u16; 65536];
    let mut operands = [0u64; 65536];
    show_input(
        &input[0..n],
        &mut book,
        &mut work,
        &mut kinds,
        &mut operands,
        text,
    )
}

// 1 MiB.
fn room_for_text() -> [u8; 1048576]
    ensures { result ≡ zeros text_room }
{
    [0; 1048576]
}

// Reads until the buffer is full or the input ends; how many bytes these are.
fn read_full(input: &mut impl Read, buffer: &mut [u8]) -> io::Result<usize>
    ensures { IfOk result (λ n. n ≤ length buffer.new) }
{
    let mut done: usize = 0;
    while done < buffer.len() {
        let n = input.read(&mut buffer[done..])?;
        if n == 0 {
            break;
        }
        done += n;
    }
    Ok(done)
}

fn main(rt: HostRuntime) -> io::Result<()> {
    let mut input = [0u8; 65537];
    let n = read_full(&mut rt.reader(), &mut input)?;
    let mut text = room_for_text();
    let count = show(&input, n, &mut text);
    rt.write_all(&text[0..count])
}
