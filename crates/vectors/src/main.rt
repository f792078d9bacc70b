#![tactic(auto)]
// Replays recorded calls of the translator and the printer, each a line of standard input, and writes how many there were of each refusal.
// A line whose call has another answer than the recorded one, or leaves a slice other than it must, is named. The last lines are recorded wrong, each
// in one of the things that are compared: these and no others are named.
//
// A line is numbers with a space between, a repeated one as TIMES*NUMBER: those below, and then the book, the bytes of its names, the kinds of
// the lines, their operands, and the bytes of the text.
ghost use Rattle.std.specs.Prelude.{◌≡◌, ◌≤◌, length, IfOk, vec_len};

use book::refusal::Refusal;
use gen_passes::Translation;
use std::io;
use std::io::Read;
use translate::translate;

// What is lent: the counter, the lengths of the work slice and of the two line slices.
const COUNTER: usize = 0;

const WORK: usize = 1;

const KINDS: usize = 2;

const OPERANDS: usize = 3;

// What is owed: the refusal or 0, the number of lines, the next counter.
const REFUSAL: usize = 4;

const LINES: usize = 5;

const NEXT: usize = 6;

// What is owed of the slices: what each work word is, and what stands behind the kinds, the operands and the text.
const WORK_REST: usize = 7;

const KINDS_REST: usize = 8;

const OPERANDS_REST: usize = 9;

const TEXT_REST: usize = 10;

// The printer's refusal of a text slice that is a byte short.
const SHORT: usize = 11;

// The lengths of the book, of its names and of the text.
const WORDS: usize = 12;

const BYTES: usize = 13;

const TEXT: usize = 14;

// How many these are.
const HEAD: u64 = 15;

// What stands in a slice before it is lent.
const RUBBISH: u64 = 43690;

// How many numbers of a line are read, the number that is being read, and how many times it stands; which line it is.
#[derive(Clone, Copy)]
struct Reader {
    put: usize,
    value: u64,
    times: u64,
    line: u64,
}

fn least(a: usize, b: usize) -> usize
    ensures { (result ≤ a) × (result ≤ b) }
{
    if a < b { a } else { b }
}

// The number at a place, 0 behind the last.
fn number(row: &[u64], at: usize) -> u64 {
    if at < row.len() { row[at] } else { 0 }
}

// So many numbers from the start, or all.
fn front(row: &[u64], n: u64) -> &[u64] {
    &row[0..least(n as usize, row.len())]
}

// What stands behind so many numbers.
fn behind(row: &[u64], n: u64) -> &[u64] {
    &row[least(n as usize, row.len())..]
}

// What must stand at a place: the front, and then rubbish or whatever else the rest is.
fn wanted(front: &[u64], at: usize, rest: u64) -> u64 {
    if at < front.len() { front[at] } else { rest }
}

fn wide(byte: u8) -> u64 {
    byte as u64
}

fn wide_kind(kind: u16) -> u64 {
    kind as u64
}

fn holds_words(slice: &[u64], front: &[u64], rest: u64) -> bool {
    for i in 0..slice.len() {
        if slice[i] != wanted(front, i, rest) {
            return false;
        }
    }
    front.len() <= slice.len()
}

fn holds_kinds(slice: &[u16], front: &[u64], rest: u64) -> bool {
    for i in 0..slice.len() {
        if wide_kind(slice[i]) != wanted(front, i, rest) {
            return false;
        }
    }
    front.len() <= slice.len()
}

fn holds_bytes(slice: &[u8], front: &[u64], rest: u64) -> bool {
    for i in 0..slice.len() {
        if wide(slice[i]) != wanted(front, i, rest) {
            return false;
        }
    }
    front.len() <= slice.len()
}

// Whether the printer gives a text, or the refusal that is owed where that is not 0; the rest of the slice stays.
fn prints_into(
    book: &[u64],
    names: &[u8],
    kinds: &[u16],
    operands: &[u64],
    text: &[u64],
    rest: u64,
    owed: u64,
    slice: &mut [u8],
) -> bool {
    match print::print(book, names, kinds, operands, slice) {
        Ok(n) => (owed == 0) & (n == text.len()) & holds_bytes(slice, text, rest),
        Err(e) => (e.number() == owed) & holds_bytes(slice, front(text, 0), rest),
    }
}

// The same in a slice of this length.
fn prints(
    book: &[u64],
    names: &[u8],
    kinds: &[u16],
    operands: &[u64],
    text: &[u64],
    rest: u64,
    owed: u64,
    room: usize,
) -> bool {
    let mut slice = [b'!'; 4096];
    let end = least(room, 4096);
    prints_into(
        book,
        names,
        kinds,
        operands,
        text,
        rest,
        owed,
        &mut slice[0..end],
    )
}

// The same in a slice that is longer, one that is exactly full, and one that is a byte short.
fn prints_all(
    book: &[u64],
    names: &[u8],
    kinds: &[u16],
    operands: &[u64],
    text: &[u64],
    rest: u64,
    short: u64,
) -> bool {
    let full = least(text.len(), 4000);
    prints(book, names, kinds, operands, text, rest, 0, full + 7)
        & prints(book, names, kinds, operands, text, rest, 0, full)
        & prints(
            book,
            names,
            kinds,
            operands,
            text,
            rest,
            short,
            full - least(full, 1),
        )
}

// Whether a reply is the recorded one.
fn replied(row: &[u64], reply: Result<Translation, Refusal>) -> bool {
    match reply {
        Ok(t) => {
            number(row, REFUSAL) == 0
                && t.lines as u64 == number(row, LINES)
                && t.counter == number(row, NEXT)
        }
        Err(e) => e.number() == number(row, REFUSAL),
    }
}

// Whether the slices hold what they must after the translator's call: the work words, the recorded lines, and behind them what stood there.
// `lines` is what a row has behind the names: kinds, operands, text.
fn leaves(row: &[u64], lines: &[u64], work: &[u64], kinds: &[u16], operands: &[u64]) -> bool {
    let n = number(row, LINES);
    holds_words(work, front(row, 0), number(row, WORK_REST))
        & holds_kinds(kinds, front(lines, n), number(row, KINDS_REST))
        & holds_words(
            operands,
            front(behind(lines, n), n),
            number(row, OPERANDS_REST),
        )
}

// Whether the printer gives the recorded text for accepted lines.
fn shows(
    row: &[u64],
    book: &[u64],
    names: &[u8],
    lines: &[u64],
    reply: Result<Translation, Refusal>,
    kinds: &[u16],
    operands: &[u64],
) -> bool {
    let Ok(t) = reply else {
        return true;
    };
    let n = number(row, LINES);
    let end = least(t.lines, least(kinds.len(), operands.len()));
    let text = front(behind(behind(lines, n), n), number(row, TEXT));
    prints_all(
        book,
        names,
        &kinds[0..end],
        &operands[0..end],
        text,
        number(row, TEXT_REST),
        number(row, SHORT),
    )
}

// Whether the translator's reply is the recorded one, and all else with it.
fn translates_into(
    row: &[u64],
    book: &[u64],
    names: &[u8],
    lines: &[u64],
    work: &mut [u64],
    kinds: &mut [u16],
    operands: &mut [u64],
) -> bool {
    let reply = translate(book, names, number(row, COUNTER), work, kinds, operands);
    replied(row, reply)
        & leaves(row, lines, work, kinds, operands)
        & shows(row, book, names, lines, reply, kinds, operands)
}

// The same with slices of the recorded lengths.
fn translates(row: &[u64], book: &[u64], names: &[u8], lines: &[u64]) -> bool {
    let mut work = [RUBBISH; 1024];
    let mut kinds = [43690u16; 512];
    let mut operands = [RUBBISH; 512];
    let w = least(number(row, WORK) as usize, 1024);
    let k = least(number(row, KINDS) as usize, 512);
    let o = least(number(row, OPERANDS) as usize, 512);
    translates_into(
        row,
        book,
        names,
        lines,
        &mut work[0..w],
        &mut kinds[0..k],
        &mut operands[0..o],
    )
}

// Copies bytes that are recorded as numbers; how many.
fn copy_bytes(from: &[u64], to: &mut [u8]) -> usize
    ensures { result ≤ length to.new }
{
    let n = least(from.len(), to.len());
    for i in 0..n {
        to[i] = (from[i] % 256) as u8;
    }
    n
}

// Whether the answers to a row's call are the recorded ones.
fn replay(row: &[u64]) -> bool {
    let parts = behind(row, HEAD);
    let rest = behind(parts, number(row, WORDS));
    let mut bytes = [0u8; 1024];
    let n = copy_bytes(front(rest, number(row, BYTES)), &mut bytes);
    translates(
        row,
        front(parts, number(row, WORDS)),
        &bytes[0..n],
        behind(rest, number(row, BYTES)),
    )
}

fn count(counts: &mut [u64], number: u64) {
    let at = number as usize;
    if at < counts.len() {
        counts[at] = counts[at].wrapping_add(1);
    }
}

// Replays a line.
fn run_line(rt: &impl Print, row: &[u64], line: u64, counts: &mut [u64]) -> io::Result<()> {
    count(counts, number(row, REFUSAL));
    if !replay(row) {
        println!(rt; "line {line} is answered otherwise")?;
    }
    Ok(())
}

// Puts a number so many times behind what is put, as long as there is room.
fn put_times(row: &mut [u64], before: usize, value: u64, times: u64) -> usize {
    let mut put = before;
    for i in 0..times {
        if row.len() <= put {
            return put;
        }
        row[put] = value;
        put += 1;
    }
    put
}

// A number with one digit more, modulo 2^64; a digit's value is the low half of its byte.
fn with_digit(value: u64, b: u8) -> u64 {
    value.wrapping_mul(10).wrapping_add((b % 16) as u64)
}

// Takes the next byte: a line is replayed where it ends.
fn take(
    rt: &impl Print,
    r: Reader,
    b: u8,
    row: &mut [u64],
    counts: &mut [u64],
) -> io::Result<Reader> {
    let mut after = r;
    match b {
        b'*' => {
            after.times = r.value;
            after.value = 0;
        }
        b' ' => {
            after.put = put_times(row, r.put, r.value, r.times);
            after.value = 0;
            after.times = 1;
        }
        b'\n' => {
            let n = put_times(row, r.put, r.value, r.times);
            run_line(rt, &row[0..least(n, row.len())], r.line, counts)?;
            after = Reader {
                put: 0,
                value: 0,
                times: 1,
                line: r.line.wrapping_add(1),
            };
        }
        _ => {
            after.value = with_digit(r.value, b);
        }
    }
    Ok(after)
}

fn run_lines(rt: &impl Print, input: &[u8], row: &mut [u64], counts: &mut [u64]) -> io::Result<()> {
    let mut r = Reader {
        put: 0,
        value: 0,
        times: 1,
        line: 1,
    };
    for i in 0..input.len() {
        r = take(rt, r, input[i], row, counts)?;
    }
    Ok(())
}

// Writes how many calls there were of each refusal, 0 for none.
fn show(rt: &impl Print, counts: &[u64]) -> io::Result<()> {
    for i in 0..counts.len() {
        println!(rt; "{i}: {}", counts[i])?;
    }
    Ok(())
}

// 2 MiB.
fn room_for_input() -> [u8; 2097152]
    ensures { 2097152 ≡ length result }
{
    [0; 2097152]
}

// Reads until the buffer is full or the input ends; how many bytes these are.
fn read_full(input: &mut impl Read, buffer: &mut [u8]) -> io::Result<usize>
    ensures { IfOk result (λ n. n ≤ length buffer.new) }
{
    let mut done: usize = 0;
    while done < buffer.len() {
        let n = input.read(&mut buffer[done..])?;
        if n == 0 {
            break;
        }
        done += n;
    }
    Ok(done)
}

fn main(rt: HostRuntime) -> io::Result<()> {
    let mut input = room_for_input();
    let n = read_full(&mut rt.reader(), &mut input)?;
    let mut row = [0u64; 140000];
    let mut counts = [0u64; 21];
    run_lines(&rt, &input[..n], &mut row, &mut counts)?;
    show(&rt, &counts)
}
