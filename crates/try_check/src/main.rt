#![tactic(auto)]
// Runs the check of a book on the cases of standard input, and writes a line for each: its name and document 01's
// number, 0 where the book is sound. The top of the input says what its lines are.
ghost use Rattle.std.specs.Prelude.{◌≡◌, ◌≤◌, length, IfOk, vec_len};

use book::refusal::Refusal;
use std::io;
use std::io::Read;
use try_cases::lent::{copy_names, put_words};
use try_cases::text::{Token, before, read_token};

// How many entries are kept; how many names there are, and where they stand in the input.
#[derive(Clone, Copy)]
struct Base {
    held: usize,
    names: u64,
    from: usize,
    to: usize,
}

// The lengths of book slice and names, the counter, the length of the work slice.
#[derive(Drop)]
struct Loan {
    words: usize,
    bytes: usize,
    counter: u64,
    work: u64,
}

// The number of an answer, as a digit.
fn digit(answer: Result<(), Refusal>) -> u8 {
    match answer {
        Ok(()) => b'0',
        Err(refusal) => b'0' + (refusal.number() % 10) as u8,
    }
}

// Writes a case's name and an answer.
fn report(rt: &impl Print, name: &[u8], answer: Result<(), Refusal>) -> io::Result<()> {
    rt.write_all(name)?;
    rt.write_all(&[b' ', digit(answer), b'\n'])
}

// The answer to what is lent.
fn answer(book: &[u64], names: &[u8], loan: Loan) -> Result<(), Refusal> {
    let words = loan.words.min(book.len());
    let bytes = loan.bytes.min(names.len());
    book_check::check(
        &book[0..words],
        &names[0..bytes],
        loan.counter,
        loan.work as usize,
    )
}

// The place of a byte from a place on, or the end.
fn place(text: &[u8], from: usize, wanted: u8) -> usize
    requires { from ≤ length text.now }
    ensures { (from ≤ result) × (result ≤ length text.now) }
{
    from + before(&text[from..], wanted)
}

// Puts some of the kept words, if there are as many.
fn put_kept(kept: &[u64], from: usize, to: usize, slice: &mut [u64], put: usize) -> usize {
    if to < from {
        return put;
    }
    if kept.len() < to {
        return put;
    }
    put_words(&kept[from..to], slice, put)
}

// Puts an entry, or some that are kept.
fn put_piece(
    piece: Token,
    kept_kinds: &[u64],
    kept_words: &[u64],
    kinds: &mut [u64],
    words: &mut [u64],
    put: usize,
) -> usize {
    let mark = piece.mark;
    match mark {
        b':' => {
            put_words(&[piece.first], kinds, put);
            put_words(&[piece.second], words, put)
        }
        b'-' => {
            let from = piece.first as usize;
            let to = piece.second as usize;
            put_kept(kept_kinds, from, to, kinds, put);
            put_kept(kept_words, from, to, words, put)
        }
        _ => put,
    }
}

// Puts what a part of a line lists, behind what is put.
fn put_pieces(
    line: &[u8],
    kept_kinds: &[u64],
    kept_words: &[u64],
    kinds: &mut [u64],
    words: &mut [u64],
    before: usize,
) -> usize {
    let mut put = before;
    let mut at: usize = 0;
    while at < line.len() {
        let end = place(line, at, b' ');
        put = put_piece(
            read_token(&line[at..end]),
            kept_kinds,
            kept_words,
            kinds,
            words,
            put,
        );
        at = end + 1;
    }
    put
}

// The book slice of the entries that are put; its length.
fn laid(kinds: &[u64], words: &[u64], put: usize, names: u64, book: &mut [u64]) -> usize {
    if kinds.len() < put {
        return 0;
    }
    if words.len() < put {
        return 0;
    }
    let start = put_words(&[put as u64, names], book, 0);
    let middle = put_words(&kinds[0..put], book, start);
    put_words(&words[0..put], book, middle)
}

// The same of the entries that a part of a line lists.
fn laid_out(
    line: &[u8],
    kept_kinds: &[u64],
    kept_words: &[u64],
    names: u64,
    book: &mut [u64],
) -> usize {
    let mut kinds = [0u64; 512];
    let mut words = [0u64; 512];
    let put = put_pieces(line, kept_kinds, kept_words, &mut kinds, &mut words, 0);
    laid(&kinds, &words, put, names, book)
}

// The names that stand in the input from one place to another; how many bytes they take.
fn named(text: &[u8], from: usize, to: usize, names: &mut [u8]) -> usize {
    if to < from {
        return 0;
    }
    if text.len() < to {
        return 0;
    }
    if names.len() < to - from {
        return 0;
    }
    copy_names(&text[from..to], names);
    to - from
}

// So many names of three bytes each, in order; how many bytes they take.
fn make_names(names: &mut [u8], count: u64) -> usize {
    let mut put: usize = 0;
    for i in 0..count {
        if names.len() - put < 4 {
            return put;
        }
        names[put] = (i / 4096 % 64 + 48) as u8;
        names[put + 1] = (i / 64 % 64 + 48) as u8;
        names[put + 2] = (i % 64 + 48) as u8;
        names[put + 3] = b'\n';
        put += 4;
    }
    put
}

// One change.
fn change(loan: Loan, token: Token, book: &mut [u64], names: &mut [u8]) -> Loan {
    let mut after = loan;
    let mark = token.mark;
    let at = token.first as usize;
    match mark {
        b'=' => {
            if at < book.len() {
                book[at] = token.second;
            }
        }
        b'l' => {
            after.words = token.second as usize;
        }
        b'\'' => {
            if at < names.len() {
                names[at] = (token.second % 256) as u8;
            }
        }
        b's' => {
            after.bytes = token.second as usize;
        }
        b'm' => {
            after.bytes = make_names(names, token.second);
        }
        b'c' => {
            after.counter = token.second;
        }
        b'w' => {
            after.work = token.second;
        }
        _ => {}
    }
    after
}

// The changes that a part of a line lists.
fn changed(line: &[u8], loan: Loan, book: &mut [u64], names: &mut [u8]) -> Loan {
    let mut after = loan;
    let mut at: usize = 0;
    while at < line.len() {
        let end = place(line, at, b' ');
        after = change(after, read_token(&line[at..end]), book, names);
        at = end + 1;
    }
    after
}

// A case: its name to the colon, its entries to the slash, changes of what is lent.
fn run_case(
    rt: &impl Print,
    text: &[u8],
    line: &[u8],
    base: Base,
    kept_kinds: &[u64],
    kept_words: &[u64],
    names: &mut [u8],
) -> io::Result<()> {
    let colon = place(line, 0, b':');
    let start = place(line, colon, b' ');
    let slash = place(line, start, b'/');
    let mut book = [0u64; 1026];
    let loan = Loan {
        words: laid_out(
            &line[start..slash],
            kept_kinds,
            kept_words,
            base.names,
            &mut book,
        ),
        bytes: named(text, base.from, base.to, names),
        counter: 0,
        work: 1_048_640,
    };
    let lent = changed(&line[slash..], loan, &mut book, names);
    report(rt, &line[0..colon], answer(&book, names, lent))
}

// A line of the input from one place to another: names, entries to keep, a case, or a remark.
fn run_line(
    rt: &impl Print,
    text: &[u8],
    from: usize,
    to: usize,
    base: Base,
    kinds: &mut [u64],
    words: &mut [u64],
    names: &mut [u8],
) -> io::Result<Base>
    requires { (from ≤ to) × (to ≤ length text.now) }
{
    if to <= from {
        return Ok(base);
    }
    let mut after = base;
    let behind = from + 1;
    match text[from] {
        b'"' => {
            let end = place(&text[0..to], behind, b'"');
            after.names = read_token(&text[end..to]).second;
            after.from = behind;
            after.to = end;
        }
        b'=' => {
            after.held = 0;
        }
        b'+' => {
            after.held = put_pieces(
                &text[behind..to],
                &[0u64; 1],
                &[0u64; 1],
                kinds,
                words,
                base.held,
            );
        }
        b'?' => {
            run_case(rt, text, &text[behind..to], base, kinds, words, names)?;
        }
        _ => {}
    }
    Ok(after)
}

// All lines of the input; the slices are for the entries that are kept and the names that are lent.
fn run_lines(
    rt: &impl Print,
    text: &[u8],
    kinds: &mut [u64],
    words: &mut [u64],
    names: &mut [u8],
) -> io::Result<()> {
    let mut base = Base {
        held: 0,
        names: 0,
        from: 0,
        to: 0,
    };
    let mut at: usize = 0;
    while at < text.len() {
        let end = place(text, at, b'\n');
        base = run_line(rt, text, at, end, base, kinds, words, names)?;
        at = end + 1;
    }
    Ok(())
}

// Room for the most names, each of three bytes and its end.
fn room_for_names() -> [u8; 524288]
    ensures { 524288 ≡ length result }
{
    [0; 524288]
}

// The first 64 KiB of the input are read.
fn main(rt: HostRuntime) -> io::Result<()> {
    let mut text = Vec::new(rt.alloc());
    rt.reader().take(65536).read_to_end(&mut text)?;
    let mut kinds = [0u64; 512];
    let mut words = [0u64; 512];
    let mut names = room_for_names();
    run_lines(&rt, &text, &mut kinds, &mut words, &mut names)
}
