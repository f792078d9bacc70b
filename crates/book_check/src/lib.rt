#![tactic(auto)]
// The whole check: whether a book slice, its names, a label counter and the length of a work slice are fit for
// a translation, or the first of document 01's refusals 1 to 4. It passes once over the names and once over the entries.
ghost use Rattle.std.specs.Prelude.{◌≡◌, ◌≤◌, IsOk, leb, get_or};
ghost use Rattle.book.specs.Entry.{entries};
ghost use Rattle.book.specs.Decode.{decode};
ghost use Rattle.book.specs.Input.{book_in};
ghost use Rattle.book.specs.Check.{checked, refusal_of, work_for};
ghost use Rattle.names_check.specs.Nexts.{NotedWhere};
ghost use Rattle.book_check.specs.Whole.{there, reading_of, reading_in, barred_range};
ghost use Rattle.book_check.specs.Verdict.{answer_number, verdict_of};

use book::refusal::Refusal;
use book::work::{MARK, WORDS};
use book_parts::{MOST_NAMES, parts_len};

// The most entries of a book, and the largest label counter.
const MOST_ENTRIES: u64 = 1_048_576;

const MOST_COUNTER: u64 = 0x1_0000_0000;

// Whether something in the book of the entries is forbidden, if they are one. The names from `from` up to and without `to` may not be
// called, nor may the reserved ones.
fn read_entries(kinds: &[u64], words: &[u64], names: u64, from: u64, to: u64) -> Option<bool>
    requires { names ≤ 131072 }
    ensures { result ≡ reading_of (barred_range from to) (decode names (entries kinds.now words.now)) }
{
    let found = parts_len(kinds, words, names, from, to)?;
    (found.entries == book_types::shorter(kinds, words)).then_some(found.barred)
}

// The same of the book slice.
fn read_book(book: &[u64], from: u64, to: u64) -> Option<bool>
    ensures { result ≡ reading_in (barred_range from to) (book_in book.now) }
{
    if book.len() < 2 {
        return None;
    }
    let n = book[0];
    let names = book[1];
    if MOST_ENTRIES < n {
        return None;
    }
    if MOST_NAMES < names {
        return None;
    }
    let words = 2 + n as usize;
    if book.len() != words + n as usize {
        return None;
    }
    read_entries(&book[2..words], &book[words..], names, from, to)
}

// Whether the slice is a book: refusal 1, but for the counter.
pub fn check_book(book: &[u64]) -> bool
    ensures { result ≡ there (book_in book.now) }
{
    read_book(book, 0, 0).is_some()
}

// The number of names that the slice says, 0 where it says none.
fn name_count(book: &[u64]) -> u64
    ensures { result ≡ get_or book.now 1 0 }
{
    if book.len() < 2 { 0 } else { book[1] }
}

// Whether a work slice is long enough for so many names.
fn work_fits(count: u64, work: usize) -> bool
    ensures { result ≡ leb (work_for count) work }
{
    if work < 64 {
        return false;
    }
    count as usize <= (work - 64) / 8
}

// The first refusal of 1 to 4, from what was read and whether the names are a list.
fn judged(
    book: Option<bool>,
    named: bool,
    counter: u64,
    count: u64,
    work: usize,
) -> Result<(), Refusal>
    ensures { result ≡ verdict_of book named counter count work }
{
    let forbidden = book.ok_or(Refusal::Book)?;
    if MOST_COUNTER < counter {
        return Err(Refusal::Book);
    }
    if !named {
        return Err(Refusal::Names);
    }
    if forbidden {
        return Err(Refusal::Forbidden);
    }
    if work_fits(count, work) {
        Ok(())
    } else {
        Err(Refusal::Work)
    }
}

// The first refusal of 1 to 4 that applies. Where the book is sound, it is noted in word 5 of each name's eight where the next name starts;
// where it is not, the words are left free.
pub fn check_noting(
    book: &[u64],
    names: &[u8],
    counter: u64,
    work: usize,
    nexts: &mut [u64],
) -> Result<(), Refusal>
    ensures result_value { answer_number result ≡ refusal_of (checked book.now names.now counter work) }
    ensures noted_where { NotedWhere (IsOk result) 8 5 names.now (get_or book.now 1 0) nexts.old nexts.new }
{
    let count = name_count(book);
    match names_check::read_names(names, count, b"llvm.", nexts, WORDS, MARK) {
        Some(barred) => judged(
            read_book(book, barred.start, barred.end),
            true,
            counter,
            count,
            work,
        ),
        None => judged(read_book(book, 0, 0), false, counter, count, work),
    }
}

// The first refusal of 1 to 4 that applies, by itself.
pub fn check(book: &[u64], names: &[u8], counter: u64, work: usize) -> Result<(), Refusal>
    ensures { answer_number result ≡ refusal_of (checked book.now names.now counter work) }
{
    let mut nexts = [0u64; 0];
    check_noting(book, names, counter, work, &mut nexts)
}
