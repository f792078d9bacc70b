#![tactic(auto)]
// Sizes, alignments and offsets of a book's types. A type is lent as the rest of the entries from its start, `kinds` and
// `words`; the bodies of named structs stand among the book's entries, `book_kinds` and `book_words`, where word 4 of a
// name's 8 work words says. What was measured of a named struct is remembered in word 7.
pub mod ends;
pub mod memory;
pub mod scalars;
pub mod structs;

ghost use Rattle.std.specs.Prelude.{◌≡◌};
ghost use Rattle.book.specs.Entry.{entries};
ghost use Rattle.layout_memo.specs.Measured.{one_more, Few};
ghost use Rattle.layout_memo.specs.Front.{ty_len};
ghost use Rattle.layout_memo.specs.Arms.{times_of};

use book::refusal::Refusal;
use book_types::types::{LEVELS, type_len};

// The most bytes of a type, and the most entries of a book.
pub const MOST_BYTES: u64 = 16777216;

pub const MOST_ENTRIES: u64 = 1048576;

// A measured size or alignment with the levels that it takes.
#[derive(Clone, Copy, Debug, PartialEq, Eq)]
pub struct Measure {
    pub bytes: u64,
    pub levels: u32,
}

// So many bytes, of a type that takes one level.
pub fn one_level(bytes: u64) -> Measure
    ensures { result ≡ record { bytes = bytes; levels = 1 } }
{
    Measure { bytes, levels: 1 }
}

// One level more.
pub fn one_more(m: Result<Measure, Refusal>) -> Result<Measure, Refusal>
    requires { Few m }
    ensures { result ≡ one_more m }
{
    let Measure { bytes, levels } = m?;
    Ok(Measure {
        bytes,
        levels: levels + 1,
    })
}

// An array of so many elements: at most 2^24 bytes.
pub fn array_bytes(len: u64, elem: Result<Measure, Refusal>) -> Result<Measure, Refusal>
    ensures { result ≡ times_of len elem }
{
    let elem = elem?;
    match len.checked_mul(elem.bytes) {
        Some(bytes) if bytes <= MOST_BYTES => Ok(Measure {
            bytes,
            levels: elem.levels,
        }),
        _ => Err(Refusal::TooLarge),
    }
}

// The number of entries of the type at the front, 0 where there is none.
pub fn skip(kinds: &[u64], words: &[u64], names: u64) -> usize
    ensures { result ≡ ty_len names (entries kinds.now words.now) }
{
    type_len(kinds, words, names, LEVELS).unwrap_or(0)
}
