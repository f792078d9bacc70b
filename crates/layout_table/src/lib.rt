#![tactic(auto)]
// Where the fields of structs stand, noted in the work words, so that a field is found without passing all fields before it;
// and alignments of long types.
// A fact is noted behind j fields where the 2^t fields before it take `size` entries or more, 2^t the largest power of two that
// divides j; so a field is found by taking set bits off its index from below until a fact is there. What lies between that fact
// and the field is passed then, and facts are noted on the way.
pub mod starts;
pub mod table;

ghost use Rattle.std.specs.Prelude.{◌+◌, ◌<◌, ◌≤◌, ◌^◌, length, IfSome};
ghost use Rattle.book.specs.Entry.{entries};
ghost use Rattle.layout_memo.specs.Work.{After};
ghost use Rattle.layout_table.specs.Table.{AskFieldsAt, AskNote, Best};
ghost use Rattle.layout_table.specs.Known.{AskRun, AskPass, KnownOutcome, PassOutcome};

use crate::table::{LEAST_FACTS, find, no_fields, note, room_for};
use book::entry;
use layout_field::{field_start, fields_left};
use layout_memo::ends::type_end;
use layout_memo::scalars::pass_scalars;
use layout_memo::{MOST_BYTES, MOST_ENTRIES};
use layout_size::size_of;

// A book of fewer entries needs no facts.
const SMALL_BOOK: usize = 2048;

// Behind `index` fields of a struct, the fields from `at` on are left, and `offset` bytes are taken.
#[derive(Clone, Copy)]
pub struct Known {
    pub index: u64,
    pub at: usize,
    pub offset: u64,
}

// The field with this index of the struct whose first field stands at the place; facts are noted behind fields that take `size`
// entries or more.
#[derive(Clone, Copy)]
pub struct Sought {
    pub place: usize,
    pub packed: bool,
    pub index: u64,
    pub size: usize,
}

// Passes one field, up to the one asked for, where it can be measured and the bytes taken stay within 2^24.
fn next_field(
    book_kinds: &[u64],
    book_words: &[u64],
    work: &mut [u64],
    names: u64,
    sought: Sought,
    from: Known,
) -> Option<Known>
    requires { AskPass names (entries book_kinds.now book_words.now) work.old sought.packed sought.place sought.index from }
    ensures best { IfSome result (λ known. Best names (entries book_kinds.now book_words.now) sought.packed sought.place sought.index known) }
    ensures after { After names (entries book_kinds.now book_words.now) work.old work.new }
{
    let at = from.at;
    let packed = sought.packed;
    if book_kinds[at] == entry::END {
        return None;
    }
    if sought.index <= from.index {
        return None;
    }
    let ks = &book_kinds[at..];
    let ws = &book_words[at..];
    let begin = from.offset;
    let Ok(start) = field_start(ks, ws, book_kinds, book_words, work, names, packed, begin) else {
        return None;
    };
    let Ok(size) = size_of(ks, ws, book_kinds, book_words, work, names, 64) else {
        return None;
    };
    let offset = start + size.bytes;
    if MOST_BYTES < offset {
        return None;
    }
    Some(Known {
        index: from.index + 1,
        at: at + type_end(ks, ws, names),
        offset,
    })
}

// Passes 2^level fields, up to the one asked for, where these are few and all integers or pointers.
fn next_scalars(
    book_kinds: &[u64],
    book_words: &[u64],
    names: u64,
    sought: Sought,
    level: u32,
    from: Known,
) -> Option<Known>
    requires { AskRun names (entries book_kinds.now book_words.now) sought.packed sought.place sought.index from }
    ensures { IfSome result (λ known. Best names (entries book_kinds.now book_words.now) sought.packed sought.place sought.index known) }
{
    if 6 < level {
        return None;
    }
    let many = 1u64 << level;
    if sought.index - from.index < many {
        return None;
    }
    let next = fields_left(from.at, many, from.offset);
    let stop = book_kinds.len();
    let run = pass_scalars(book_kinds, book_words, names, sought.packed, stop, next);
    if run.left != 0 {
        return None;
    }
    if MOST_BYTES < run.offset {
        return None;
    }
    Some(Known {
        index: from.index + many,
        at: run.at,
        offset: run.offset,
    })
}

// Notes a fact where the fields from `start` on take many entries before it.
fn note_behind(
    book_kinds: &[u64],
    book_words: &[u64],
    work: &mut [u64],
    names: u64,
    sought: Sought,
    start: usize,
    fact: Known,
)
    requires ask_note { AskNote names (entries book_kinds.now book_words.now) work.old sought.packed sought.place fact }
    requires start_bound { (start ≤ 2 ^ 32) × (sought.size ≤ 2 ^ 32) }
    ensures { After names (entries book_kinds.now book_words.now) work.old work.new }
{
    let place = sought.place;
    let packed = sought.packed;
    if start + sought.size <= fact.at {
        note(book_kinds, book_words, work, names, place, packed, fact);
    }
}

// Passes 2^level fields, up to the one asked for, and notes facts on the way. Where it does not come as far, the error is how far
// it came.
fn note_fields(
    book_kinds: &[u64],
    book_words: &[u64],
    work: &mut [u64],
    names: u64,
    sought: Sought,
    level: u32,
    from: Known,
) -> Result<Known, Known>
    requires ask_pass { AskPass names (entries book_kinds.now book_words.now) work.old sought.packed sought.place sought.index from }
    requires size_bound { sought.size ≤ 2 ^ 32 }
    ensures { PassOutcome names (entries book_kinds.now book_words.now) work.old work.new
        sought.packed sought.place sought.index result }
{
    if let Some(run) = next_scalars(book_kinds, book_words, names, sought, level, from) {
        return Ok(run);
    }
    if level == 0 {
        return next_field(book_kinds, book_words, work, names, sought, from).ok_or(from);
    }
    let half = note_fields(book_kinds, book_words, work, names, sought, level - 1, from)?;
    note_behind(book_kinds, book_words, work, names, sought, from.at, half);
    note_fields(book_kinds, book_words, work, names, sought, level - 1, half)
}

// The entries that the fields before a fact take at least. A book that is structs alone would have twice the facts that the table
// has room for; one that asks for many fields is half made of that, and one fact that is lost is passed from the one before.
fn size_for(facts: usize, count: usize) -> usize
    requires { (16 ≤ facts) × (count ≤ 1048576) }
    ensures { result ≤ 2 ^ 32 }
{
    (count / facts / 2).max(64)
}

// Whether an entry of this kind begins an array or a struct.
fn opens(kind: u64) -> bool {
    matches!(
        kind,
        entry::ARRAY | entry::PACKED_ARRAY | entry::STRUCT | entry::PACKED_STRUCT
    )
}

// Where 128 entries from the place on end, or the book.
fn near_stop(length: usize, place: usize) -> usize
    ensures { result ≤ length }
{
    if length <= place {
        return length;
    }
    if length - place <= 128 {
        return length;
    }
    place + 128
}

// The lists that are open behind an entry of this kind.
fn lists_behind(kind: u64, lists: usize) -> usize
    requires { lists + 1 < 2 ^ 64 }
    ensures { result ≤ lists + 1 }
{
    match kind {
        entry::END => lists.saturating_sub(1),
        entry::STRUCT | entry::PACKED_STRUCT => lists + 1,
        _ => lists,
    }
}

// The fields that are left behind an entry of this kind: the entry of an array stands before its element's.
fn left_behind(kind: u64, lists: usize, left: u64) -> u64
    requires { 1 ≤ left }
{
    if lists != 0 {
        return left;
    }
    match kind {
        entry::ARRAY | entry::PACKED_ARRAY => left,
        _ => left - 1,
    }
}

// Whether the field with this index, of those from the place on, stands among the next 128 entries, and begins no array or struct,
// whose alignment may be known: it is found without a fact.
fn is_near(kinds: &[u64], place: usize, index: u64) -> bool {
    let mut lists: usize = 0;
    let mut left = index;
    for at in place..near_stop(kinds.len(), place) {
        let kind = kinds[at];
        if left == 0 {
            return !opens(kind);
        }
        lists = lists_behind(kind, lists);
        left = left_behind(kind, lists, left);
    }
    false
}

// How many facts the table has room for, where the field is not found without them.
fn facts_for(kinds: &[u64], place: usize, index: u64, words: usize, names: u64) -> Option<usize>
    ensures { IfSome result (λ facts. (16 ≤ facts) × ((index < 1048576) × (length kinds.now ≤ 1048576))) }
{
    if kinds.len() < SMALL_BOOK {
        return None;
    }
    if is_near(kinds, place, index) {
        return None;
    }
    if MOST_ENTRIES < kinds.len() as u64 {
        return None;
    }
    if MOST_ENTRIES <= index {
        return None;
    }
    let facts = room_for(words, names);
    if facts < LEAST_FACTS {
        return None;
    }
    Some(facts)
}

// A level at which so many fields are passed.
fn level_for(fields: u64) -> u32 {
    if fields < 64 { 6 } else { 20 }
}

// A fact behind so many fields of the struct or fewer.
pub fn known_before(
    book_kinds: &[u64],
    book_words: &[u64],
    work: &mut [u64],
    names: u64,
    place: usize,
    packed: bool,
    index: u64,
) -> Known
    requires { AskFieldsAt names (entries book_kinds.now book_words.now) work.old place }
    ensures { KnownOutcome names (entries book_kinds.now book_words.now) work.old work.new packed place index result }
{
    let Some(facts) = facts_for(book_kinds, place, index, work.len(), names) else {
        return no_fields(place);
    };
    let found = find(book_kinds, book_words, work, names, place, packed, index);
    let left = index - found.index;
    if is_near(book_kinds, found.at, left) {
        return found;
    }
    let sought = Sought {
        place,
        packed,
        index,
        size: size_for(facts, book_kinds.len()),
    };
    let level = level_for(left);
    match note_fields(book_kinds, book_words, work, names, sought, level, found) {
        Ok(known) => known,
        Err(known) => known,
    }
}
