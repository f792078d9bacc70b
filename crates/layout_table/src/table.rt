// A table among the work words: of places of fields, and of alignments of types by their place. A fact names its struct or its
// type, so where it stands is no matter of its truth.
ghost use Rattle.std.specs.Prelude.{◌≡◌, ◌<◌, ◌≤◌, ◌^◌, IfSome};
ghost use Rattle.book.specs.Entry.{entries};
ghost use Rattle.layout_memo.specs.Work.{After, AlignFact, table_at};
ghost use Rattle.layout_table.specs.Table.{KeyOf, ValueOf, Probed, Best, AskFind, AskNote, AskTypeAt, AskNoteAlign, Stored, align_key, no_fields, room_for};

use crate::Known;
use layout_memo::MOST_ENTRIES;

// Fewer facts are not worth a table, and more are not used.
pub const LEAST_FACTS: usize = 16;

const MOST_FACTS: usize = 4294967296;

// A fact is looked for in so many slots.
const TRIES: usize = 16;

// The first word of a fact about fields has the index above the place, and the place above whether the struct is packed; that of
// an alignment has a bit above all of these. The second word of a fact about fields has the place above the bytes.
const INDEX: u64 = 2097152;

const ALIGN: u64 = 8796093022208;

const PLACE: u64 = 33554432;

// A key is mixed modulo a prime, and then by 2^32 over the golden ratio.
const PRIME: u64 = 4294967291;

const GOLDEN: u64 = 2654435769;

const MIXED: u64 = 4294967296;

// Where the table's word i stands: word 6 of a name, or behind the words of terms.
fn table_at(names: u64, i: usize) -> usize
    requires { (names ≤ 2 ^ 40) × (i ≤ 2 ^ 40) }
    ensures { result ≡ table_at names i }
{
    let m = names as usize;
    if i < m {
        return book::work::WORDS * i + book::work::FACT;
    }
    7 * m + book::work::TERMS + i
}

// The first word of the fact behind so many fields of a struct.
fn key_of(place: usize, packed: bool, index: u64) -> u64
    requires { (place < 1048576) × (index < 1048576) }
    ensures { KeyOf packed place index result }
{
    let low = index * INDEX + (place as u64) * 2;
    if packed {
        return low + 2;
    }
    low + 1
}

// Where a fact with this key is looked for first.
fn first_slot(key: u64, facts: usize) -> usize
    requires { facts ≤ 2 ^ 32 }
    ensures { result ≤ 2 ^ 32 }
{
    let mixed = key % PRIME * GOLDEN % MIXED;
    (mixed * (facts as u64) / MIXED) as usize
}

fn next_slot(slot: usize, facts: usize) -> usize
    requires { facts ≤ 2 ^ 32 }
    ensures { result ≤ 2 ^ 32 }
{
    let next = slot.wrapping_add(1);
    if next < facts { next } else { 0 }
}

// The second word of a fact with this key. No fact is taken out again, so a free slot ends the search.
fn probe(work: &[u64], names: u64, facts: usize, key: u64) -> Option<u64>
    requires { (names ≤ 2 ^ 40) × (facts ≤ 2 ^ 32) }
    ensures { IfSome result (λ value. Probed names work.now key value) }
{
    let mut slot = first_slot(key, facts);
    for _ in 0..TRIES {
        let at = table_at(names, 2 * slot);
        let behind = table_at(names, 2 * slot + 1);
        if work.len() <= at {
            return None;
        }
        if work.len() <= behind {
            return None;
        }
        if work[at] == key {
            return Some(work[behind]);
        }
        if work[at] == 0 {
            return None;
        }
        slot = next_slot(slot, facts);
    }
    None
}

// How many facts the table has room for.
pub fn room_for(length: usize, names: u64) -> usize
    ensures { result ≡ room_for length names }
{
    if MOST_ENTRIES < names {
        return 0;
    }
    let m = names as usize;
    if length < book::work::WORDS * m + book::work::TERMS {
        return 0;
    }
    let room = (length - book::work::WORDS * m - book::work::TERMS) / 2 + m / 2;
    room.min(MOST_FACTS)
}

// Behind no fields of the struct.
pub fn no_fields(place: usize) -> Known
    ensures { result ≡ no_fields place }
{
    Known {
        index: 0,
        at: place,
        offset: 0,
    }
}

// A fact behind so many fields or fewer: set bits are taken off the index from below until one is there.
pub fn find(
    book_kinds: &[u64],
    book_words: &[u64],
    work: &[u64],
    names: u64,
    place: usize,
    packed: bool,
    index: u64,
) -> Known
    requires { AskFind names (entries book_kinds.now book_words.now) work.now place index }
    ensures { Best names (entries book_kinds.now book_words.now) packed place index result }
{
    let facts = room_for(work.len(), names);
    if facts < LEAST_FACTS {
        return no_fields(place);
    }
    let mut before = index;
    while before != 0 {
        if let Some(value) = probe(work, names, facts, key_of(place, packed, before)) {
            return Known {
                index: before,
                at: (value / PLACE) as usize,
                offset: value % PLACE,
            };
        }
        before &= before - 1;
    }
    no_fields(place)
}

// The second word of a fact.
fn value_of(place: usize, offset: u64) -> u64
    requires { (place < 1048576) × (offset ≤ 16777216) }
    ensures { ValueOf place offset result }
{
    (place as u64) * PLACE + offset
}

// A slot that is free for the key, or the first one.
fn free_slot(work: &[u64], names: u64, facts: usize, key: u64) -> usize
    requires { (names ≤ 2 ^ 40) × (facts ≤ 2 ^ 32) }
    ensures { result ≤ 2 ^ 32 }
{
    let first = first_slot(key, facts);
    let mut slot = first;
    for _ in 0..TRIES {
        let at = table_at(names, 2 * slot);
        if at < work.len() {
            if work[at] == 0 {
                return slot;
            }
            if work[at] == key {
                return slot;
            }
        }
        slot = next_slot(slot, facts);
    }
    first
}

// Stores a fact in a slot, where the table reaches so far.
fn store(work: &mut [u64], names: u64, slot: usize, key: u64, value: u64)
    requires { (names ≤ 2 ^ 40) × (slot ≤ 2 ^ 32) }
    ensures { Stored names work.old work.new key value }
{
    let at = table_at(names, 2 * slot);
    let behind = table_at(names, 2 * slot + 1);
    if at < work.len() {
        if behind < work.len() {
            work[at] = key;
            work[behind] = value;
        }
    }
}

// Puts the two words of a fact into a slot, where the table has room.
fn put(work: &mut [u64], names: u64, key: u64, value: u64)
    ensures { Stored names work.old work.new key value }
{
    let facts = room_for(work.len(), names);
    if facts < LEAST_FACTS {
        return;
    }
    let slot = free_slot(work, names, facts, key);
    store(work, names, slot, key, value);
}

// Notes a fact about the struct whose first field stands at the place.
pub fn note(
    book_kinds: &[u64],
    book_words: &[u64],
    work: &mut [u64],
    names: u64,
    place: usize,
    packed: bool,
    fact: Known,
)
    requires { AskNote names (entries book_kinds.now book_words.now) work.old packed place fact }
    ensures { After names (entries book_kinds.now book_words.now) work.old work.new }
{
    if MOST_ENTRIES <= fact.index {
        return;
    }
    let key = key_of(place, packed, fact.index);
    put(work, names, key, value_of(fact.at, fact.offset));
}

// The first word of the fact about the type at the place.
fn align_key(place: usize) -> u64
    requires { place < 1048576 }
    ensures { result ≡ align_key place }
{
    ALIGN + (place as u64)
}

// The alignment that is noted for the type at the place.
pub fn noted_align(
    book_kinds: &[u64],
    book_words: &[u64],
    work: &[u64],
    names: u64,
    place: usize,
) -> Option<u64>
    requires { AskTypeAt names (entries book_kinds.now book_words.now) work.now place }
    ensures { IfSome result (λ align. AlignFact names (entries book_kinds.now book_words.now) place align) }
{
    let facts = room_for(work.len(), names);
    if facts < LEAST_FACTS {
        return None;
    }
    probe(work, names, facts, align_key(place))
}

// Notes the alignment of the type at the place.
pub fn note_align(
    book_kinds: &[u64],
    book_words: &[u64],
    work: &mut [u64],
    names: u64,
    place: usize,
    align: u64,
)
    requires { AskNoteAlign names (entries book_kinds.now book_words.now) work.old place align }
    ensures { After names (entries book_kinds.now book_words.now) work.old work.new }
{
    put(work, names, align_key(place), align);
}
