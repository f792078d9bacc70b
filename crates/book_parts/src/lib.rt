#![tactic(auto)]
// The parts of a book in one pass: marks, named structs, the functions. Repeated marks, struct names and function names are found by
// maps with a bit for each name. `barred` has a bit set for each name that may not be called; reserved names are added to it before
// the functions are read.
ghost use Rattle.std.specs.Prelude.{◌≡◌, ◌<◌, ◌≤◌, ◌&&◌, eqb, replicate};
ghost use Rattle.book.specs.Entry.{entries};
ghost use Rattle.book.specs.Decode.{struct_body, struct_type, functions, structs_and_functions, parts};
ghost use Rattle.book_types.specs.Length.{len_of};
ghost use Rattle.book_marks.specs.Once.{set_if};
ghost use Rattle.book_marks.specs.Range.{marked_range};
ghost use Rattle.book_parts.specs.Parts.{is_struct_group};
ghost use Rattle.book_parts.specs.Maps.{words_found};
ghost use Rattle.book_parts.specs.Reading.{mark_taken, functions_found, named_found, marks_found, parts_found};

use book::entry;
use book_blocks::function_len;
use book_marks::{mark_bit, mark_new, mark_range};
use book_types::types::{LEVELS, TypeGroup, type_group, type_len};
use book_types::{Found, first_entry, shorter};
use book_values::word_len;

// The most names that a book has, and how many the short maps have a bit for; the words of both maps.
pub const MOST_NAMES: u64 = 131_072;

const FEW_NAMES: u64 = 2_048;

const MOST_WORDS: usize = 2_048;

const FEW_WORDS: usize = 32;

fn is_struct(group: TypeGroup) -> bool
    ensures { result ≡ is_struct_group group }
{
    matches!(group, TypeGroup::Struct(_))
}

// A struct's body: opaque, or a struct type.
fn struct_body_len(kinds: &[u64], words: &[u64], names: u64) -> Option<usize>
    ensures { result ≡ len_of (struct_body names (entries kinds.now words.now)) }
{
    let (kind, word) = first_entry(kinds, words)?;
    if kind == entry::OPAQUE {
        return (word == 0).then_some(1);
    }
    if is_struct(type_group(kind)) {
        type_len(kinds, words, names, LEVELS)
    } else {
        None
    }
}

// A named struct: its name and its body.
fn struct_len(kinds: &[u64], words: &[u64], names: u64) -> Option<usize>
    ensures { result ≡ len_of (struct_type names (entries kinds.now words.now)) }
{
    let n = word_len(kinds, words, entry::NAMED_STRUCT, names)?;
    let body = struct_body_len(&kinds[n..], &words[n..], names)?;
    Some(n + body)
}

// The functions, one or more whose names are new, and the entry that closes them. The loop goes on by a function's entries; `left` is the
// definition's bound on the functions.
fn functions_len(
    kinds: &[u64],
    words: &[u64],
    names: u64,
    barred: &[u64],
    defined: &mut [u64],
) -> Option<Found>
    ensures { result ≡ functions_found barred.now defined.old (functions names (entries kinds.now words.now)) }
{
    let end = shorter(kinds, words);
    let mut at: usize = 0;
    let mut left: usize = end;
    let mut seen = false;
    while at < end {
        if kinds[at] == entry::END {
            if (at == 0) | (words[at] != 0) {
                return None;
            }
            return Some(Found {
                entries: at + 1,
                barred: seen,
            });
        }
        let function = function_len(&kinds[at..], &words[at..], names, barred)?;
        if left == 0 {
            return None;
        }
        if !mark_new(defined, words[at] as usize) {
            return None;
        }
        seen |= function.barred;
        at += function.entries;
        left -= 1;
    }
    None
}

// Named structs whose names are new, and the functions. The loop goes on by a struct's entries; `left` is the definition's bound on them.
fn named_len(
    kinds: &[u64],
    words: &[u64],
    names: u64,
    barred: &[u64],
    named: &mut [u64],
    defined: &mut [u64],
) -> Option<Found>
    ensures { result ≡ named_found barred.now defined.old named.old (structs_and_functions names (entries kinds.now words.now)) }
{
    let end = shorter(kinds, words);
    let mut at: usize = 0;
    let mut left: usize = end;
    while at < end {
        if entry::OPAQUE <= kinds[at] {
            let rest = functions_len(&kinds[at..], &words[at..], names, barred, defined)?;
            return Some(Found::plain(at).then(rest));
        }
        let n = struct_len(&kinds[at..], &words[at..], names)?;
        if left == 0 {
            return None;
        }
        if !mark_new(named, words[at] as usize) {
            return None;
        }
        at += n;
        left -= 1;
    }
    None
}

// Whether a name has its first mark here, kind 1 or 2; then it is marked, and barred if it is reserved.
fn mark(kind: u64, word: u64, names: u64, marked: &mut [u64], barred: &mut [u64]) -> bool
    ensures value { result ≡ mark_taken names marked.old kind word }
    ensures marked_after { marked.new ≡ set_if result marked.old word }
    ensures barred_after { barred.new ≡ set_if (result && eqb kind 2) barred.old word }
{
    if kind == entry::END {
        return false;
    }
    if entry::RESERVED < kind {
        return false;
    }
    if names <= word {
        return false;
    }
    if !mark_new(marked, word as usize) {
        return false;
    }
    if kind == entry::RESERVED {
        mark_bit(barred, word as usize);
    }
    true
}

// Names that have their first mark here, then all that follows the marks.
fn marks_len(
    kinds: &[u64],
    words: &[u64],
    names: u64,
    marked: &mut [u64],
    barred: &mut [u64],
    named: &mut [u64],
    defined: &mut [u64],
) -> Option<Found>
    ensures { result ≡ marks_found named.old defined.old marked.old barred.old (parts names (entries kinds.now words.now)) }
{
    let n = shorter(kinds, words);
    for at in 0..n {
        if entry::NAMED_STRUCT <= kinds[at] {
            let rest = named_len(&kinds[at..], &words[at..], names, barred, named, defined)?;
            return Some(Found::plain(at).then(rest));
        }
        if !mark(kinds[at], words[at], names, marked, barred) {
            return None;
        }
    }
    None
}

// The same, where the names from `from` up to and without `to` may not be called besides those of the map.
fn ranged_len(
    kinds: &[u64],
    words: &[u64],
    names: u64,
    from: u64,
    to: u64,
    marked: &mut [u64],
    barred: &mut [u64],
    named: &mut [u64],
    defined: &mut [u64],
) -> Option<Found>
    ensures { result ≡ marks_found named.old defined.old marked.old (marked_range barred.old from to) (parts names (entries kinds.now words.now)) }
{
    mark_range(barred, from, to);
    marks_len(kinds, words, names, marked, barred, named, defined)
}

// The same from maps of N words, which have a bit for each of 64 N names.
fn sized_len<const N: usize>(
    kinds: &[u64],
    words: &[u64],
    names: u64,
    from: u64,
    to: u64,
) -> Option<Found>
    requires { N ≤ 2048 }
    ensures { result ≡ words_found N from to (parts names (entries kinds.now words.now)) }
{
    let mut marked = [0u64; N];
    let mut barred = [0u64; N];
    let mut named = [0u64; N];
    let mut defined = [0u64; N];
    ranged_len(
        kinds,
        words,
        names,
        from,
        to,
        &mut marked,
        &mut barred,
        &mut named,
        &mut defined,
    )
}

// The same from maps that have a bit for each name; short ones find what long ones do. Short maps are cleared in less time; each length
// stands in a function of its own, and this one calls itself with more room: so none is compiled into its caller, and a book of few names
// does not pay for the pages of long maps.
fn maps_len(
    kinds: &[u64],
    words: &[u64],
    names: u64,
    from: u64,
    to: u64,
    room: u64,
) -> Option<Found>
    requires { 0 < room }
    ensures { result ≡ parts_found (marked_range (replicate 2048 0) from to) (parts names (entries kinds.now words.now)) }
{
    if MOST_NAMES <= room {
        return sized_len::<MOST_WORDS>(kinds, words, names, from, to);
    }
    if room < names {
        return maps_len(kinds, words, names, from, to, 2 * room);
    }
    if room < to {
        return maps_len(kinds, words, names, from, to, 2 * room);
    }
    if FEW_NAMES < room {
        return sized_len::<MOST_WORDS>(kinds, words, names, from, to);
    }
    sized_len::<FEW_WORDS>(kinds, words, names, from, to)
}

// Marks, each name once, named structs and the functions. The names from `from` up to and without `to` may not be called, nor may
// the reserved ones.
pub fn parts_len(kinds: &[u64], words: &[u64], names: u64, from: u64, to: u64) -> Option<Found>
    ensures { result ≡ parts_found (marked_range (replicate 2048 0) from to) (parts names (entries kinds.now words.now)) }
{
    maps_len(kinds, words, names, from, to, FEW_NAMES)
}
