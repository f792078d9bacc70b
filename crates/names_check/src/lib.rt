#![tactic(auto)]
// The names that come with a book: whether they are a list of names as documents 01 and 02 (card 6) want them, which of them start
// with a prefix, and where the one behind each of them starts.
ghost use Rattle.std.specs.Prelude.{◌≡◌, true, ◌+◌, ◌<◌, ◌≤◌, length, set};
ghost use Rattle.names.specs.Name.{name_byte, before, accepted, lines};
ghost use Rattle.names.specs.Prefix.{first_with, past_with};
ghost use Rattle.names_check.specs.Read.{names_read};
ghost use Rattle.names_check.specs.Nexts.{NotedWhere, place_behind};
ghost use Rattle.names_check.specs.Found.{Spelled, Kept, Found};

use names_compare::compare;
use names_spelling::utf8::char_len;
use names_spelling::{END, name_starts};
use names_words::{word_at, word_front, word_key};
use std::ops::Range;

// Whether a byte may stand in a name: it is no control character.
fn name_byte(b: u8) -> bool
    ensures { result ≡ name_byte b }
{
    !b.is_ascii_control()
}

// The index behind the characters from `at` on that may stand in a name, one by one: the name's end, or a place from which what is left of
// the line is no name.
fn chars_end(names: &[u8], at: usize) -> usize
    requires { at ≤ length names.now }
    ensures { Spelled names.now at result }
{
    let mut i = at;
    // The step is a character's length, which no `for` counts.
    while i < names.len() {
        if !name_byte(names[i]) {
            return i;
        }
        let Some(n) = char_len(names, i) else {
            return i;
        };
        i += n;
    }
    i
}

// The same by words of ASCII characters while eight bytes remain. Behind such a word the next one is read at once, without waiting for
// the number of its bytes.
fn front_end(names: &[u8], at: usize) -> usize
    requires { at ≤ length names.now }
    ensures { Spelled names.now at result }
{
    let mut i = at;
    // Where a word holds the end, the place moves by a part of it, and what is left goes by bytes: no `for` over words is plainer.
    while 8 <= names.len() - i {
        let w = word_at(names, i);
        let n = word_front(w);
        if n < 8 {
            i += n;
            if names[i] < 128 {
                return i;
            }
            break;
        }
        i += 8;
    }
    chars_end(names, i)
}

// Whether one name comes strictly before another bytewise.
#[tactic(auto, using(names_compare::specs::Ordering::less_before))]
fn name_before(a: &[u8], b: &[u8]) -> bool
    ensures { result ≡ before a.now b.now }
{
    compare(a, b).order.is_lt()
}

// Notes in the word at `place` where a name starts, and gives the place `step` words on. A place that the slice does not have stays.
fn note_start(nexts: &mut [u64], place: usize, step: usize, start: usize) -> usize
    requires { step ≤ 8 }
    ensures nexts_after { nexts.new ≡ set nexts.old place start }
    ensures value { result ≡ place_behind (length nexts.old) step place }
{
    // `get_mut` is no plainer: the answer asks for the same test.
    if place < nexts.len() {
        nexts[place] = start as u64;
        return place + step;
    }
    place
}

// The key of no name: that of one with no byte but its end.
const NO_NAME: u64 = 10 << 56;

// A name that was met, behind the one before it: where it ends, and its key.
#[derive(Clone, Copy)]
struct Next {
    end: usize,
    key: u64,
}

// The name at `at`, where it comes after the one that stands from `last` to `past`. Where eight bytes are left they are read as one word,
// which tells the end of a short ASCII name, and its order by one comparison with the other name's key. The end of any other is searched
// behind the word's ASCII characters; then the two names are compared, and so are the last ones, for which the key is not needed any more.
fn next_name(names: &[u8], last: usize, past: usize, key: u64, at: usize) -> Option<Next>
    requires at_in_bounds { at < length names.now }
    requires kept { Kept names.now last past key at }
    ensures { Found names.now last past at result }
{
    let mut first: u64 = 0;
    let mut from = at;
    if 8 <= names.len() - at {
        first = word_at(names, at);
        let n = word_front(first);
        if n < 8 {
            from = at + n;
            if names[from] == END {
                let k = word_key(first, n);
                return (key < k).then_some(Next { end: from, key: k });
            }
        } else {
            from = at + 8;
        }
    }
    let end = front_end(names, from);
    if names.len() <= end
        || names[end] != END
        || !name_before(&names[last..past], &names[at..end])
    {
        return None;
    }
    let long = end - at;
    if long < 8 {
        first = word_key(first, long);
    }
    Some(Next { end, key: first })
}

// Where the bytes are a list of names, and `count` of them, the range of those that start with the prefix: one pass, in which each
// name is compared with the one before it, and where the next one starts is noted, for the first name in the word `first`, for each other
// one `step` words on; the words are left free where the answer is no. An empty name fails that comparison, since nothing comes before it. The range ends at the first name behind it, from
// which on `to` is less than `seen`.
pub fn read_names(
    names: &[u8],
    count: u64,
    prefix: &[u8],
    nexts: &mut [u64],
    step: usize,
    first: usize,
) -> Option<Range<u64>>
    requires step_nonzero { 0 < step }
    requires step_bound { step ≤ 8 }
    ensures value { result ≡ names_read (accepted names.now count) (first_with prefix.now (lines names.now)) (past_with prefix.now (lines names.now)) }
    ensures noted_where { NotedWhere (accepted names.now count ≡ true) step first names.now count nexts.old nexts.new }
{
    let mut seen: u64 = 0;
    let mut from: u64 = 0;
    let mut to: u64 = 0;
    let mut last: usize = 0;
    let mut last_end: usize = 0;
    let mut at: usize = 0;
    let mut key = NO_NAME;
    let mut place = first;
    // The step is a name's length, which no `for` counts.
    while at < names.len() {
        let next = next_name(names, last, last_end, key, at)?;
        if to == seen {
            if name_starts(names, at, prefix) {
                to += 1;
            } else if from == to {
                from += 1;
                to += 1;
            }
        }
        seen += 1;
        key = next.key;
        last = at;
        last_end = next.end;
        at = next.end + 1;
        place = note_start(nexts, place, step, at);
    }
    (seen == count).then_some(from..to)
}
