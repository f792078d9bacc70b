#![tactic(auto)]
// Where lines are put. One code counts and writes: lines behind the end of the lent slices are counted and not stored. What
// a generator reached is handed through, and a refusal goes through unchanged, so that generators follow one another without
// a test between them.
ghost use Rattle.std.specs.Prelude.{◌≡◌, slice_set};
ghost use Rattle.book.specs.Refusal.{number_of};
ghost use Rattle.gen_lines.specs.Puts.{further as furtherFrom, Lined, made_fresh, made_refused};

use book::refusal::Refusal;

// The place behind the last line, the label counter, and the refusal's number where a generator refused, 0 where none did: behind
// it the place and the counter count for nothing. All are words because a flag or an enum would leave padding: the struct is handed on by
// value, and copying padding reads across what was stored just before, which waits for the store.
#[derive(Clone, Copy)]
pub struct Reached {
    pub at: usize,
    pub counter: u64,
    pub refused: u64,
}

// Counting ends here: no line slice reaches so far.
const END: usize = 1 << 62;

// The place behind one line more.
fn further(at: usize) -> usize
    ensures { result ≡ furtherFrom at 1 }
{
    at.min(END - 1) + 1
}

// Stored where the slice reaches so far.
fn store<T: Copy>(slice: &mut [T], at: usize, value: T)
    ensures { slice.new ≡ slice_set slice.old at value }
{
    if at < slice.len() {
        slice[at] = value;
    }
}

// `line`: one line more.
pub fn put(lines: &mut [u16], operands: &mut [u64], s: Reached, kind: u16, operand: u64) -> Reached
    ensures { Lined kind operand s result lines.old operands.old lines.new operands.new }
{
    store(lines, s.at, kind);
    store(operands, s.at, operand);
    Reached {
        at: further(s.at),
        ..s
    }
}

// A refusal, unless one came before.
pub fn refuse(s: Reached, why: Refusal) -> Reached
    ensures { result ≡ made_refused s (number_of why) }
{
    refuse_number(s, why.number())
}

// The same of a refusal that is at hand by its number.
pub fn refuse_number(s: Reached, number: u64) -> Reached
    ensures { result ≡ made_refused s number }
{
    if s.refused != 0 {
        s
    } else {
        Reached {
            refused: number,
            ..s
        }
    }
}

// `fresh_label`, so many at once: the counter behind them.
pub fn fresh(s: Reached, labels: u64) -> Reached
    ensures { result ≡ made_fresh s labels }
{
    Reached {
        counter: s.counter.wrapping_add(labels),
        ..s
    }
}

// The next label's number.
pub fn label(s: Reached) -> u64
    ensures { result ≡ s.counter }
{
    s.counter
}
