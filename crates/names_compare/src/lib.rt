#![tactic(auto)]
// Two names compared: by words while eight bytes of both remain, then byte by byte.
ghost use Rattle.std.specs.Prelude.{◌≡◌, ◌+◌, ◌≤◌, length, drop};
ghost use Rattle.names.specs.Compare.{order, byte_steps, steps};
ghost use Rattle.names_compare.specs.Ordering.{ordering};

use names_words::word_at;
use std::cmp::Ordering;

// What a comparison says: the order of the two, and its steps, one for each word or byte pair.
#[derive(Clone, Copy)]
pub struct Compared {
    pub order: Ordering,
    pub steps: u64,
}

// The bytes from `at` on, one by one, behind `words` steps.
fn compare_bytes(a: &[u8], b: &[u8], at: usize, words: u64) -> Compared
    requires at_in_bounds { at ≤ length a.now }
    requires at_in_bounds_2 { at ≤ length b.now }
    requires words_le_at { words ≤ at }
    ensures order_value { result.order ≡ ordering (order (drop at a.now) (drop at b.now)) }
    ensures steps_value { result.steps ≡ words + byte_steps (drop at a.now) (drop at b.now) }
{
    let n = a.len().min(b.len());
    let mut steps = words;
    for i in at..n {
        steps += 1;
        if a[i] != b[i] {
            return Compared {
                order: a[i].cmp(&b[i]),
                steps,
            };
        }
    }
    Compared {
        order: a.len().cmp(&b.len()),
        steps,
    }
}

// The order of two names, and how many steps it took to tell: words, the first byte of each highest, then byte pairs, up to the first that
// differs.
pub fn compare(a: &[u8], b: &[u8]) -> Compared
    ensures order_value { result.order ≡ ordering (order a.now b.now) }
    ensures steps_value { result.steps ≡ steps a.now b.now }
{
    let n = a.len().min(b.len());
    let mut i: usize = 0;
    let mut words: u64 = 0;
    // A `for` over the words of both is no plainer: the bytes behind them start at the place that they reach.
    while 8 <= n - i {
        let x = word_at(a, i);
        let y = word_at(b, i);
        i += 8;
        words += 1;
        if x != y {
            return Compared {
                order: x.cmp(&y),
                steps: words,
            };
        }
    }
    compare_bytes(a, b, i, words)
}
