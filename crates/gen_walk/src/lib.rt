#![tactic(auto)]
// From one instruction to the next, and from one block to the next, in the entries of a sound book: the fields of an
// instruction or a terminator have kinds below 40 and no 7, so that nothing has to be read again.
ghost use Rattle.std.specs.Prelude.{◌≤◌, length};
ghost use Rattle.gen_walk.specs.Walk.{FirstHigh, FirstBlock};

use book::entry;

// The first place from `at` on whose entry is an instruction or a terminator; the end where there is none.
pub fn next_inst(kinds: &[u64], at: usize) -> usize
    requires { at ≤ length kinds.now }
    ensures { FirstHigh kinds.now at result }
{
    for i in at..kinds.len() {
        if entry::ADD <= kinds[i] {
            return i;
        }
    }
    kinds.len()
}

// The first place from `at` on, before `end`, whose entry is a block; `end` where there is none.
pub fn next_block(kinds: &[u64], at: usize, end: usize) -> usize
    requires { (at ≤ end) × (end ≤ length kinds.now) }
    ensures { FirstBlock kinds.now end at result }
{
    for i in at..end {
        if kinds[i] == entry::BLOCK {
            return i;
        }
    }
    end
}
