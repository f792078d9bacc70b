#![tactic(auto)]
// Slices as a whole: cleared, copied over another, and whether lines fit them.
ghost use Rattle.std.specs.Prelude.{◌≡◌, ◌≤◌, ◌++◌, length, take, drop, replicate};
ghost use Rattle.gen_slices.specs.Fits.{FitOf};

use book::refusal::Refusal;
use gen_lines::Reached;

// All words 0.
pub fn clear(work: &mut [u64])
    ensures { work.new ≡ replicate (length work.old) 0 }
{
    work.fill(0);
}

// The first `many` elements of one slice over those of another.
pub fn copy<T: Copy>(from: &[T], to: &mut [T], many: usize)
    requires from_reaches { many ≤ length from.now }
    requires to_reaches { many ≤ length to.old }
    ensures { to.new ≡ take many from.now ++ drop many to.old }
{
    for i in 0..many {
        to[i] = from[i];
    }
}

// Whether the lines that a pass has counted fit slices of these lengths: how many they are, or the number of the pass's own refusal, then
// that of `NoRoom`.
pub fn lines_fit(counted: Reached, lines: usize, operands: usize) -> Result<usize, u64>
    ensures { FitOf counted lines operands result }
{
    if counted.refused != 0 {
        return Err(counted.refused);
    }
    if lines.min(operands) < counted.at {
        return Err(Refusal::NoRoom.number());
    }
    Ok(counted.at)
}
