// Word 7 of a name: what is known of its struct's size and alignment. The size's part stands above the alignment's, and each
// part has the bytes above the levels.
ghost use Rattle.std.specs.Prelude.{◌≡◌, ◌≤◌};
ghost use Rattle.layout_memo.specs.Arms.{SmallBytes};
ghost use Rattle.layout_memo.specs.Measured.{Few};
ghost use Rattle.layout_memo.specs.Work.{recalled as recalledAs, with_size, with_align, part_of as partOf};

use crate::Measure;
use book::refusal::Refusal;

// A part is 32 bits, its levels are 7.
pub const PART: u64 = 4294967296;

const LEVELS: u64 = 128;

// The answer that a part of the word remembers, with so many levels.
pub fn recalled(part: u64, level: u32) -> Result<Measure, Refusal>
    ensures { result ≡ recalledAs part level }
{
    let levels = (part % LEVELS) as u32;
    if levels <= level {
        Ok(Measure {
            bytes: part / LEVELS,
            levels,
        })
    } else {
        Err(Refusal::TooLarge)
    }
}

// The part that remembers a measure.
fn part_of(m: Measure) -> u64
    requires { (m.bytes ≤ 16777216) × (m.levels ≤ 64) }
    ensures { result ≡ partOf m.bytes m.levels }
{
    m.bytes * LEVELS + u64::from(m.levels)
}

// The word with a size that was measured; a refusal leaves it as it is.
pub fn with_size(word: u64, m: Result<Measure, Refusal>) -> u64
    requires { SmallBytes m × Few m }
    ensures { result ≡ with_size word m }
{
    match m {
        Ok(m) => part_of(m) * PART + word % PART,
        Err(_) => word,
    }
}

// The word with an alignment that was measured, in the same way.
pub fn with_align(word: u64, m: Result<Measure, Refusal>) -> u64
    requires { SmallBytes m × Few m }
    ensures { result ≡ with_align word m }
{
    match m {
        Ok(m) => word / PART * PART + part_of(m),
        Err(_) => word,
    }
}
