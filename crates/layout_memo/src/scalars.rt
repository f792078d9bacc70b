// Fields that are integers or pointers, which are passed without a call for each.
ghost use Rattle.std.specs.Prelude.{◌≡◌, true, ◌+◌, ◌<◌, ◌≤◌, ◌^◌, IfSome};
ghost use Rattle.numbers.specs.Align.{is_align};
ghost use Rattle.layout.specs.Layout.{placed};
ghost use Rattle.layout_memo.specs.Scalars.{Scalar, RunFrom, Passes, all_from, reach_of};

use crate::MOST_ENTRIES;
use book::entry;

// The fields of a struct so far: the place behind them, how many more are to be passed, where they end, their largest
// alignment, the levels that they take.
#[derive(Drop)]
pub struct Run {
    pub at: usize,
    pub left: u64,
    pub offset: u64,
    pub align: u64,
    pub levels: u32,
}

// All fields from the place on are to be passed.
pub fn run_from(at: usize, offset: u64, align: u64, levels: u32) -> Run
    ensures { result ≡ all_from at offset align levels }
{
    Run {
        at,
        left: MOST_ENTRIES,
        offset,
        align,
        levels,
    }
}

// The bytes of an integer or a pointer, by its entry.
fn scalar_bytes(kind: u64, word: u64) -> Option<u64>
    requires { kind ≡ 11 → word ≤ 64 }
    ensures { IfSome result (λ bytes. Scalar kind word bytes) }
{
    match kind {
        entry::INT => Some((word + 7) / 8),
        entry::PTR => Some(8),
        _ => None,
    }
}

// Where a field starts that is aligned to its bytes.
fn scalar_start(packed: bool, offset: u64, bytes: u64) -> u64
    requires { (is_align bytes ≡ true) × (offset + bytes < 2 ^ 64) }
    ensures { result ≡ placed packed offset bytes }
{
    if packed {
        return offset;
    }
    let e = bytes.trailing_zeros();
    ((offset + (bytes - 1)) >> e) << e
}

// Passes integers and pointers that stand before `stop`, as long as a field is to be passed.
pub fn pass_scalars(
    kinds: &[u64],
    words: &[u64],
    names: u64,
    packed: bool,
    stop: usize,
    from: Run,
) -> Run
    requires { RunFrom names kinds.now words.now from }
    ensures { Passes kinds.now words.now packed stop from result }
{
    let mut run = from;
    while run.at < stop {
        let at = run.at;
        let Some(bytes) = scalar_bytes(kinds[at], words[at]) else {
            return run;
        };
        if run.left == 0 {
            return run;
        }
        run = Run {
            at: at + 1,
            left: run.left - 1,
            offset: scalar_start(packed, run.offset, bytes) + bytes,
            align: run.align.max(bytes),
            levels: run.levels.max(1),
        };
    }
    run
}

// How far a measurement passes scalars: nowhere without a level.
pub fn reach(length: usize, level: u32) -> usize
    ensures { result ≡ reach_of length level }
{
    if level == 0 { 0 } else { length }
}
