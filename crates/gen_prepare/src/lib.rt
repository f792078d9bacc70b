#![tactic(auto)]
// All passes before any line is generated. Those of the book fill the work words, 0 at first but for the starts of names, with what
// its functions share; those of a function fill words 0 to 3 of names, which are 0, for its context.
ghost use Rattle.std.specs.Prelude.{◌≡◌, ◌≤◌};
ghost use Rattle.book.specs.Entry.{entries};
ghost use Rattle.gen_prepare.specs.Prepare.{prepared_of, BookAsk, BookDone, PrepareAsk, PrepareDone};

use book::refusal::Refusal;
use gen_blocks::{Placed, find_function, place_function};
use gen_frame::{Frame, frame_pass};
use gen_marks::place_marks;
use layout_memo::structs::place_structs;
use numbers::align::align_up;

// Where a function stands, its list of blocks and its end; the number of its slots, which is the slot of the frame's base; the bytes
// of its frame, and whether it has one. No Option: without one the context's frame size is 0.
#[derive(Clone, Copy, Debug, PartialEq, Eq)]
pub struct Prepared {
    pub at: usize,
    pub blocks: usize,
    pub end: usize,
    pub slots: u64,
    pub size: u64,
    pub framed: bool,
}

// A function one of whose places is refused: where it stands, its list of blocks and its end, and why.
#[derive(Clone, Copy, Debug, PartialEq, Eq)]
pub struct RefusedFunction {
    pub at: usize,
    pub blocks: usize,
    pub end: usize,
    pub refusal: Refusal,
}

// The answer, from that of the frame pass.
fn framed(at: usize, placed: Placed, f: Frame) -> Prepared
    requires { f.off ≤ 2147483648 }
    ensures { result ≡ prepared_of at placed f }
{
    let size = align_up(f.off, 8);
    Prepared {
        at,
        blocks: placed.blocks,
        end: placed.end,
        slots: f.slots,
        size,
        framed: (0 < size) | f.dynamic,
    }
}

// What the functions share: the structs, and how names are called. Answers the place of the first function. The names are `count`,
// the entries the whole book's.
pub fn prepare_book(
    kinds: &[u64],
    words: &[u64],
    names: &[u8],
    work: &mut [u64],
    count: u64,
) -> usize
    requires { BookAsk names.now count (entries kinds.now words.now) work.old }
    ensures { BookDone names.now count (entries kinds.now words.now) work.new result }
{
    place_structs(kinds, words, work, count);
    place_marks(kinds, words, names, work, count);
    find_function(kinds, words, count)
}

// The context of the function at the place, or the refusal of one of its places; where it stands either way. The functions end at
// `last`.
pub fn prepare(
    kinds: &[u64],
    words: &[u64],
    work: &mut [u64],
    count: u64,
    at: usize,
    last: usize,
) -> Result<Prepared, RefusedFunction>
    requires { PrepareAsk count (entries kinds.now words.now) last at work.old }
    ensures { PrepareDone count (entries kinds.now words.now) at work.old work.new result }
{
    let placed = place_function(&kinds[at..last], &words[at..last], work, count, at);
    let from = placed.blocks;
    let end = placed.end;
    match frame_pass(
        &kinds[from..end],
        &words[from..end],
        kinds,
        words,
        work,
        count,
    ) {
        Ok(f) => Ok(framed(at, placed, f)),
        Err(refusal) => Err(RefusedFunction {
            at,
            blocks: from,
            end,
            refusal,
        }),
    }
}
