#![tactic(auto)]
// The frame pass and the slots of `gen_function`, in one pass over the instructions of all blocks. A name's slot goes into
// word 1 of its work words, where its fixed place starts into word 3, each with 1 added.
mod places;
mod slots;

ghost use Rattle.book.specs.Entry.{entries};
ghost use Rattle.gen_frame.specs.Steps.{StepAsk, Stepped};
ghost use Rattle.gen_frame.specs.Scan.{Acts};
ghost use Rattle.gen_frame.specs.Pass.{FrameAsk, FrameDone};

use crate::places::alloca;
use crate::slots::take_slots;
use book::entry;
use book::refusal::Refusal;
use book_types::shorter;

// The slots taken so far, where the fixed places end, and whether a varying one is among the places.
#[derive(Clone, Copy, Debug, PartialEq, Eq)]
pub struct Frame {
    pub slots: u64,
    pub off: u64,
    pub dynamic: bool,
}

// One instruction: its slots, and its place where it is an alloca.
fn frame_inst(
    kinds: &[u64],
    words: &[u64],
    book_kinds: &[u64],
    book_words: &[u64],
    work: &mut [u64],
    names: u64,
    f: Frame,
) -> Result<Frame, Refusal>
    requires { StepAsk names f (entries kinds.now words.now) (entries book_kinds.now book_words.now) work.old }
    ensures { Stepped names (entries kinds.now words.now) (entries book_kinds.now book_words.now)
        work.old work.new f result }
{
    let taken = take_slots(kinds, words, work, names, f);
    if kinds[0] != entry::ALLOCA {
        return Ok(taken);
    }
    alloca(
        &kinds[1..],
        &words[1..],
        book_kinds,
        book_words,
        work,
        names,
        words[0],
        taken,
    )
}

// Whether an entry is that of an instruction that takes slots or a place: one whose result has a name, or an alloca.
fn acts(kind: u64, word: u64) -> bool
    ensures { Acts kind word result }
{
    if kind < entry::ADD {
        return false;
    }
    if entry::RET <= kind {
        return false;
    }
    if kind == entry::ALLOCA {
        return true;
    }
    word != 0
}

// All blocks, the first at the front and nothing behind the entry that closes them: an entry of kind 40 to 89 is an
// instruction, and no other is.
pub fn frame_pass(
    kinds: &[u64],
    words: &[u64],
    book_kinds: &[u64],
    book_words: &[u64],
    work: &mut [u64],
    names: u64,
) -> Result<Frame, Refusal>
    requires { FrameAsk names (entries kinds.now words.now) (entries book_kinds.now book_words.now) work.old }
    ensures { FrameDone names (entries kinds.now words.now) (entries book_kinds.now book_words.now)
        work.old work.new result }
{
    let mut f = Frame {
        slots: 0,
        off: 0,
        dynamic: false,
    };
    let end = shorter(kinds, words);
    for at in 0..end {
        if acts(kinds[at], words[at]) {
            let ks = &kinds[at..];
            let ws = &words[at..];
            f = frame_inst(ks, ws, book_kinds, book_words, work, names, f)?;
        }
    }
    Ok(f)
}
