// Slots of results.
ghost use Rattle.book.specs.Entry.{entries};
ghost use Rattle.gen_frame.specs.Taken.{CallAsk, CallSlots, SlotsAsk, SlotsFor, TakeAsk, Taken};

use crate::Frame;
use book::entry;
use layout_memo::skip;

// The slots of a call's result, its fields at the front: two where it calls a global containing `.with.overflow.`
fn call_slots(kinds: &[u64], words: &[u64], work: &[u64], names: u64) -> u64
    requires { CallAsk names (entries kinds.now words.now) work.now }
    ensures { CallSlots names (entries kinds.now words.now) work.now result }
{
    let at = skip(kinds, words, names);
    if kinds[at] != entry::GLOBAL {
        return 1;
    }
    if work[book::work::WORDS * (words[at] as usize) + book::work::MARK] < 4 {
        return 1;
    }
    2
}

// The slots of the result of the instruction at the front: two of a cmpxchg too.
fn slots_for(kinds: &[u64], words: &[u64], work: &[u64], names: u64) -> u64
    requires { SlotsAsk names (entries kinds.now words.now) work.now }
    ensures { SlotsFor names (entries kinds.now words.now) work.now result }
{
    match kinds[0] {
        entry::CMPXCHG => 2,
        entry::CALL => call_slots(&kinds[1..], &words[1..], work, names),
        _ => 1,
    }
}

// The slots of the instruction at the front, where its result has a name.
pub fn take_slots(kinds: &[u64], words: &[u64], work: &mut [u64], names: u64, f: Frame) -> Frame
    requires { TakeAsk names f (entries kinds.now words.now) work.old }
    ensures { Taken names (entries kinds.now words.now) work.old work.new f result }
{
    let dest = words[0];
    if dest == 0 {
        return f;
    }
    let n = slots_for(kinds, words, work, names);
    work[book::work::WORDS * ((dest - 1) as usize) + book::work::SLOT] = f.slots + 1;
    Frame {
        slots: f.slots + n,
        off: f.off,
        dynamic: f.dynamic,
    }
}
