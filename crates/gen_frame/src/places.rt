// Places of allocas: where a fixed one starts and ends, and that there is a varying one.
ghost use Rattle.std.specs.Prelude.{◌≡◌};
ghost use Rattle.std.proofs.Math.Option.{Option};
ghost use Rattle.book.specs.Ast.{TypedVal};
ghost use Rattle.book.specs.Entry.{entries};
ghost use Rattle.layout.specs.Frame.{count_of};
ghost use Rattle.gen_frame.specs.Fixed.{SmallPlace, fixed_by, fixed_words};
ghost use Rattle.gen_frame.specs.Allocas.{CountAt, count_by, AllocaAsk, AllocaDone};
ghost use Rattle.gen_frame.specs.Placed.{PlaceAsk, PlaceDone};

use crate::Frame;
use book::entry;
use book::refusal::Refusal;
use layout_align::align_of;
use layout_memo::skip;
use layout_size::size_of;
use numbers::align::align_up;

// The most bytes of a frame.
const MOST_FRAME: u64 = 2147483648;

// A fixed place: it starts at the next multiple of its type's alignment and ends at most at 2^31.
fn fix_place(
    work: &mut [u64],
    name: u64,
    align: u64,
    size: u64,
    count: u64,
    f: Frame,
) -> Result<Frame, Refusal>
    requires { SmallPlace name align f work.old }
    ensures { (result ≡ fixed_by align size count f) × (work.new ≡ fixed_words align size count f name work.old) }
{
    let start = align_up(f.off, align);
    let end = start.saturating_add(size.saturating_mul(count));
    if MOST_FRAME < end {
        return Err(Refusal::TooLarge);
    }
    work[book::work::WORDS * (name as usize) + book::work::PLACE] = start + 1;
    Ok(Frame {
        slots: f.slots,
        off: end,
        dynamic: f.dynamic,
    })
}

// The same for the type at the front: its alignment is measured, then its size.
fn place(
    kinds: &[u64],
    words: &[u64],
    book_kinds: &[u64],
    book_words: &[u64],
    work: &mut [u64],
    names: u64,
    name: u64,
    count: u64,
    f: Frame,
) -> Result<Frame, Refusal>
    requires { PlaceAsk names name f (entries kinds.now words.now) (entries book_kinds.now book_words.now) work.old }
    ensures { PlaceDone names name count (entries kinds.now words.now) (entries book_kinds.now book_words.now)
        work.old work.new f result }
{
    let align = align_of(kinds, words, book_kinds, book_words, work, names, 64)?;
    let size = size_of(kinds, words, book_kinds, book_words, work, names, 64)?;
    fix_place(work, name, align.bytes, size.bytes, count, f)
}

// The count of an alloca at the front, where it is constant: one where it is absent, a number as it stands.
fn count_of(kinds: &[u64], words: &[u64], names: u64) -> Option<u64>
    requires { (o : Option TypedVal) × CountAt names o (entries kinds.now words.now) }
    ensures { (o : Option TypedVal) → CountAt names o (entries kinds.now words.now) → count_by result ≡ count_of o }
{
    if kinds[0] == entry::ABSENT {
        return Some(1);
    }
    let at = skip(kinds, words, names);
    if kinds[at] == entry::INTEGER {
        return Some(words[at]);
    }
    None
}

// An alloca, its fields at the front and its result word. A varying count measures nothing.
pub fn alloca(
    kinds: &[u64],
    words: &[u64],
    book_kinds: &[u64],
    book_words: &[u64],
    work: &mut [u64],
    names: u64,
    dest: u64,
    f: Frame,
) -> Result<Frame, Refusal>
    requires { AllocaAsk names dest f (entries kinds.now words.now) (entries book_kinds.now book_words.now) work.old }
    ensures { AllocaDone names dest (entries kinds.now words.now) (entries book_kinds.now book_words.now)
        work.old work.new f result }
{
    if dest == 0 {
        return Err(Refusal::NoResultName);
    }
    let at = skip(kinds, words, names);
    let name = dest - 1;
    match count_of(&kinds[at..], &words[at..], names) {
        Some(n) => place(
            kinds, words, book_kinds, book_words, work, names, name, n, f,
        ),
        None => Ok(Frame {
            slots: f.slots,
            off: f.off,
            dynamic: true,
        }),
    }
}
