#![tactic(auto)]
// Measurements that a generator asks for: the bytes, or a refusal noted.
ghost use Rattle.std.specs.Prelude.{◌≡◌};
ghost use Rattle.book.specs.Entry.{entries};
ghost use Rattle.gen_size.specs.Sizes.{Measurable, SizeAsked, AlignAsked, noted_of};

use book::refusal::Refusal;
use gen_lines::{Reached, refuse};
use layout_align::align_of;
use layout_memo::Measure;
use layout_size::size_of;

// A number of bytes, 0 where it was refused, and what was reached: a refusal goes through there, as generators hand it on.
#[derive(Clone, Copy)]
pub struct Bytes {
    pub bytes: u64,
    pub s: Reached,
}

// The bytes of a measure, or its refusal noted.
fn noted(m: Result<Measure, Refusal>, s: Reached) -> Bytes
    ensures { result ≡ noted_of m s }
{
    match m {
        Ok(m) => Bytes { bytes: m.bytes, s },
        Err(e) => Bytes {
            bytes: 0,
            s: refuse(s, e),
        },
    }
}

// `size_of` the type at the front.
pub fn measured_size(
    kinds: &[u64],
    words: &[u64],
    book_kinds: &[u64],
    book_words: &[u64],
    work: &mut [u64],
    names: u64,
    s: Reached,
) -> Bytes
    requires { Measurable names (entries kinds.now words.now) (entries book_kinds.now book_words.now) work.old }
    ensures { SizeAsked names (entries kinds.now words.now) (entries book_kinds.now book_words.now)
        work.old work.new s result }
{
    noted(
        size_of(kinds, words, book_kinds, book_words, work, names, 64),
        s,
    )
}

// `align_of` the type at the front.
pub fn measured_align(
    kinds: &[u64],
    words: &[u64],
    book_kinds: &[u64],
    book_words: &[u64],
    work: &mut [u64],
    names: u64,
    s: Reached,
) -> Bytes
    requires { Measurable names (entries kinds.now words.now) (entries book_kinds.now book_words.now) work.old }
    ensures { AlignAsked names (entries kinds.now words.now) (entries book_kinds.now book_words.now)
        work.old work.new s result }
{
    noted(
        align_of(kinds, words, book_kinds, book_words, work, names, 64),
        s,
    )
}
