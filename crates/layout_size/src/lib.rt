#![tactic(auto)]
// Sizes.
ghost use Rattle.std.specs.Prelude.{◌≡◌};
ghost use Rattle.book.specs.Entry.{entries};
ghost use Rattle.book.specs.Ast.{Ty};
ghost use Rattle.layout.specs.Layout.{placed as placed_at};
ghost use Rattle.layout_memo.specs.Front.{ty_of, tys_of};
ghost use Rattle.layout_memo.specs.Arms.{field_sizes};
ghost use Rattle.layout_size.specs.Sums.{added, closed as closedSum, SmallSum, SmallField};
ghost use Rattle.layout_memo.specs.Work.{Ask, AskFields, AskName, Outcome, structs_in, sizes as sizesOf};

use book::refusal::Refusal;
use book_types::types::{TypeGroup, type_group};
use layout_align::align_of;
use layout_memo::ends::type_end;
use layout_memo::memory::{PART, recalled, with_size};
use layout_memo::scalars::{pass_scalars, reach, run_from};
use layout_memo::{MOST_BYTES, Measure, array_bytes, one_level, one_more};
use numbers::align::align_up;

// The size of the type at the front.
#[cycle(named_size_size_of_struct_size)]
pub fn size_of(
    kinds: &[u64],
    words: &[u64],
    book_kinds: &[u64],
    book_words: &[u64],
    work: &mut [u64],
    names: u64,
    level: u32,
) -> Result<Measure, Refusal>
    requires { Ask names (entries kinds.now words.now) (entries book_kinds.now book_words.now) work.old level }
    ensures { Outcome names (entries book_kinds.now book_words.now) work.old work.new
        (sizesOf (structs_in names (entries book_kinds.now book_words.now)) (ty_of names (entries kinds.now words.now))) level result }
{
    if level == 0 {
        return Err(Refusal::TooLarge);
    }
    let word = words[0];
    match type_group(kinds[0]) {
        TypeGroup::Void => Ok(one_level(0)),
        TypeGroup::Int => Ok(one_level((word + 7) / 8)),
        TypeGroup::Ptr => Ok(one_level(8)),
        TypeGroup::Array(_) => one_more(array_bytes(
            word,
            size_of(
                &kinds[1..],
                &words[1..],
                book_kinds,
                book_words,
                work,
                names,
                level - 1,
            ),
        )),
        TypeGroup::Named => named_size(book_kinds, book_words, work, names, word, level),
        TypeGroup::Struct(packed) => one_more(struct_size(
            &kinds[1..],
            &words[1..],
            book_kinds,
            book_words,
            work,
            names,
            level - 1,
            packed,
        )),
        TypeGroup::Sizeless | TypeGroup::Other => Err(Refusal::NoSize),
    }
}

// The size of a named struct. Apart from `named_align`, as one function for both would take the measurement that calls back into it.
#[cycle(named_size_size_of_struct_size)]
fn named_size(
    book_kinds: &[u64],
    book_words: &[u64],
    work: &mut [u64],
    names: u64,
    name: u64,
    level: u32,
) -> Result<Measure, Refusal>
    requires { AskName names name (entries book_kinds.now book_words.now) work.old level }
    ensures { Outcome names (entries book_kinds.now book_words.now) work.old work.new
        (sizesOf (structs_in names (entries book_kinds.now book_words.now)) (Ty.named_struct name)) level result }
{
    let at = book::work::WORDS * (name as usize);
    let part = work[at + book::work::MEASURED] / PART;
    if part != 0 {
        return recalled(part, level);
    }
    let body = work[at + book::work::BODY];
    if body == 0 {
        return Err(Refusal::NoSize);
    }
    let from = (body - 1) as usize;
    let r = one_more(size_of(
        &book_kinds[from..],
        &book_words[from..],
        book_kinds,
        book_words,
        work,
        names,
        level - 1,
    ))?;
    work[at + book::work::MEASURED] = with_size(work[at + book::work::MEASURED], Ok(r));
    Ok(r)
}

// The fields of a struct so far: where they end, their largest alignment, the levels that they take.
#[derive(Drop)]
pub struct Sum {
    pub offset: u64,
    pub align: u64,
    pub levels: u32,
}

// Where a field of this alignment starts, or a struct of this alignment ends.
pub fn placed(packed: bool, offset: u64, align: u64) -> u64
    requires { SmallSum offset align }
    ensures { result ≡ placed_at packed offset align }
{
    if packed {
        offset
    } else {
        align_up(offset, align)
    }
}

// One field more.
fn add_field(sum: Sum, packed: bool, align: Measure, size: Measure) -> Sum
    requires { SmallField sum.offset align.bytes size.bytes }
    ensures { result ≡ added sum packed align.bytes align.levels size.bytes size.levels }
{
    Sum {
        offset: placed(packed, sum.offset, align.bytes) + size.bytes,
        align: sum.align.max(align.bytes),
        levels: sum.levels.max(align.levels).max(size.levels),
    }
}

// The end of a struct: at most 2^24 bytes.
fn closed(sum: Sum, packed: bool) -> Result<Measure, Refusal>
    requires { SmallSum sum.offset sum.align }
    ensures { result ≡ closedSum sum packed }
{
    let bytes = placed(packed, sum.offset, sum.align);
    if bytes <= MOST_BYTES {
        Ok(Measure {
            bytes,
            levels: sum.levels,
        })
    } else {
        Err(Refusal::TooLarge)
    }
}

// The size of a struct: its fields one after the other, each at a multiple of its alignment unless it is packed.
#[cycle(named_size_size_of_struct_size)]
fn struct_size(
    kinds: &[u64],
    words: &[u64],
    book_kinds: &[u64],
    book_words: &[u64],
    work: &mut [u64],
    names: u64,
    level: u32,
    packed: bool,
) -> Result<Measure, Refusal>
    requires { AskFields names (entries kinds.now words.now) (entries book_kinds.now book_words.now) work.old level }
    ensures { Outcome names (entries book_kinds.now book_words.now) work.old work.new
        (field_sizes (structs_in names (entries book_kinds.now book_words.now)) packed (tys_of names (entries kinds.now words.now))) level result }
{
    let stop = reach(kinds.len(), level);
    let first = pass_scalars(kinds, words, names, packed, stop, run_from(0, 0, 1, 0));
    let mut at = first.at;
    let mut sum = Sum {
        offset: first.offset,
        align: first.align,
        levels: first.levels,
    };
    while kinds[at] != book::entry::END {
        let ks = &kinds[at..];
        let ws = &words[at..];
        let a = align_of(ks, ws, book_kinds, book_words, work, names, level)?;
        let s = size_of(ks, ws, book_kinds, book_words, work, names, level)?;
        sum = add_field(sum, packed, a, s);
        let behind = at + type_end(ks, ws, names);
        let next = run_from(behind, sum.offset, sum.align, sum.levels);
        let run = pass_scalars(kinds, words, names, packed, stop, next);
        at = run.at;
        sum = Sum {
            offset: run.offset,
            align: run.align,
            levels: run.levels,
        };
    }
    closed(sum, packed)
}
