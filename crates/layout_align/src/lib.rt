#![tactic(auto)]
// Alignments.
ghost use Rattle.book.specs.Entry.{entries};
ghost use Rattle.book.specs.Ast.{Ty};
ghost use Rattle.layout_memo.specs.Front.{ty_of, tys_of};
ghost use Rattle.layout_memo.specs.Arms.{field_aligns};
ghost use Rattle.layout_memo.specs.Work.{Ask, AskFields, AskName, Outcome, structs_in, aligns as aligns_of};

use book::refusal::Refusal;
use book_types::types::{TypeGroup, type_group};
use layout_memo::ends::type_end;
use layout_memo::memory::{PART, recalled, with_align};
use layout_memo::scalars::{pass_scalars, reach, run_from};
use layout_memo::{Measure, one_level, one_more};

// The alignment of the type at the front.
#[cycle(align_of_named_align_struct_align)]
pub fn align_of(
    kinds: &[u64],
    words: &[u64],
    book_kinds: &[u64],
    book_words: &[u64],
    work: &mut [u64],
    names: u64,
    level: u32,
) -> Result<Measure, Refusal>
    requires { Ask names (entries kinds.now words.now) (entries book_kinds.now book_words.now) work.old level }
    ensures { Outcome names (entries book_kinds.now book_words.now) work.old work.new
        (aligns_of (structs_in names (entries book_kinds.now book_words.now)) (ty_of names (entries kinds.now words.now))) level result }
{
    if level == 0 {
        return Err(Refusal::TooLarge);
    }
    let word = words[0];
    match type_group(kinds[0]) {
        TypeGroup::Void => Ok(one_level(1)),
        TypeGroup::Int => Ok(one_level((word + 7) / 8)),
        TypeGroup::Ptr => Ok(one_level(8)),
        TypeGroup::Array(_) => one_more(align_of(
            &kinds[1..],
            &words[1..],
            book_kinds,
            book_words,
            work,
            names,
            level - 1,
        )),
        TypeGroup::Named => named_align(book_kinds, book_words, work, names, word, level),
        TypeGroup::Struct(packed) => one_more(struct_align(
            &kinds[1..],
            &words[1..],
            book_kinds,
            book_words,
            work,
            names,
            level - 1,
            packed,
        )),
        TypeGroup::Sizeless | TypeGroup::Other => Err(Refusal::NoSize),
    }
}

// The alignment of a named struct.
#[cycle(align_of_named_align_struct_align)]
fn named_align(
    book_kinds: &[u64],
    book_words: &[u64],
    work: &mut [u64],
    names: u64,
    name: u64,
    level: u32,
) -> Result<Measure, Refusal>
    requires { AskName names name (entries book_kinds.now book_words.now) work.old level }
    ensures { Outcome names (entries book_kinds.now book_words.now) work.old work.new
        (aligns_of (structs_in names (entries book_kinds.now book_words.now)) (Ty.named_struct name)) level result }
{
    let at = book::work::WORDS * (name as usize);
    let part = work[at + book::work::MEASURED] % PART;
    if part != 0 {
        return recalled(part, level);
    }
    let body = work[at + book::work::BODY];
    if body == 0 {
        return Err(Refusal::NoSize);
    }
    let from = (body - 1) as usize;
    let r = one_more(align_of(
        &book_kinds[from..],
        &book_words[from..],
        book_kinds,
        book_words,
        work,
        names,
        level - 1,
    ))?;
    work[at + book::work::MEASURED] = with_align(work[at + book::work::MEASURED], Ok(r));
    Ok(r)
}

// The alignment of a struct: the largest of its fields', 1 where it is packed.
#[cycle(align_of_named_align_struct_align)]
fn struct_align(
    kinds: &[u64],
    words: &[u64],
    book_kinds: &[u64],
    book_words: &[u64],
    work: &mut [u64],
    names: u64,
    level: u32,
    packed: bool,
) -> Result<Measure, Refusal>
    requires { AskFields names (entries kinds.now words.now) (entries book_kinds.now book_words.now) work.old level }
    ensures { Outcome names (entries book_kinds.now book_words.now) work.old work.new
        (field_aligns (structs_in names (entries book_kinds.now book_words.now)) packed (tys_of names (entries kinds.now words.now))) level result }
{
    if packed {
        return Ok(Measure {
            bytes: 1,
            levels: 0,
        });
    }
    let stop = reach(kinds.len(), level);
    let first = pass_scalars(kinds, words, names, true, stop, run_from(0, 0, 1, 0));
    let mut at = first.at;
    let mut align = first.align;
    let mut levels = first.levels;
    while kinds[at] != book::entry::END {
        let ks = &kinds[at..];
        let ws = &words[at..];
        let field = align_of(ks, ws, book_kinds, book_words, work, names, level)?;
        let behind = at + type_end(ks, ws, names);
        let most = align.max(field.bytes);
        let next = run_from(behind, 0, most, levels.max(field.levels));
        let run = pass_scalars(kinds, words, names, true, stop, next);
        at = run.at;
        align = run.align;
        levels = run.levels;
    }
    Ok(Measure {
        bytes: align,
        levels,
    })
}
