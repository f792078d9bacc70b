#![tactic(auto)]
// The step that an index of a getelementptr takes into an array or a struct. A type is named by its place among the book's
// entries, so that the type stepped into can be handed on. A constant index is its two's complement word; one that varies is none.
ghost use Rattle.book.specs.Entry.{entries};
ghost use Rattle.book.specs.Ast.{Ty};
ghost use Rattle.std.specs.Prelude.{drop};
ghost use Rattle.layout_memo.specs.Front.{ty_of, tys_of};
ghost use Rattle.layout_memo.specs.Work.{structs_in};
ghost use Rattle.layout_table.specs.Table.{AskFieldsAt};
ghost use Rattle.layout_step.specs.Steps.{AskAt, AskNameAt, AskBehind, StepOutcome, index_of, step_by, struct_by, field_by, array_by};

use book::refusal::Refusal;
use book_types::types::{TypeGroup, type_group};
use layout_field::{field_at, field_offset};
use layout_size::size_of;
use layout_table::known_before;
use layout_table::starts::start_at;

// A constant offset modulo 2^64, or a stride for an index that varies, and the place of the type stepped into.
#[derive(Clone, Copy, Debug, PartialEq, Eq)]
pub enum Step {
    Constant(u64, usize),
    Varying(u64, usize),
}

// The step to the field at the place, behind so many bytes.
fn field_step(
    book_kinds: &[u64],
    book_words: &[u64],
    work: &mut [u64],
    names: u64,
    at: usize,
    packed: bool,
    offset: u64,
) -> Result<Step, Refusal>
    requires { AskBehind names (entries book_kinds.now book_words.now) work.old at offset }
    ensures { StepOutcome names (entries book_kinds.now book_words.now) work.old work.new
        (field_by (structs_in names (entries book_kinds.now book_words.now)) packed
        (tys_of names (drop at (entries book_kinds.now book_words.now))) 0 offset) result }
{
    if book_kinds[at] == book::entry::END {
        return Err(Refusal::GepStep);
    }
    let start = start_at(book_kinds, book_words, work, names, at, packed, offset)?;
    Ok(Step::Constant(start, at))
}

// The step to the field with this index among those from the place on, behind so many bytes.
fn later_step(
    book_kinds: &[u64],
    book_words: &[u64],
    work: &mut [u64],
    names: u64,
    at: usize,
    packed: bool,
    index: u64,
    offset: u64,
) -> Result<Step, Refusal>
    requires { AskBehind names (entries book_kinds.now book_words.now) work.old at offset }
    ensures { StepOutcome names (entries book_kinds.now book_words.now) work.old work.new
        (field_by (structs_in names (entries book_kinds.now book_words.now)) packed
        (tys_of names (drop at (entries book_kinds.now book_words.now))) index offset) result }
{
    let ks = &book_kinds[at..];
    let ws = &book_words[at..];
    let Some(n) = field_at(ks, ws, names, index) else {
        return Err(Refusal::GepStep);
    };
    let start = field_offset(
        ks, ws, book_kinds, book_words, work, names, packed, index, offset,
    )?;
    Ok(Step::Constant(start, at + n))
}

// The step into a struct whose fields start at the place.
fn struct_step(
    book_kinds: &[u64],
    book_words: &[u64],
    work: &mut [u64],
    names: u64,
    at: usize,
    packed: bool,
    index: Option<u64>,
) -> Result<Step, Refusal>
    requires { AskFieldsAt names (entries book_kinds.now book_words.now) work.old at }
    ensures { StepOutcome names (entries book_kinds.now book_words.now) work.old work.new
        (struct_by (structs_in names (entries book_kinds.now book_words.now)) packed (tys_of names (drop at (entries book_kinds.now book_words.now))) (index_of index)) result }
{
    let Some(field) = index else {
        return Err(Refusal::GepStep);
    };
    let known = known_before(book_kinds, book_words, work, names, at, packed, field);
    let from = known.at;
    let left = field - known.index;
    let offset = known.offset;
    if left == 0 {
        return field_step(book_kinds, book_words, work, names, from, packed, offset);
    }
    later_step(
        book_kinds, book_words, work, names, from, packed, left, offset,
    )
}

// The step over the type at the place: into an array of such elements, or by the first index.
pub fn array_step(
    book_kinds: &[u64],
    book_words: &[u64],
    work: &mut [u64],
    names: u64,
    at: usize,
    index: Option<u64>,
) -> Result<Step, Refusal>
    requires { AskAt names (entries book_kinds.now book_words.now) work.old at }
    ensures { StepOutcome names (entries book_kinds.now book_words.now) work.old work.new
        (array_by (structs_in names (entries book_kinds.now book_words.now)) (ty_of names (drop at (entries book_kinds.now book_words.now))) (index_of index)) result }
{
    let ks = &book_kinds[at..];
    let ws = &book_words[at..];
    let size = size_of(ks, ws, book_kinds, book_words, work, names, 64)?.bytes;
    match index {
        Some(c) => Ok(Step::Constant(c.wrapping_mul(size), at)),
        None => Ok(Step::Varying(size, at)),
    }
}

// The step into a named struct.
fn named_step(
    book_kinds: &[u64],
    book_words: &[u64],
    work: &mut [u64],
    names: u64,
    name: u64,
    index: Option<u64>,
) -> Result<Step, Refusal>
    requires { AskNameAt names (entries book_kinds.now book_words.now) work.old name }
    ensures { StepOutcome names (entries book_kinds.now book_words.now) work.old work.new
        (step_by (structs_in names (entries book_kinds.now book_words.now)) (Ty.named_struct name) (index_of index)) result }
{
    let body = work[book::work::WORDS * (name as usize) + book::work::BODY];
    if body == 0 {
        return Err(Refusal::NoSize);
    }
    let at = (body - 1) as usize;
    match type_group(book_kinds[at]) {
        TypeGroup::Struct(packed) => struct_step(
            book_kinds,
            book_words,
            work,
            names,
            at + 1,
            packed,
            index,
        ),
        _ => Err(Refusal::GepStep),
    }
}

// The step into the type at the place.
pub fn gep_step(
    book_kinds: &[u64],
    book_words: &[u64],
    work: &mut [u64],
    names: u64,
    at: usize,
    index: Option<u64>,
) -> Result<Step, Refusal>
    requires { AskAt names (entries book_kinds.now book_words.now) work.old at }
    ensures { StepOutcome names (entries book_kinds.now book_words.now) work.old work.new
        (step_by (structs_in names (entries book_kinds.now book_words.now)) (ty_of names (drop at (entries book_kinds.now book_words.now))) (index_of index)) result }
{
    let word = book_words[at];
    match type_group(book_kinds[at]) {
        TypeGroup::Array(_) => array_step(book_kinds, book_words, work, names, at + 1, index),
        TypeGroup::Named => named_step(book_kinds, book_words, work, names, word, index),
        TypeGroup::Struct(packed) => struct_step(
            book_kinds,
            book_words,
            work,
            names,
            at + 1,
            packed,
            index,
        ),
        _ => Err(Refusal::GepStep),
    }
}
