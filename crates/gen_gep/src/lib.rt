#![tactic(auto)]
// `gen_gep`. A walk over the indices adds up the constant offsets modulo 2^64 and keeps the varying terms, of which there are
// at most 32, in the 64 work words behind the names': for each the place of its index among the book's entries and its stride.
ghost use Rattle.std.specs.Prelude.{◌≡◌, List, ℕ, ◌<◌, ltb, length, drop};
ghost use Rattle.book.specs.Ast.{Value};
ghost use Rattle.book.specs.Entry.{entries};
ghost use Rattle.book.specs.Fields.{Meanings};
ghost use Rattle.book.specs.Result.{Result, bind};
ghost use Rattle.layout.specs.Step.{Step as GepStep, const_int};
ghost use Rattle.layout_memo.specs.Front.{ty_of, ty_len, Starts};
ghost use Rattle.layout_memo.specs.Work.{structs_in, Ready};
ghost use Rattle.layout_step.specs.Steps.{AskAt, StepOutcome, Steps, index_of};
ghost use Rattle.lowering.specs.Gen.{when, each};
ghost use Rattle.lowering.specs.Context.{FnCtx};
ghost use Rattle.lowering.specs.Operand.{emit_sext};
ghost use Rattle.lowering.specs.Gep.{VarTerm, Walk as GepWalk, took as tookOf, walk as walk_of, gen_var_term, gen_gep};
ghost use Rattle.gen_lines.specs.Puts.{Puts};
ghost use Rattle.gen_values.specs.Fields.{Fields, ValueAt};
ghost use Rattle.gen_values.specs.Maps.{Locals, Maps, Did};
ghost use Rattle.gen_gep.specs.Indices.{gep_fields, index_list, index_then, index_in};
ghost use Rattle.gen_gep.specs.Terms.{Terms, TermIs, TermsAsk, TermAsk};
ghost use Rattle.gen_gep.specs.Walks.{step_from, WalkAt, Went, TookAsk, TakeAsk};
ghost use Rattle.gen_gep.specs.Loop.{GepAsk, WalkAsk, Walked};
ghost use Rattle.gen_gep.specs.Lines.{sum_gen};

use assembly::line;
use book::entry;
use book::refusal::Refusal;
use gen_lines::{Reached, put, refuse};
use gen_values::{emit_sext, need_width, push_int, push_value, width_of};
use layout_memo::skip;
use layout_step::{Step, array_step, gep_step};

// The walk so far: whether the next index is the first, the place of the type that it steps into, the sum of the constant
// offsets, the number of varying terms, and what is reached.
#[derive(Clone, Copy)]
pub struct Way {
    pub first: bool,
    pub ty: usize,
    pub sum: u64,
    pub terms: usize,
    pub s: Reached,
}

// The number of entries of the type at a place.
fn skip_at(book_kinds: &[u64], book_words: &[u64], at: usize, names: u64) -> usize
    requires { (at < length book_kinds.now) × (at < length book_words.now) }
    ensures { result ≡ ty_len names (drop at (entries book_kinds.now book_words.now)) }
{
    skip(&book_kinds[at..], &book_words[at..], names)
}

// The index whose value is at a place, where it is constant.
fn index_at(kinds: &[u64], words: &[u64], at: usize) -> Option<u64>
    requires { (at < length kinds.now) × (at < length words.now) }
    ensures { (m : ℕ) (v : Value) → ValueAt m kinds.now words.now at v → index_of result ≡ const_int v }
{
    if kinds[at] == entry::INTEGER {
        return Some(words[at]);
    }
    None
}

// The step of an index from the type at the place: the first strides over it, a later one steps into it.
fn next_step(
    book_kinds: &[u64],
    book_words: &[u64],
    work: &mut [u64],
    names: u64,
    first: bool,
    at: usize,
    index: Option<u64>,
) -> Result<Step, Refusal>
    requires { AskAt names (entries book_kinds.now book_words.now) work.old at }
    ensures { StepOutcome names (entries book_kinds.now book_words.now) work.old work.new
        (step_from (structs_in names (entries book_kinds.now book_words.now)) first
        (ty_of names (drop at (entries book_kinds.now book_words.now))) (index_of index)) result }
{
    if first {
        return array_step(book_kinds, book_words, work, names, at, index);
    }
    gep_step(book_kinds, book_words, work, names, at, index)
}

// A varying term more, of the index at a place; its type must have a width.
fn vary(
    book_kinds: &[u64],
    book_words: &[u64],
    work: &mut [u64],
    names: u64,
    index: usize,
    stride: u64,
    next: usize,
    w: Way,
) -> Way
    requires { TookAsk names book_kinds.now book_words.now work.old index w }
    ensures { (p : Meanings index_then) (k : GepWalk) → Fields names index_then p (drop index (entries book_kinds.now book_words.now))
        → Ready names (entries book_kinds.now book_words.now) work.old
        → Starts names (drop next (entries book_kinds.now book_words.now))
        → WalkAt names book_kinds.now book_words.now work.old k w
        → Went names book_kinds.now book_words.now work.old work.new
        (tookOf (GepStep.var stride (ty_of names (drop next (entries book_kinds.now book_words.now)))) (index_in p) k) w result }
{
    let wide = need_width(&book_kinds[index..], &book_words[index..], w.s);
    let to = book::work::WORDS * (names as usize) + 2 * w.terms;
    work[to] = index as u64;
    work[to + 1] = stride;
    Way {
        first: false,
        ty: next,
        sum: w.sum,
        terms: w.terms + 1,
        s: wide.s,
    }
}

// A step taken, of the index at a place.
fn took(
    book_kinds: &[u64],
    book_words: &[u64],
    work: &mut [u64],
    names: u64,
    index: usize,
    step: Result<Step, Refusal>,
    w: Way,
) -> Way
    requires { TookAsk names book_kinds.now book_words.now work.old index w }
    ensures { (p : Meanings index_then) (k : GepWalk) (answer : Result GepStep)
        → Fields names index_then p (drop index (entries book_kinds.now book_words.now))
        → Ready names (entries book_kinds.now book_words.now) work.old
        → Starts names (drop w.ty (entries book_kinds.now book_words.now))
        → Steps names (entries book_kinds.now book_words.now) answer step
        → WalkAt names book_kinds.now book_words.now work.old k w
        → Went names book_kinds.now book_words.now work.old work.new
        (bind answer (λ (t : GepStep). tookOf t (index_in p) k)) w result }
{
    let s = w.s;
    match step {
        Err(e) => Way {
            first: false,
            ty: w.ty,
            sum: w.sum,
            terms: w.terms,
            s: refuse(s, e),
        },
        Ok(step) => match step {
            Step::Constant(offset, next) => Way {
                first: false,
                ty: next,
                sum: w.sum.wrapping_add(offset),
                terms: w.terms,
                s,
            },
            Step::Varying(stride, next) => vary(
                book_kinds, book_words, work, names, index, stride, next, w,
            ),
        },
    }
}

// The walk past the index at a place, whose value is at another.
fn walk_index(
    book_kinds: &[u64],
    book_words: &[u64],
    work: &mut [u64],
    names: u64,
    index: usize,
    value: usize,
    w: Way,
) -> Way
    requires { TakeAsk names book_kinds.now book_words.now work.old index value w }
    ensures { (p : Meanings index_then) (k : GepWalk) → Fields names index_then p (drop index (entries book_kinds.now book_words.now))
        → WalkAt names book_kinds.now book_words.now work.old k w
        → Went names book_kinds.now book_words.now work.old work.new
        (bind (step_from (structs_in names (entries book_kinds.now book_words.now)) w.first k.cur_ty (const_int (index_in p).val))
        (λ (t : GepStep). tookOf t (index_in p) k)) w result }
{
    let step = next_step(
        book_kinds,
        book_words,
        work,
        names,
        w.first,
        w.ty,
        index_at(book_kinds, book_words, value),
    );
    took(book_kinds, book_words, work, names, index, step, w)
}

// The walk over the indices of a list at a place, from the base type at another. A refusal is noted and goes through: the
// walk goes on from the type that it had, and what it finds then counts for nothing.
fn walk(
    book_kinds: &[u64],
    book_words: &[u64],
    work: &mut [u64],
    names: u64,
    at: usize,
    indices: usize,
    s: Reached,
) -> Way
    requires { WalkAsk names book_kinds.now book_words.now work.old at indices }
    ensures { (p : Meanings gep_fields) → Fields names gep_fields p (drop at (entries book_kinds.now book_words.now))
        → Fields names index_list p.1.1 (drop indices (entries book_kinds.now book_words.now))
        → Walked names book_kinds.now book_words.now work.old work.new
        (walk_of (structs_in names (entries book_kinds.now book_words.now)) p.0 p.1.1.0) s result }
{
    let mut w = Way {
        first: true,
        ty: at,
        sum: 0,
        terms: 0,
        s,
    };
    let mut index = indices;
    while book_kinds[index] != entry::END {
        let value = index + skip_at(book_kinds, book_words, index, names);
        w = walk_index(book_kinds, book_words, work, names, index, value, w);
        index = value + 1;
    }
    w
}

// A varying index is extended to 64 bits.
fn widen(width: u32, lines: &mut [u16], operands: &mut [u64], s: Reached) -> Reached
    ensures { Puts (when (ltb width 64) (emit_sext width 64)) s result lines.old operands.old lines.new operands.new }
{
    if width < 64 {
        return emit_sext(width, 64, lines, operands, s);
    }
    s
}

// A varying term: the index at a place times its stride, added.
fn gen_var_term(
    book_kinds: &[u64],
    book_words: &[u64],
    names: u64,
    index: usize,
    stride: u64,
    work: &[u64],
    lines: &mut [u16],
    operands: &mut [u64],
    s: Reached,
) -> Reached
    requires { TermAsk names book_kinds.now book_words.now work.now index stride }
    ensures { (c : FnCtx) (t : VarTerm) → Locals c names work.now → TermIs names book_kinds.now book_words.now index stride t
        → Puts (gen_var_term c t) s result lines.old operands.old lines.new operands.new }
{
    let width = width_of(&book_kinds[index..], &book_words[index..]).unwrap_or(0);
    let value = index + skip_at(book_kinds, book_words, index, names);
    let pushed = push_value(
        &book_kinds[value..],
        &book_words[value..],
        width,
        work,
        lines,
        operands,
        s,
    );
    let wide = widen(width, lines, operands, pushed);
    let strided = push_int(stride, 64, lines, operands, wide);
    let times = put(lines, operands, strided, line::MUL_U64, 0);
    put(lines, operands, times, line::ADD_U64, 0)
}

// The varying terms, in order.
fn gen_var_terms(
    book_kinds: &[u64],
    book_words: &[u64],
    names: u64,
    terms: usize,
    work: &[u64],
    lines: &mut [u16],
    operands: &mut [u64],
    s: Reached,
) -> Reached
    requires { TermsAsk names book_kinds.now book_words.now work.now terms }
    ensures { (c : FnCtx) (ts : List VarTerm) → Locals c names work.now → Terms names book_kinds.now book_words.now work.now 0 ts
        → length ts ≡ terms
        → Puts (each (gen_var_term c) ts) s result lines.old operands.old lines.new operands.new }
{
    let mut reached = s;
    for i in 0..terms {
        let from = book::work::WORDS * (names as usize) + 2 * i;
        let index = work[from] as usize;
        reached = gen_var_term(
            book_kinds,
            book_words,
            names,
            index,
            work[from + 1],
            work,
            lines,
            operands,
            reached,
        );
    }
    reached
}

// The sum of the constant offsets: one `push`, none if it is 0.
fn add_sum(sum: u64, lines: &mut [u16], operands: &mut [u64], s: Reached) -> Reached
    ensures { Puts (sum_gen sum) s result lines.old operands.old lines.new operands.new }
{
    if sum == 0 {
        return s;
    }
    let pushed = push_int(sum, 64, lines, operands, s);
    put(lines, operands, pushed, line::ADD_U64, 0)
}

// `gen_gep` of the instruction whose fields start at a place of the book's entries.
pub fn gen_gep(
    book_kinds: &[u64],
    book_words: &[u64],
    at: usize,
    names: u64,
    work: &mut [u64],
    lines: &mut [u16],
    operands: &mut [u64],
    s: Reached,
) -> Reached
    requires { GepAsk names book_kinds.now book_words.now work.old at }
    ensures { (c : FnCtx) → Maps names (entries book_kinds.now book_words.now) c work.old
        → (p : Meanings gep_fields) → Fields names gep_fields p (drop at (entries book_kinds.now book_words.now))
        → Did (gen_gep c p.0 p.1.0 p.1.1.0) names (entries book_kinds.now book_words.now) c work.new
        s result lines.old operands.old lines.new operands.new }
{
    let pointer = at + skip_at(book_kinds, book_words, at, names);
    let w = walk(book_kinds, book_words, work, names, at, pointer + 1, s);
    let pushed = push_value(
        &book_kinds[pointer..],
        &book_words[pointer..],
        64,
        work,
        lines,
        operands,
        w.s,
    );
    let varied = gen_var_terms(
        book_kinds, book_words, names, w.terms, work, lines, operands, pushed,
    );
    add_sum(w.sum, lines, operands, varied)
}
