#![tactic(auto)]
// `gen_term`: a block's terminator. Its fields stand behind its entry, from which on the entries are handed in.
mod switch;

ghost use Rattle.std.specs.Prelude.{◌≡◌, ℕ, drop};
ghost use Rattle.std.proofs.Math.Option.{Option, some};
ghost use Rattle.book.specs.Ast.{TypedVal, Value, Terminator};
ghost use Rattle.book.specs.Entry.{entries};
ghost use Rattle.book.specs.Kinds.{TermTag};
ghost use Rattle.book.specs.Fields.{term_fields};
ghost use Rattle.lowering.specs.Context.{FnCtx};
ghost use Rattle.lowering.specs.Term.{emit_frame_leave, ret_value, gen_ret, gen_br, gen_cond_br, gen_term};
ghost use Rattle.gen_lines.specs.Puts.{Puts};
ghost use Rattle.gen_values.specs.Fields.{Fields};
ghost use Rattle.gen_values.specs.Maps.{Locals, Maps};
ghost use Rattle.gen_term.specs.Terms.{TermAt};
ghost use Rattle.gen_term.specs.Returns.{RetAsk};
ghost use Rattle.gen_term.specs.Branches.{BrAsk, CondAsk};
ghost use Rattle.gen_term.specs.Whole.{TermAsk};

use crate::switch::gen_switch;
use assembly::line;
use book::entry;
use book::refusal::Refusal;
use gen_edge::edge;
use gen_fields::push_typed;
use gen_lines::{Reached, fresh, put, refuse};
use gen_values::push_value;
use layout_memo::skip;

// The function's frame: the slot of its base, and whether there is one. No Option: `gen_inst` takes the slot in either case.
#[derive(Clone, Copy)]
pub struct Base {
    pub slot: u64,
    pub framed: bool,
}

// `emit_frame_leave`
fn emit_frame_leave(base: Base, lines: &mut [u16], operands: &mut [u64], s: Reached) -> Reached
    ensures { (c : FnCtx) → (c.bp_slot ≡ base.slot) × (c.has_frame ≡ base.framed)
        → Puts (emit_frame_leave c) s result lines.old operands.old lines.new operands.new }
{
    if base.framed {
        let got = put(lines, operands, s, line::GET_LOCAL, base.slot);
        return put(lines, operands, got, line::THREAD_SET, 0);
    }
    s
}

// The value that `ret` gives, 0 for void.
fn ret_value(
    kinds: &[u64],
    words: &[u64],
    names: u64,
    work: &[u64],
    lines: &mut [u16],
    operands: &mut [u64],
    s: Reached,
) -> Reached
    requires { RetAsk names kinds.now words.now work.now }
    ensures { (c : FnCtx) (val : Option TypedVal) → Fields names (term_fields TermTag.ret) (val, tt) (drop 1 (entries kinds.now words.now))
        → Locals c names work.now
        → Puts (ret_value c val) s result lines.old operands.old lines.new operands.new }
{
    if kinds[1] == entry::ABSENT {
        return put(lines, operands, s, line::PUSH, 0);
    }
    let type_kinds = &kinds[1..];
    let type_words = &words[1..];
    let at = skip(type_kinds, type_words, names);
    push_typed(type_kinds, type_words, at, work, lines, operands, s)
}

// `ret`: the value, the frame left, the line.
fn gen_ret(
    kinds: &[u64],
    words: &[u64],
    names: u64,
    work: &[u64],
    base: Base,
    lines: &mut [u16],
    operands: &mut [u64],
    s: Reached,
) -> Reached
    requires { RetAsk names kinds.now words.now work.now }
    ensures { (c : FnCtx) (val : Option TypedVal) → Fields names (term_fields TermTag.ret) (val, tt) (drop 1 (entries kinds.now words.now))
        → Locals c names work.now → (c.bp_slot ≡ base.slot) × (c.has_frame ≡ base.framed)
        → Puts (gen_ret c val) s result lines.old operands.old lines.new operands.new }
{
    let pushed = ret_value(kinds, words, names, work, lines, operands, s);
    let left = emit_frame_leave(base, lines, operands, pushed);
    put(lines, operands, left, line::RET, 0)
}

// `br` with a condition: a jump to the false edge's label, the true edge, the label, the false edge.
fn gen_cond_br(
    pred: u64,
    kinds: &[u64],
    words: &[u64],
    book_kinds: &[u64],
    book_words: &[u64],
    names: u64,
    work: &[u64],
    lines: &mut [u16],
    operands: &mut [u64],
    s: Reached,
) -> Reached
    requires { CondAsk names kinds.now words.now book_kinds.now book_words.now work.now }
    ensures { (c : FnCtx) (cond : Value) (x : ℕ) (y : Option ℕ)
        → Fields names (term_fields TermTag.br) (some cond, (x, (y, tt))) (drop 1 (entries kinds.now words.now))
        → Maps names (entries book_kinds.now book_words.now) c work.now
        → Puts (gen_cond_br c pred cond x y) s result lines.old operands.old lines.new operands.new }
{
    if kinds[3] == entry::ABSENT {
        return refuse(s, Refusal::NoFalseTarget);
    }
    let pushed = push_value(&kinds[1..], &words[1..], 1, work, lines, operands, s);
    let label = pushed.counter;
    let made = fresh(pushed, 1);
    let jumped = put(lines, operands, made, line::JZ_BR_FALSE, label);
    let gone = edge(
        pred, words[2], book_kinds, book_words, names, work, lines, operands, jumped,
    );
    let labelled = put(lines, operands, gone, line::BR_FALSE, label);
    edge(
        pred, words[3], book_kinds, book_words, names, work, lines, operands, labelled,
    )
}

// `br`: without a condition its false target is ignored.
fn gen_br(
    pred: u64,
    kinds: &[u64],
    words: &[u64],
    book_kinds: &[u64],
    book_words: &[u64],
    names: u64,
    work: &[u64],
    lines: &mut [u16],
    operands: &mut [u64],
    s: Reached,
) -> Reached
    requires { BrAsk names kinds.now words.now book_kinds.now book_words.now work.now }
    ensures { (c : FnCtx) (cond : Option Value) (x : ℕ) (y : Option ℕ)
        → Fields names (term_fields TermTag.br) (cond, (x, (y, tt))) (drop 1 (entries kinds.now words.now))
        → Maps names (entries book_kinds.now book_words.now) c work.now
        → Puts (gen_br c pred cond x y) s result lines.old operands.old lines.new operands.new }
{
    if kinds[1] == entry::ABSENT {
        return edge(
            pred, words[2], book_kinds, book_words, names, work, lines, operands, s,
        );
    }
    gen_cond_br(
        pred, kinds, words, book_kinds, book_words, names, work, lines, operands, s,
    )
}

// `gen_term`: the terminator of the block `pred`, whose entry is the first one lent.
pub fn gen_term(
    pred: u64,
    kinds: &[u64],
    words: &[u64],
    book_kinds: &[u64],
    book_words: &[u64],
    names: u64,
    work: &[u64],
    base: Base,
    lines: &mut [u16],
    operands: &mut [u64],
    s: Reached,
) -> Reached
    requires { TermAsk names kinds.now words.now book_kinds.now book_words.now work.now }
    ensures { (c : FnCtx) (t : Terminator) → TermAt names t (entries kinds.now words.now)
        → Maps names (entries book_kinds.now book_words.now) c work.now
        → (c.bp_slot ≡ base.slot) × (c.has_frame ≡ base.framed)
        → Puts (gen_term c pred t) s result lines.old operands.old lines.new operands.new }
{
    let kind = kinds[0];
    match kind {
        entry::RET => gen_ret(kinds, words, names, work, base, lines, operands, s),
        entry::BR => gen_br(
            pred, kinds, words, book_kinds, book_words, names, work, lines, operands, s,
        ),
        entry::SWITCH => gen_switch(
            pred, kinds, words, book_kinds, book_words, names, work, lines, operands, s,
        ),
        _ => put(lines, operands, s, line::PANIC, 0),
    }
}
