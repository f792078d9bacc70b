#![tactic(auto)]
// `gen_function`'s blocks: a block's label, its instructions one after the other, its terminator.
ghost use Rattle.std.specs.Prelude.{◌≡◌, List};
ghost use Rattle.book.specs.Ast.{Inst, Terminator, BasicBlock};
ghost use Rattle.book.specs.Entry.{Entry, entries};
ghost use Rattle.lowering.specs.Context.{FnCtx};
ghost use Rattle.lowering.specs.Inst.{gen_inst};
ghost use Rattle.gen_values.specs.Maps.{Maps, Did};
ghost use Rattle.gen_values.specs.Fields.{InstAt};
ghost use Rattle.gen_inst.specs.Whole.{InstThere};
ghost use Rattle.gen_block.specs.Body.{BodyAt, InstsAsk, InstsDone};
ghost use Rattle.gen_block.specs.Block.{BlockAsk, BlockHere, BlockDone};

use assembly::line;
use book::entry;
use gen_inst::gen_inst;
use gen_lines::{Reached, put};
use gen_term::{Base, gen_term};
use gen_walk::next_inst;

// The place of the terminator, counted from the block's entry, and what is reached there.
#[derive(Clone, Copy)]
pub struct Passed {
    pub at: usize,
    pub s: Reached,
}

// `gen_inst` where nothing is refused so far: what follows a refusal counts for nothing, so it is not worked out.
fn gen_unless_refused(
    kinds: &[u64],
    words: &[u64],
    book_kinds: &[u64],
    book_words: &[u64],
    at: usize,
    work: &mut [u64],
    names: u64,
    base: u64,
    lines: &mut [u16],
    operands: &mut [u64],
    s: Reached,
) -> Reached
    requires { InstThere names kinds.now words.now book_kinds.now book_words.now at work.old }
    ensures { (c : FnCtx) (i : Inst) → InstAt names i (entries kinds.now words.now) → c.bp_slot ≡ base
        → Maps names (entries book_kinds.now book_words.now) c work.old
        → Did (gen_inst c i) names (entries book_kinds.now book_words.now) c work.new
        s result lines.old operands.old lines.new operands.new }
{
    if s.refused != 0 {
        return s;
    }
    gen_inst(
        kinds, words, book_kinds, book_words, at, work, names, base, lines, operands, s,
    )
}

// The block's instructions, up to its terminator.
fn gen_insts(
    kinds: &[u64],
    words: &[u64],
    book_kinds: &[u64],
    book_words: &[u64],
    at: usize,
    work: &mut [u64],
    names: u64,
    base: u64,
    lines: &mut [u16],
    operands: &mut [u64],
    s: Reached,
) -> Passed
    requires { InstsAsk names kinds.now words.now book_kinds.now book_words.now at base work.old }
    ensures { (c : FnCtx) (insts : List Inst) (term : Terminator) (rest : List Entry)
        → BodyAt names (entries kinds.now words.now) 1 insts term rest
        → c.bp_slot ≡ base → Maps names (entries book_kinds.now book_words.now) c work.old
        → InstsDone names (entries kinds.now words.now) (entries book_kinds.now book_words.now)
        c insts term rest work.new s result lines.old operands.old lines.new operands.new }
{
    let mut i = 1;
    let mut reached = s;
    while kinds[i] < entry::RET {
        reached = gen_unless_refused(
            &kinds[i..],
            &words[i..],
            book_kinds,
            book_words,
            at + i,
            work,
            names,
            base,
            lines,
            operands,
            reached,
        );
        i = next_inst(kinds, i + 1);
    }
    Passed { at: i, s: reached }
}

// A block of `gen_function`: its label, its instructions, its terminator, whose place is answered too. The part begins at
// the block's entry, which stands at the place `at` of the book. Compiled into the loop over the blocks: as a call of its own a block of
// a terminator alone takes half as long again.
#[inline(always)]
pub fn gen_block(
    kinds: &[u64],
    words: &[u64],
    book_kinds: &[u64],
    book_words: &[u64],
    at: usize,
    work: &mut [u64],
    names: u64,
    base: Base,
    lines: &mut [u16],
    operands: &mut [u64],
    s: Reached,
) -> Passed
    requires { BlockAsk names kinds.now words.now book_kinds.now book_words.now at base.slot work.old }
    ensures { (c : FnCtx) (b : BasicBlock) (rest : List Entry) → BlockHere names b rest (entries kinds.now words.now)
        → (c.bp_slot ≡ base.slot) × (c.has_frame ≡ base.framed) → Maps names (entries book_kinds.now book_words.now) c work.old
        → BlockDone names (entries kinds.now words.now) (entries book_kinds.now book_words.now)
        c b rest work.new s result lines.old operands.old lines.new operands.new }
{
    let name = words[0];
    let labelled = put(lines, operands, s, line::BLOCK_LABEL, name);
    let slot = base.slot;
    let body = gen_insts(
        kinds, words, book_kinds, book_words, at, work, names, slot, lines, operands, labelled,
    );
    let end = body.at;
    let ended = gen_term(
        name,
        &kinds[end..],
        &words[end..],
        book_kinds,
        book_words,
        names,
        work,
        base,
        lines,
        operands,
        body.s,
    );
    Passed { at: end, s: ended }
}
