#![tactic(auto)]
// `gen_function` behind the frame pass: the lines around the blocks, and the blocks one after the other.
ghost use Rattle.std.specs.Prelude.{◌≡◌, List, ◌≤◌, ltb};
ghost use Rattle.book.specs.Ast.{BasicBlock, Function};
ghost use Rattle.book.specs.Entry.{entries};
ghost use Rattle.assembly.specs.Line.{Line};
ghost use Rattle.lowering.specs.Gen.{line, when, each};
ghost use Rattle.lowering.specs.Context.{FnCtx};
ghost use Rattle.lowering.specs.Function.{prologue as prologueOf, gen_block, gen_lines};
ghost use Rattle.gen_lines.specs.Puts.{Puts};
ghost use Rattle.gen_values.specs.Maps.{Maps, Did};
ghost use Rattle.gen_function.specs.Blocks.{Listed, BlocksAsk};
ghost use Rattle.gen_function.specs.Function.{FunctionHere, FunctionAsk, Framed, slots_of};

use assembly::line;
use book::refusal::Refusal;
use gen_block::gen_block;
use gen_lines::{Reached, put};
use gen_prepare::Prepared;
use gen_term::Base;
use gen_values::need;
use gen_walk::next_block;

// The blocks of the list at a place, which ends at `last`; none behind a refusal.
fn gen_blocks(
    book_kinds: &[u64],
    book_words: &[u64],
    from: usize,
    last: usize,
    work: &mut [u64],
    names: u64,
    base: Base,
    lines: &mut [u16],
    operands: &mut [u64],
    s: Reached,
) -> Reached
    requires { BlocksAsk names book_kinds.now book_words.now from last base work.old }
    ensures { (c : FnCtx) (blocks : List BasicBlock) → Listed names book_kinds.now book_words.now from last blocks
        → (c.bp_slot ≡ base.slot) × (c.has_frame ≡ base.framed) → Maps names (entries book_kinds.now book_words.now) c work.old
        → Did (each (gen_block c) blocks) names (entries book_kinds.now book_words.now) c work.new
        s result lines.old operands.old lines.new operands.new }
{
    let mut at = next_block(book_kinds, from, last);
    let mut reached = s;
    while at < last {
        if reached.refused != 0 {
            return reached;
        }
        let block = gen_block(
            &book_kinds[at..],
            &book_words[at..],
            book_kinds,
            book_words,
            at,
            work,
            names,
            base,
            lines,
            operands,
            reached,
        );
        reached = block.s;
        let end = at + block.at;
        at = next_block(book_kinds, end + 1, last);
    }
    reached
}

// So many slots of 0, where there are some.
fn push_slots(total: u64, lines: &mut [u16], operands: &mut [u64], s: Reached) -> Reached
    ensures { Puts (when (ltb 0 total) (line (Line.push0n total))) s result
        lines.old operands.old lines.new operands.new }
{
    if 0 < total {
        put(lines, operands, s, line::PUSH_0N, total)
    } else {
        s
    }
}

// The frame is entered: its base is kept in a slot, the stack pointer moved behind it.
fn prologue(slot: u64, size: u64, lines: &mut [u16], operands: &mut [u64], s: Reached) -> Reached
    ensures { (c : FnCtx) → c.bp_slot ≡ slot → c.frame_size ≡ size
        → Puts (prologueOf c) s result lines.old operands.old lines.new operands.new }
{
    let top = put(lines, operands, s, line::THREAD_GET, 0);
    let twice = put(lines, operands, top, line::DUP, 0);
    let kept = put(lines, operands, twice, line::SET_LOCAL, slot);
    let bytes = put(lines, operands, kept, line::PUSH, size);
    let end = put(lines, operands, bytes, line::ADD_U64, 0);
    put(lines, operands, end, line::THREAD_SET, 0)
}

// The same where there is a frame.
fn enter_frame(head: Prepared, lines: &mut [u16], operands: &mut [u64], s: Reached) -> Reached
    ensures { (c : FnCtx) → Framed c head
        → Puts (when c.has_frame (prologueOf c)) s result lines.old operands.old lines.new operands.new }
{
    if head.framed {
        prologue(head.slots, head.size, lines, operands, s)
    } else {
        s
    }
}

// The slots of the function and of its frame's base.
fn total_slots(head: Prepared) -> u64
    requires { head.slots ≤ 2097152 }
    ensures { result ≡ slots_of head }
{
    if head.framed {
        head.slots + 1
    } else {
        head.slots
    }
}

// `gen_function` behind the frame pass.
pub fn gen_function(
    book_kinds: &[u64],
    book_words: &[u64],
    head: Prepared,
    work: &mut [u64],
    names: u64,
    lines: &mut [u16],
    operands: &mut [u64],
    s: Reached,
) -> Reached
    requires { FunctionAsk names book_kinds.now book_words.now head work.old }
    ensures { (c : FnCtx) (f : Function) → FunctionHere names book_kinds.now book_words.now head f
        → Framed c head → Maps names (entries book_kinds.now book_words.now) c work.old
        → Did (gen_lines c f (slots_of head)) names (entries book_kinds.now book_words.now) c work.new
        s result lines.old operands.old lines.new operands.new }
{
    let at = head.at;
    let name = book_words[at];
    let total = total_slots(head);
    let titled = put(lines, operands, s, line::COMMENT, name);
    let labelled = put(lines, operands, titled, line::FN_LABEL, name);
    let few = need(labelled, total <= 65535, Refusal::TooManySlots);
    let slotted = push_slots(total, lines, operands, few);
    let entered = enter_frame(head, lines, operands, slotted);
    let base = Base {
        slot: head.slots,
        framed: head.framed,
    };
    let done = gen_blocks(
        book_kinds,
        book_words,
        head.blocks,
        head.end,
        work,
        names,
        base,
        lines,
        operands,
        entered,
    );
    put(lines, operands, done, line::BLANK, 0)
}
