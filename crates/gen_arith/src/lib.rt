#![tactic(auto)]
// `gen_bin`, `gen_icmp` and `gen_conv`. Each is lent the rest of the entries from the first field of its instruction.
ghost use Rattle.std.specs.Prelude.{◌≡◌, ltb};
ghost use Rattle.book.specs.Entry.{entries};
ghost use Rattle.book.specs.Fields.{Meanings};
ghost use Rattle.book.specs.Ops.{bin_of, conv_of, icmp_of};
ghost use Rattle.lowering.specs.Gen.{when};
ghost use Rattle.lowering.specs.Context.{FnCtx};
ghost use Rattle.lowering.specs.Operand.{emit_trunc_to};
ghost use Rattle.lowering.specs.Arith.{signed_left, signed_right, signed_pred, gen_bin, gen_icmp, gen_conv, emit_conv_op};
ghost use Rattle.gen_lines.specs.Puts.{Puts};
ghost use Rattle.gen_values.specs.Maps.{Locals};
ghost use Rattle.gen_values.specs.Fields.{Fields};
ghost use Rattle.gen_arith.specs.Arith.{two_values, converted, There, sides};

use book::ops::{BinOp, ConvOp, ICmpPred};
use gen_lines::{Reached, put};
use gen_values::{bin_line, emit_sext, emit_trunc_to, extend, icmp_line, need_width, push_value};
use layout_memo::skip;

// Whether an operation extends its left side.
fn signed_left(op: BinOp) -> bool
    ensures { result ≡ signed_left (bin_of op) }
{
    matches!(op, BinOp::SDiv | BinOp::SRem | BinOp::AShr)
}

// Whether an operation extends its right side.
fn signed_right(op: BinOp) -> bool
    ensures { result ≡ signed_right (bin_of op) }
{
    matches!(op, BinOp::SDiv | BinOp::SRem)
}

// Whether a predicate extends both sides.
fn signed_pred(pred: ICmpPred) -> bool
    ensures { result ≡ signed_pred (icmp_of pred) }
{
    matches!(
        pred,
        ICmpPred::Sgt | ICmpPred::Sge | ICmpPred::Slt | ICmpPred::Sle
    )
}

// Truncated where the width is below this one.
fn cut(width: u32, below: u32, lines: &mut [u16], operands: &mut [u64], s: Reached) -> Reached
    ensures { Puts (when (ltb width below) (emit_trunc_to width)) s result lines.old operands.old lines.new operands.new }
{
    if width < below {
        return emit_trunc_to(width, lines, operands, s);
    }
    s
}

// Both values behind the type at the front, at this width, each extended where its side is signed. Compiled into its two callers: as a
// call of its own it costs the translation of a block of one instruction 6 % more instructions.
#[inline(always)]
fn push_sides(
    kinds: &[u64],
    words: &[u64],
    names: u64,
    width: u32,
    left_signed: bool,
    right_signed: bool,
    work: &[u64],
    lines: &mut [u16],
    operands: &mut [u64],
    s: Reached,
) -> Reached
    requires { There two_values names (entries kinds.now words.now) work.now }
    ensures { (c : FnCtx) → Locals c names work.now → (p : Meanings two_values)
        → Fields names two_values p (entries kinds.now words.now)
        → Puts (sides c width left_signed right_signed p.1.0 p.1.1.0) s result lines.old operands.old lines.new operands.new }
{
    let lhs = skip(kinds, words, names);
    let rhs = lhs + 1;
    let lhs_kinds = &kinds[lhs..];
    let lhs_words = &words[lhs..];
    let rhs_kinds = &kinds[rhs..];
    let rhs_words = &words[rhs..];
    let left = push_value(lhs_kinds, lhs_words, width, work, lines, operands, s);
    let extended = extend(left_signed, width, lines, operands, left);
    let right = push_value(rhs_kinds, rhs_words, width, work, lines, operands, extended);
    extend(right_signed, width, lines, operands, right)
}

// `gen_bin`: results under 32 bits are truncated.
pub fn gen_bin(
    op: BinOp,
    kinds: &[u64],
    words: &[u64],
    names: u64,
    work: &[u64],
    lines: &mut [u16],
    operands: &mut [u64],
    s: Reached,
) -> Reached
    requires { There two_values names (entries kinds.now words.now) work.now }
    ensures { (c : FnCtx) → Locals c names work.now → (p : Meanings two_values)
        → Fields names two_values p (entries kinds.now words.now)
        → Puts (gen_bin c (bin_of op) p.0 p.1.0 p.1.1.0) s result lines.old operands.old lines.new operands.new }
{
    let wide = need_width(kinds, words, s);
    let width = wide.width;
    let (left, right) = (signed_left(op), signed_right(op));
    let both = push_sides(
        kinds, words, names, width, left, right, work, lines, operands, wide.s,
    );
    let done = put(lines, operands, both, bin_line(op, width), 0);
    cut(width, 32, lines, operands, done)
}

// `gen_icmp`
pub fn gen_icmp(
    pred: ICmpPred,
    kinds: &[u64],
    words: &[u64],
    names: u64,
    work: &[u64],
    lines: &mut [u16],
    operands: &mut [u64],
    s: Reached,
) -> Reached
    requires { There two_values names (entries kinds.now words.now) work.now }
    ensures { (c : FnCtx) → Locals c names work.now → (p : Meanings two_values)
        → Fields names two_values p (entries kinds.now words.now)
        → Puts (gen_icmp c (icmp_of pred) p.0 p.1.0 p.1.1.0) s result lines.old operands.old lines.new operands.new }
{
    let wide = need_width(kinds, words, s);
    let width = wide.width;
    let signed = signed_pred(pred);
    let both = push_sides(
        kinds, words, names, width, signed, signed, work, lines, operands, wide.s,
    );
    put(lines, operands, both, icmp_line(pred, width), 0)
}

// `emit_conv_op`
fn emit_conv_op(
    op: ConvOp,
    from: u32,
    to: u32,
    lines: &mut [u16],
    operands: &mut [u64],
    s: Reached,
) -> Reached
    ensures { Puts (emit_conv_op (conv_of op) from to) s result lines.old operands.old lines.new operands.new }
{
    match op {
        ConvOp::Trunc => emit_trunc_to(to, lines, operands, s),
        ConvOp::SExt => emit_sext(from, to, lines, operands, s),
        ConvOp::PtrToInt => cut(to, 64, lines, operands, s),
        ConvOp::ZExt | ConvOp::IntToPtr | ConvOp::BitCast => s,
    }
}

// `gen_conv`: a bitcast asks for no target width.
pub fn gen_conv(
    op: ConvOp,
    kinds: &[u64],
    words: &[u64],
    names: u64,
    work: &[u64],
    lines: &mut [u16],
    operands: &mut [u64],
    s: Reached,
) -> Reached
    requires { There converted names (entries kinds.now words.now) work.now }
    ensures { (c : FnCtx) → Locals c names work.now → (p : Meanings converted)
        → Fields names converted p (entries kinds.now words.now)
        → Puts (gen_conv c (conv_of op) p.0 p.1.0 p.1.1.0) s result lines.old operands.old lines.new operands.new }
{
    let from = need_width(kinds, words, s);
    let width = from.width;
    let val = skip(kinds, words, names);
    let ty = val + 1;
    let val_kinds = &kinds[val..];
    let val_words = &words[val..];
    let to_kinds = &kinds[ty..];
    let to_words = &words[ty..];
    if let ConvOp::BitCast = op {
        return push_value(val_kinds, val_words, width, work, lines, operands, from.s);
    }
    let to = need_width(to_kinds, to_words, from.s);
    let value = push_value(val_kinds, val_words, width, work, lines, operands, to.s);
    emit_conv_op(op, width, to.width, lines, operands, value)
}
