#![tactic(auto)]
// Operands: `push_value`, `push_int`, `store_dest`, widths, `emit_sext` and `emit_trunc_to`. A value or a type is lent as the part of
// the entries that begins at it. Names are looked up in the work words: a name's parameter, then its slot, each with 1 added, 0 for none.
ghost use Rattle.std.specs.Prelude.{◌≡◌, ℕ, ◌+◌, ◌<◌, ◌≤◌, length, get_or, ◌&&◌, ltb};
ghost use Rattle.book.specs.Ops.{bin_of, icmp_of};
ghost use Rattle.book.specs.Refusal.{number_of};
ghost use Rattle.book.specs.Work.{slot_at};
ghost use Rattle.gen_lines.specs.Follow.{Asked};
ghost use Rattle.gen_values.specs.Fields.{WidthSays, ValueAt, OperandAt};
ghost use Rattle.lowering.specs.Context.{FnCtx};
ghost use Rattle.lowering.specs.Operand.{push_value, push_int, store_dest, store_or_pop, emit_trunc_to, int_width, sext_bit, emit_sext, work_of, work_bits};
ghost use Rattle.lowering.specs.Gen.{when};
ghost use Rattle.assembly.specs.Number.{operation as operationOf, bin_number, icmp_number};
ghost use Rattle.book.specs.Ast.{Ty, Value};
ghost use Rattle.gen_lines.specs.Puts.{Puts, made_refused, or_else};
ghost use Rattle.gen_values.specs.Values.{width_by, dest_of, DestReaches};
ghost use Rattle.gen_values.specs.Maps.{Locals};
ghost use Rattle.gen_values.specs.Present.{Present};
ghost use Rattle.gen_values.specs.Widths.{sx_kind};

use assembly::line;
use book::entry;
use book::ops::{BinOp, ICmpPred};
use book::refusal::Refusal;
use book_values::{ValueGroup, value_group};
use gen_lines::{Reached, put, refuse};

// A refusal where a test fails.
pub fn need(s: Reached, test: bool, why: Refusal) -> Reached
    ensures { result ≡ or_else test s (made_refused s (number_of why)) }
{
    if test { s } else { refuse(s, why) }
}

// `int_width` of the type that this entry begins, where it is an integer or a pointer.
fn int_width(kind: u64, word: u64) -> Option<u32>
    ensures { Present (width_by kind word) result }
{
    match kind {
        entry::PTR => Some(64),
        entry::INT if 0 < word && word <= 64 => Some(word as u32),
        _ => None,
    }
}

// `int_width` of the type at the front.
pub fn width_of(kinds: &[u64], words: &[u64]) -> Option<u32>
    requires { (0 < length kinds.now) × (0 < length words.now) }
    ensures { Present (width_by (get_or kinds.now 0 0) (get_or words.now 0 0)) result }
{
    int_width(kinds[0], words[0])
}

// A width that was asked for, 0 where it was refused, and what is reached behind the question: no answer that is tested, since
// generators follow one another without a test between them.
#[derive(Clone, Copy)]
pub struct Wide {
    pub width: u32,
    pub s: Reached,
}

// `int_width` of the type at the front, or its refusal.
pub fn need_width(kinds: &[u64], words: &[u64], s: Reached) -> Wide
    requires { (0 < length kinds.now) × (0 < length words.now) }
    ensures { (t : Ty) → WidthSays (width_by (get_or kinds.now 0 0) (get_or words.now 0 0)) (int_width t) → Asked (int_width t) s result.s result.width }
{
    match width_of(kinds, words) {
        Some(width) => Wide { width, s },
        None => Wide {
            width: 0,
            s: refuse(s, Refusal::NotInteger),
        },
    }
}

// `push_int`
pub fn push_int(
    value: u64,
    width: u32,
    lines: &mut [u16],
    operands: &mut [u64],
    s: Reached,
) -> Reached
    ensures { Puts (push_int value width) s result lines.old operands.old lines.new operands.new }
{
    put(
        lines,
        operands,
        s,
        line::PUSH,
        numbers::width::mask_to_width(value, width),
    )
}

// A local: a parameter first, then a slot.
fn push_local(
    name: u64,
    work: &[u64],
    lines: &mut [u16],
    operands: &mut [u64],
    s: Reached,
) -> Reached
    requires { slot_at name < length work.now }
    ensures { (m : ℕ) (c : FnCtx) → name < m → Locals c m work.now
        → Puts (push_value c (Value.local name) 0) s result lines.old operands.old lines.new operands.new }
{
    let at = book::work::WORDS * (name as usize);
    let param = work[at];
    if param != 0 {
        return put(lines, operands, s, line::GET_ARG, param - 1);
    }
    let slot = work[at + book::work::SLOT];
    if slot != 0 {
        return put(lines, operands, s, line::GET_LOCAL, slot - 1);
    }
    refuse(s, Refusal::UnknownLocal)
}

// `push_value` of the value at the front.
pub fn push_value(
    kinds: &[u64],
    words: &[u64],
    width: u32,
    work: &[u64],
    lines: &mut [u16],
    operands: &mut [u64],
    s: Reached,
) -> Reached
    requires { OperandAt kinds.now words.now 0 work.now }
    ensures { (m : ℕ) (c : FnCtx) (v : Value) → ValueAt m kinds.now words.now 0 v → Locals c m work.now
        → Puts (push_value c v width) s result lines.old operands.old lines.new operands.new }
{
    let word = words[0];
    match value_group(kinds[0]) {
        ValueGroup::Local => push_local(word, work, lines, operands, s),
        ValueGroup::Global => put(lines, operands, s, line::PUSH_NAME, word),
        ValueGroup::Int => push_int(word, width, lines, operands, s),
        ValueGroup::Zero => put(lines, operands, s, line::PUSH, 0),
        ValueGroup::Other | ValueGroup::Bad => refuse(s, Refusal::Forbidden),
    }
}

// `store_dest`: the result word is the result's name with 1 added, 0 for none.
pub fn store_dest(
    dest: u64,
    work: &[u64],
    lines: &mut [u16],
    operands: &mut [u64],
    s: Reached,
) -> Reached
    requires { DestReaches dest work.now }
    ensures { (m : ℕ) (c : FnCtx) → dest ≤ m → Locals c m work.now
        → Puts (store_dest c (dest_of dest)) s result lines.old operands.old lines.new operands.new }
{
    if dest == 0 {
        return refuse(s, Refusal::NoResultName);
    }
    let slot = work[book::work::WORDS * ((dest - 1) as usize) + book::work::SLOT];
    if slot == 0 {
        return refuse(s, Refusal::NoResultName);
    }
    put(lines, operands, s, line::SET_LOCAL, slot - 1)
}

// A call's result: into its slot, or dropped.
pub fn store_or_pop(
    dest: u64,
    work: &[u64],
    lines: &mut [u16],
    operands: &mut [u64],
    s: Reached,
) -> Reached
    requires { DestReaches dest work.now }
    ensures { (m : ℕ) (c : FnCtx) → dest ≤ m → Locals c m work.now
        → Puts (store_or_pop c (dest_of dest)) s result lines.old operands.old lines.new operands.new }
{
    if dest == 0 {
        return put(lines, operands, s, line::POP, 0);
    }
    store_dest(dest, work, lines, operands, s)
}

// The line kind of an operation or predicate by its number and the working width: 32 for up to 32 bits, else 64. The 13 operations are
// numbered first, then the 10 predicates, each in the order of ast.rs. The width stands in front: so it compiles without a jump.
#[tactic(auto, using(crate::specs::Widths::narrow_operation, crate::specs::Widths::wide_operation))]
fn operation(number: u16, width: u32) -> u16
    requires { number < 23 }
    ensures { result ≡ operationOf number (work_of width) }
{
    match (width, number) {
        (0..=32, 0) => line::ADD_U32,
        (0..=32, 1) => line::SUB_U32,
        (0..=32, 2) => line::MUL_U32,
        (0..=32, 3) => line::DIV_U32,
        (0..=32, 4) => line::DIV_I32,
        (0..=32, 5) => line::MOD_U32,
        (0..=32, 6) => line::MOD_I32,
        (0..=32, 7) => line::AND_U32,
        (0..=32, 8) => line::OR_U32,
        (0..=32, 9) => line::XOR_U32,
        (0..=32, 10) => line::LSHIFT_U32,
        (0..=32, 11) => line::RSHIFT_U32,
        (0..=32, 12) => line::RSHIFT_I32,
        (0..=32, 13) => line::EQ_U32,
        (0..=32, 14) => line::NE_U32,
        (0..=32, 15) => line::GT_U32,
        (0..=32, 16) => line::GE_U32,
        (0..=32, 17) => line::LT_U32,
        (0..=32, 18) => line::LE_U32,
        (0..=32, 19) => line::GT_I32,
        (0..=32, 20) => line::GE_I32,
        (0..=32, 21) => line::LT_I32,
        (0..=32, _) => line::LE_I32,
        (_, 0) => line::ADD_U64,
        (_, 1) => line::SUB_U64,
        (_, 2) => line::MUL_U64,
        (_, 3) => line::DIV_U64,
        (_, 4) => line::DIV_I64,
        (_, 5) => line::MOD_U64,
        (_, 6) => line::MOD_I64,
        (_, 7) => line::AND_U64,
        (_, 8) => line::OR_U64,
        (_, 9) => line::XOR_U64,
        (_, 10) => line::LSHIFT_U64,
        (_, 11) => line::RSHIFT_U64,
        (_, 12) => line::RSHIFT_I64,
        (_, 13) => line::EQ_U64,
        (_, 14) => line::NE_U64,
        (_, 15) => line::GT_U64,
        (_, 16) => line::GE_U64,
        (_, 17) => line::LT_U64,
        (_, 18) => line::LE_U64,
        (_, 19) => line::GT_I64,
        (_, 20) => line::GE_I64,
        (_, 21) => line::LT_I64,
        (_, _) => line::LE_I64,
    }
}

// The kind of an operation's line at the working width.
pub fn bin_line(op: BinOp, width: u32) -> u16
    ensures { result ≡ operationOf (bin_number (bin_of op)) (work_of width) }
{
    operation(op.number(), width)
}

// The kind of a predicate's line at the working width.
pub fn icmp_line(pred: ICmpPred, width: u32) -> u16
    ensures { result ≡ operationOf (icmp_number (icmp_of pred)) (work_of width) }
{
    operation(line::EQ_U32 - line::ADD_U32 + pred.number(), width)
}

// `emit_trunc_to`
pub fn emit_trunc_to(width: u32, lines: &mut [u16], operands: &mut [u64], s: Reached) -> Reached
    ensures { Puts (emit_trunc_to width) s result lines.old operands.old lines.new operands.new }
{
    match width {
        1 => {
            let one = put(lines, operands, s, line::PUSH, 1);
            put(lines, operands, one, line::AND_U32, 0)
        }
        8 => put(lines, operands, s, line::TRUNC_U8, 0),
        16 => put(lines, operands, s, line::TRUNC_U16, 0),
        32 => put(lines, operands, s, line::TRUNC_U32, 0),
        _ => s,
    }
}

// `emit_sext` from 1 bit: the bit times all ones.
fn sext_bit(to: u32, lines: &mut [u16], operands: &mut [u64], s: Reached) -> Reached
    ensures { Puts (sext_bit to) s result lines.old operands.old lines.new operands.new }
{
    let a = put(lines, operands, s, line::PUSH, 1);
    let b = put(lines, operands, a, bin_line(BinOp::And, to), 0);
    let c = put(
        lines,
        operands,
        b,
        line::PUSH,
        numbers::width::mask_to_width(u64::MAX, to),
    );
    put(lines, operands, c, bin_line(BinOp::Mul, to), 0)
}

// The kind of the line that extends from 8, 16 or 32 bits to the working width, where there is one.
fn sx_kind(from: u32, to: u32) -> Option<u16>
    ensures { Present (sx_kind from to) result }
{
    if to <= 32 {
        match from {
            8 => Some(line::SX_I8_I32),
            16 => Some(line::SX_I16_I32),
            _ => None,
        }
    } else {
        match from {
            8 => Some(line::SX_I8_I64),
            16 => Some(line::SX_I16_I64),
            32 => Some(line::SX_I32_I64),
            _ => None,
        }
    }
}

// Truncated to a width that is no working width.
pub fn trunc_below(width: u32, lines: &mut [u16], operands: &mut [u64], s: Reached) -> Reached
    ensures { Puts (when (ltb width (work_bits width)) (emit_trunc_to width)) s result lines.old operands.old lines.new operands.new }
{
    if width == 32 {
        return s;
    }
    if width < 64 {
        return emit_trunc_to(width, lines, operands, s);
    }
    s
}

// `emit_sext`
pub fn emit_sext(from: u32, to: u32, lines: &mut [u16], operands: &mut [u64], s: Reached) -> Reached
    ensures { Puts (emit_sext from to) s result lines.old operands.old lines.new operands.new }
{
    if from == 1 {
        return sext_bit(to, lines, operands, s);
    }
    match sx_kind(from, to) {
        Some(kind) => {
            let extended = put(lines, operands, s, kind, 0);
            trunc_below(to, lines, operands, extended)
        }
        None => refuse(s, Refusal::SignExtension),
    }
}

// Extended to the working width where that is asked for and the width is none.
pub fn extend(
    signed: bool,
    width: u32,
    lines: &mut [u16],
    operands: &mut [u64],
    s: Reached,
) -> Reached
    ensures { Puts (when (signed && ltb width (work_bits width)) (emit_sext width (work_bits width))) s result lines.old operands.old lines.new operands.new }
{
    if !signed {
        return s;
    }
    if width < 32 {
        return emit_sext(width, 32, lines, operands, s);
    }
    if width == 32 {
        return s;
    }
    if width < 64 {
        return emit_sext(width, 64, lines, operands, s);
    }
    s
}
