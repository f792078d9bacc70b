#![tactic(auto)]
// Loads and stores, and `freeze`, which measures its type too. The entries are lent from the type on.
ghost use Rattle.std.specs.Prelude.{◌≡◌, ◌<◌, ◌≤◌, length, get_or};
ghost use Rattle.book.specs.Ast.{Ty};
ghost use Rattle.book.specs.Entry.{entries};
ghost use Rattle.book.specs.Kinds.{InstTag};
ghost use Rattle.book.specs.Fields.{Meanings, inst_fields};
ghost use Rattle.lowering.specs.Context.{FnCtx};
ghost use Rattle.lowering.specs.Operand.{int_width};
ghost use Rattle.lowering.specs.Memory.{gen_load, gen_store};
ghost use Rattle.lowering.specs.Arith.{width_or, gen_freeze};
ghost use Rattle.gen_values.specs.Values.{width_by};
ghost use Rattle.gen_values.specs.Maps.{Maps, Did};
ghost use Rattle.gen_values.specs.Fields.{Fields, WidthSays};
ghost use Rattle.gen_size.specs.Lent.{Lent};
ghost use Rattle.gen_memory.specs.Memory.{MemAsked};

use assembly::line;
use book::refusal::Refusal;
use gen_fields::push_typed;
use gen_lines::{Reached, put, refuse};
use gen_size::measured_size;
use gen_values::{push_value, width_of};
use layout_memo::skip;

// The number of a load's or store's width, 0 where it was refused, and what was reached, through which the refusal goes on.
#[derive(Clone, Copy)]
pub struct Width {
    pub number: u16,
    pub s: Reached,
}

// The width of a load or store of so many bytes.
fn mem_of(bytes: u64, s: Reached) -> Width
    ensures { MemAsked bytes s result }
{
    match bytes {
        1 => Width { number: 0, s },
        2 => Width { number: 1, s },
        4 => Width { number: 2, s },
        8 => Width { number: 3, s },
        _ => Width {
            number: 0,
            s: refuse(s, Refusal::AccessSize),
        },
    }
}

// `load`, without its result.
pub fn gen_load(
    kinds: &[u64],
    words: &[u64],
    book_kinds: &[u64],
    book_words: &[u64],
    work: &mut [u64],
    names: u64,
    lines: &mut [u16],
    operands: &mut [u64],
    s: Reached,
) -> Reached
    requires { Lent names (inst_fields InstTag.load) (entries kinds.now words.now) (entries book_kinds.now book_words.now) work.old }
    ensures { (p : Meanings (inst_fields InstTag.load)) (c : FnCtx) → Fields names (inst_fields InstTag.load) p (entries kinds.now words.now)
        → Maps names (entries book_kinds.now book_words.now) c work.old
        → Did (gen_load c p.0 p.1.0) names (entries book_kinds.now book_words.now) c work.new
        s result lines.old operands.old lines.new operands.new }
{
    let size = measured_size(kinds, words, book_kinds, book_words, work, names, s);
    let width = mem_of(size.bytes, size.s);
    let at = skip(kinds, words, names);
    let ptr_kinds = &kinds[at..];
    let ptr_words = &words[at..];
    let address = push_value(ptr_kinds, ptr_words, 64, work, lines, operands, width.s);
    put(lines, operands, address, line::LOAD_U8 + width.number, 0)
}

// `store`: the address first, so that the value is popped first.
pub fn gen_store(
    kinds: &[u64],
    words: &[u64],
    book_kinds: &[u64],
    book_words: &[u64],
    work: &mut [u64],
    names: u64,
    lines: &mut [u16],
    operands: &mut [u64],
    s: Reached,
) -> Reached
    requires { Lent names (inst_fields InstTag.store) (entries kinds.now words.now) (entries book_kinds.now book_words.now) work.old }
    ensures { (p : Meanings (inst_fields InstTag.store)) (c : FnCtx) → Fields names (inst_fields InstTag.store) p (entries kinds.now words.now)
        → Maps names (entries book_kinds.now book_words.now) c work.old
        → Did (gen_store c p.0 p.1.0 p.1.1.0) names (entries book_kinds.now book_words.now) c work.new
        s result lines.old operands.old lines.new operands.new }
{
    let size = measured_size(kinds, words, book_kinds, book_words, work, names, s);
    let width = mem_of(size.bytes, size.s);
    let at = skip(kinds, words, names);
    let ptr = at + 1;
    let ptr_kinds = &kinds[ptr..];
    let ptr_words = &words[ptr..];
    let address = push_value(ptr_kinds, ptr_words, 64, work, lines, operands, width.s);
    let value = push_typed(kinds, words, at, work, lines, operands, address);
    put(lines, operands, value, line::STORE_U8 + width.number, 0)
}

// The width of the type at the front, else 8 bits for each byte.
fn width_or(kinds: &[u64], words: &[u64], bytes: u64) -> u32
    requires kinds_nonzero { (0 < length kinds.now) × (0 < length words.now) }
    requires bytes_bound { bytes ≤ 16777216 }
    ensures { (t : Ty) → WidthSays (width_by (get_or kinds.now 0 0) (get_or words.now 0 0)) (int_width t) → result ≡ width_or (int_width t) bytes }
{
    width_of(kinds, words).unwrap_or((bytes * 8) as u32)
}

// `freeze`, without its result.
pub fn gen_freeze(
    kinds: &[u64],
    words: &[u64],
    book_kinds: &[u64],
    book_words: &[u64],
    work: &mut [u64],
    names: u64,
    lines: &mut [u16],
    operands: &mut [u64],
    s: Reached,
) -> Reached
    requires { Lent names (inst_fields InstTag.freeze) (entries kinds.now words.now) (entries book_kinds.now book_words.now) work.old }
    ensures { (p : Meanings (inst_fields InstTag.freeze)) (c : FnCtx) → Fields names (inst_fields InstTag.freeze) p (entries kinds.now words.now)
        → Maps names (entries book_kinds.now book_words.now) c work.old
        → Did (gen_freeze c p.0 p.1.0) names (entries book_kinds.now book_words.now) c work.new
        s result lines.old operands.old lines.new operands.new }
{
    let size = measured_size(kinds, words, book_kinds, book_words, work, names, s);
    let width = width_or(kinds, words, size.bytes);
    let at = skip(kinds, words, names);
    let val_kinds = &kinds[at..];
    let val_words = &words[at..];
    push_value(val_kinds, val_words, width, work, lines, operands, size.s)
}
