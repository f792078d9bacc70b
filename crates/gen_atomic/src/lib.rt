#![tactic(auto)]
// Atomics, and the two slots of a `cmpxchg`. The entries are lent from the first field on.
ghost use Rattle.std.specs.Prelude.{ℕ, ◌+◌, ◌*◌, ◌<◌, ◌≤◌, List, ◌∷◌, length};
ghost use Rattle.book.specs.Ast.{Value};
ghost use Rattle.book.specs.Entry.{entries};
ghost use Rattle.book.specs.Kinds.{InstTag};
ghost use Rattle.book.specs.Fields.{Item, Field, Meanings, inst_fields};
ghost use Rattle.book.specs.Refusal.{number_of};
ghost use Rattle.book.specs.Work.{slot_at};
ghost use Rattle.book.specs.Map.{lookup};
ghost use Rattle.book.specs.Result.{ok_or};
ghost use Rattle.lowering.specs.Context.{FnCtx, slot_of};
ghost use Rattle.lowering.specs.Memory.{require_atomic_width, gen_atomic_load, gen_atomic_store, gen_cmpxchg, agg_slot, gen_extract_value};
ghost use Rattle.gen_lines.specs.Puts.{Puts};
ghost use Rattle.gen_lines.specs.Follow.{Asked};
ghost use Rattle.gen_values.specs.Values.{dest_of, DestReaches};
ghost use Rattle.gen_values.specs.Maps.{Locals, Maps, Did};
ghost use Rattle.gen_values.specs.Fields.{Fields, ValueAt, OperandAt};
ghost use Rattle.gen_fields.specs.Given.{Given};
ghost use Rattle.gen_size.specs.Sizes.{Measurable};
ghost use Rattle.gen_size.specs.Lent.{Lent};
ghost use Rattle.gen_atomic.specs.Atomic.{set_both};

use assembly::line;
use book::entry;
use book::refusal::Refusal;
use gen_lines::{Reached, put, refuse};
use gen_size::measured_size;
use gen_values::{need, push_value, store_dest};
use layout_memo::skip;

// `require_atomic_width` of the type at the front: no line.
pub fn require_atomic_width(
    kinds: &[u64],
    words: &[u64],
    book_kinds: &[u64],
    book_words: &[u64],
    work: &mut [u64],
    names: u64,
    s: Reached,
) -> Reached
    requires { Measurable names (entries kinds.now words.now) (entries book_kinds.now book_words.now) work.old }
    ensures { (fs : List Field) (p : Meanings (Field.plain Item.type ∷ fs)) (c : FnCtx) (ks os : List ℕ)
        → Fields names (Field.plain Item.type ∷ fs) p (entries kinds.now words.now)
        → Maps names (entries book_kinds.now book_words.now) c work.old
        → Did (require_atomic_width c p.0) names (entries book_kinds.now book_words.now) c work.new s result ks os ks os }
{
    let size = measured_size(kinds, words, book_kinds, book_words, work, names, s);
    need(size.s, size.bytes == 8, Refusal::AtomicSize)
}

// An atomic `load`, without its result.
pub fn gen_atomic_load(
    kinds: &[u64],
    words: &[u64],
    book_kinds: &[u64],
    book_words: &[u64],
    work: &mut [u64],
    names: u64,
    lines: &mut [u16],
    operands: &mut [u64],
    s: Reached,
) -> Reached
    requires { Lent names (inst_fields InstTag.atomic_load) (entries kinds.now words.now) (entries book_kinds.now book_words.now) work.old }
    ensures { (p : Meanings (inst_fields InstTag.atomic_load)) (c : FnCtx) → Fields names (inst_fields InstTag.atomic_load) p (entries kinds.now words.now)
        → Maps names (entries book_kinds.now book_words.now) c work.old
        → Did (gen_atomic_load c p.0 p.1.0) names (entries book_kinds.now book_words.now) c work.new
        s result lines.old operands.old lines.new operands.new }
{
    let wide = require_atomic_width(kinds, words, book_kinds, book_words, work, names, s);
    let at = skip(kinds, words, names);
    let ptr_kinds = &kinds[at..];
    let ptr_words = &words[at..];
    let address = push_value(ptr_kinds, ptr_words, 64, work, lines, operands, wide);
    put(lines, operands, address, line::ATOMIC_LOAD_U64, 0)
}

// An atomic `store`: the address first, so that the value is popped first.
pub fn gen_atomic_store(
    kinds: &[u64],
    words: &[u64],
    book_kinds: &[u64],
    book_words: &[u64],
    work: &mut [u64],
    names: u64,
    lines: &mut [u16],
    operands: &mut [u64],
    s: Reached,
) -> Reached
    requires { Lent names (inst_fields InstTag.atomic_store) (entries kinds.now words.now) (entries book_kinds.now book_words.now) work.old }
    ensures { (p : Meanings (inst_fields InstTag.atomic_store)) (c : FnCtx) → Fields names (inst_fields InstTag.atomic_store) p (entries kinds.now words.now)
        → Maps names (entries book_kinds.now book_words.now) c work.old
        → Did (gen_atomic_store c p.0 p.1.0 p.1.1.0) names (entries book_kinds.now book_words.now) c work.new
        s result lines.old operands.old lines.new operands.new }
{
    let wide = require_atomic_width(kinds, words, book_kinds, book_words, work, names, s);
    let val = skip(kinds, words, names);
    let ptr = val + 1;
    let val_kinds = &kinds[val..];
    let val_words = &words[val..];
    let ptr_kinds = &kinds[ptr..];
    let ptr_words = &words[ptr..];
    let below = push_value(ptr_kinds, ptr_words, 64, work, lines, operands, wide);
    let both = push_value(val_kinds, val_words, 64, work, lines, operands, below);
    put(lines, operands, both, line::ATOMIC_STORE_U64, 0)
}

// A slot, 0 where it was refused, and what was reached, through which the refusal goes on.
#[derive(Clone, Copy)]
pub struct Slot {
    pub slot: u64,
    pub s: Reached,
}

// The slot of a name; where it has none, this refusal.
fn name_slot(name: u64, why: Refusal, work: &[u64], s: Reached) -> Slot
    requires { slot_at name < length work.now }
    ensures { (m : ℕ) (c : FnCtx) → name < m → Locals c m work.now → Asked (ok_or (number_of why) (lookup name c.slots)) s result.s result.slot }
{
    let word = work[book::work::WORDS * (name as usize) + book::work::SLOT];
    if word == 0 {
        return Slot {
            slot: 0,
            s: refuse(s, why),
        };
    }
    Slot { slot: word - 1, s }
}

// The slot of a result.
fn slot_of(dest: u64, work: &[u64], s: Reached) -> Slot
    requires { DestReaches dest work.now }
    ensures { (m : ℕ) (c : FnCtx) → dest ≤ m → Locals c m work.now → Asked (slot_of c (dest_of dest)) s result.s result.slot }
{
    if dest == 0 {
        return Slot {
            slot: 0,
            s: refuse(s, Refusal::NoResultName),
        };
    }
    name_slot(dest - 1, Refusal::NoResultName, work, s)
}

// The cell found goes into the slot, and whether it was the one compared with, whose value is at the front, into the next.
fn set_both(
    kinds: &[u64],
    words: &[u64],
    slot: u64,
    work: &[u64],
    lines: &mut [u16],
    operands: &mut [u64],
    s: Reached,
) -> Reached
    requires { OperandAt kinds.now words.now 0 work.now }
    ensures { (m : ℕ) (c : FnCtx) (v : Value) → ValueAt m kinds.now words.now 0 v → Locals c m work.now
        → Puts (set_both c v slot) s result lines.old operands.old lines.new operands.new }
{
    let twice = put(lines, operands, s, line::DUP, 0);
    let found = put(lines, operands, twice, line::SET_LOCAL, slot);
    let compared = push_value(kinds, words, 64, work, lines, operands, found);
    let equal = put(lines, operands, compared, line::EQ_U64, 0);
    put(
        lines,
        operands,
        equal,
        line::SET_LOCAL,
        slot.wrapping_add(1),
    )
}

// `gen_cmpxchg`, behind its `require_atomic_width`.
pub fn gen_cmpxchg(
    kinds: &[u64],
    words: &[u64],
    names: u64,
    dest: u64,
    work: &[u64],
    lines: &mut [u16],
    operands: &mut [u64],
    s: Reached,
) -> Reached
    requires { Given names (inst_fields InstTag.cmpxchg) (entries kinds.now words.now) dest work.now }
    ensures { (p : Meanings (inst_fields InstTag.cmpxchg)) (c : FnCtx) → Fields names (inst_fields InstTag.cmpxchg) p (entries kinds.now words.now)
        → Locals c names work.now → Puts (gen_cmpxchg c p.1.0 p.1.1.0 p.1.1.1.0 (dest_of dest))
        s result lines.old operands.old lines.new operands.new }
{
    let own = slot_of(dest, work, s);
    let ptr = skip(kinds, words, names);
    let cmp = ptr + 1;
    let val = cmp + 1;
    let ptr_kinds = &kinds[ptr..];
    let ptr_words = &words[ptr..];
    let cmp_kinds = &kinds[cmp..];
    let cmp_words = &words[cmp..];
    let new_kinds = &kinds[val..];
    let new_words = &words[val..];
    let address = push_value(ptr_kinds, ptr_words, 64, work, lines, operands, own.s);
    let compared = push_value(cmp_kinds, cmp_words, 64, work, lines, operands, address);
    let new = push_value(new_kinds, new_words, 64, work, lines, operands, compared);
    let found = put(lines, operands, new, line::ATOMIC_CAS_U64, 0);
    set_both(cmp_kinds, cmp_words, own.slot, work, lines, operands, found)
}

// The first slot of the value at the front: of a local that has one.
fn agg_slot(kinds: &[u64], words: &[u64], work: &[u64], s: Reached) -> Slot
    requires { OperandAt kinds.now words.now 0 work.now }
    ensures { (m : ℕ) (c : FnCtx) (v : Value) → ValueAt m kinds.now words.now 0 v → Locals c m work.now
        → Asked (ok_or 16 (agg_slot c v)) s result.s result.slot }
{
    if kinds[0] == entry::LOCAL {
        return name_slot(words[0], Refusal::ExtractValue, work, s);
    }
    Slot {
        slot: 0,
        s: refuse(s, Refusal::ExtractValue),
    }
}

// `gen_extractvalue`
pub fn gen_extractvalue(
    kinds: &[u64],
    words: &[u64],
    names: u64,
    dest: u64,
    work: &[u64],
    lines: &mut [u16],
    operands: &mut [u64],
    s: Reached,
) -> Reached
    requires { Given names (inst_fields InstTag.extract_value) (entries kinds.now words.now) dest work.now }
    ensures { (p : Meanings (inst_fields InstTag.extract_value)) (c : FnCtx) → Fields names (inst_fields InstTag.extract_value) p (entries kinds.now words.now)
        → Locals c names work.now → Puts (gen_extract_value c p.0 p.1.0 (dest_of dest))
        s result lines.old operands.old lines.new operands.new }
{
    let first = agg_slot(kinds, words, work, s);
    let index = words[1];
    let known = need(first.s, index <= 1, Refusal::ExtractValue);
    let got = put(
        lines,
        operands,
        known,
        line::GET_LOCAL,
        first.slot.wrapping_add(index),
    );
    store_dest(dest, work, lines, operands, got)
}
