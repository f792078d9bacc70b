#![tactic(auto)]
// `alloca`: a fixed place is the frame's base and an offset, a varying one moves the stack pointer. The entries are lent from
// the type on; the place among a result's work words has its offset with 1 added, 0 for none.
ghost use Rattle.std.specs.Prelude.{◌≡◌, List, ◌∷◌, ℕ, ◌≤◌, drop};
ghost use Rattle.std.proofs.Math.Option.{Option};
ghost use Rattle.book.specs.Ast.{TypedVal};
ghost use Rattle.book.specs.Entry.{entries};
ghost use Rattle.book.specs.Kinds.{InstTag};
ghost use Rattle.book.specs.Fields.{Item, Field, Meanings, inst_fields};
ghost use Rattle.book.specs.Map.{lookup};
ghost use Rattle.lowering.specs.Gen.{Gen};
ghost use Rattle.lowering.specs.Context.{FnCtx};
ghost use Rattle.lowering.specs.Memory.{push_count, gen_dynamic_alloca, fixed_place, place_of, gen_alloca};
ghost use Rattle.gen_lines.specs.Puts.{Puts};
ghost use Rattle.gen_values.specs.Values.{dest_of};
ghost use Rattle.gen_values.specs.Maps.{Locals, Maps, Did};
ghost use Rattle.gen_values.specs.Fields.{Fields};
ghost use Rattle.gen_size.specs.Lent.{Lent};
ghost use Rattle.gen_alloca.specs.Alloca.{raise, move_by, times_size, plus_offset, CountFront, CountPlaced, CountThere, CountAt, AlignLent, AlignGiven, NameLent, ResultLent};

use assembly::line;
use book::entry;
use book::refusal::Refusal;
use gen_lines::{Reached, put, refuse};
use gen_size::{Bytes, measured_align, measured_size};
use gen_values::{push_int, push_value, store_dest};
use layout_memo::skip;

// The place of a count's value, or of the entry that says that there is none; the field starts at `at`.
fn count_place(kinds: &[u64], words: &[u64], at: usize, names: u64) -> usize
    requires { CountFront names kinds.now words.now at }
    ensures { (fs : List Field) (p : Meanings (Field.optional Item.typed ∷ fs))
        → Fields names (Field.optional Item.typed ∷ fs) p (drop at (entries kinds.now words.now))
        → CountPlaced names fs kinds.now words.now result p }
{
    if kinds[at] == entry::ABSENT {
        return at;
    }
    at + skip(&kinds[at..], &words[at..], names)
}

// The count whose value is at the front, 1 where there is none.
fn push_count(
    kinds: &[u64],
    words: &[u64],
    work: &[u64],
    lines: &mut [u16],
    operands: &mut [u64],
    s: Reached,
) -> Reached
    requires { CountThere kinds.now words.now 0 work.now }
    ensures { (m : ℕ) (c : FnCtx) (o : Option TypedVal) → CountAt m kinds.now words.now 0 o → Locals c m work.now
        → Puts (push_count c o) s result lines.old operands.old lines.new operands.new }
{
    if kinds[0] == entry::ABSENT {
        return push_int(1, 64, lines, operands, s);
    }
    push_value(kinds, words, 64, work, lines, operands, s)
}

// The align stated at the place, else the type's.
fn align_or(
    kinds: &[u64],
    words: &[u64],
    book_kinds: &[u64],
    book_words: &[u64],
    work: &mut [u64],
    names: u64,
    at: usize,
    s: Reached,
) -> Bytes
    requires { AlignLent names kinds.now words.now at (entries book_kinds.now book_words.now) work.old }
    ensures { AlignGiven names kinds.now words.now at (entries book_kinds.now book_words.now)
        work.old work.new s result }
{
    if kinds[at] == entry::NUMBER {
        return Bytes {
            bytes: words[at],
            s,
        };
    }
    measured_align(kinds, words, book_kinds, book_words, work, names, s)
}

// The stack pointer raised to a multiple of the alignment, twice.
fn raised(align: u64, lines: &mut [u16], operands: &mut [u64], s: Reached) -> Reached
    requires { 1 ≤ align }
    ensures { (g : Gen) (t : Reached) (ks os : List ℕ) → Puts g result t lines.new operands.new ks os
        → Puts (raise align g) s t lines.old operands.old ks os }
{
    let top = put(lines, operands, s, line::THREAD_GET, 0);
    let below = push_int(align - 1, 64, lines, operands, top);
    let sum = put(lines, operands, below, line::ADD_U64, 0);
    let mask = push_int(u64::MAX - (align - 1), 64, lines, operands, sum);
    let start = put(lines, operands, mask, line::AND_U64, 0);
    put(lines, operands, start, line::DUP, 0)
}

// So many elements of this size.
fn times_size(size: u64, lines: &mut [u16], operands: &mut [u64], s: Reached) -> Reached
    ensures { Puts (times_size size) s result lines.old operands.old lines.new operands.new }
{
    if size == 1 {
        return s;
    }
    let each = push_int(size, 64, lines, operands, s);
    put(lines, operands, each, line::MUL_U64, 0)
}

// The stack pointer moved behind so many elements of this size.
fn moved(size: u64, lines: &mut [u16], operands: &mut [u64], s: Reached) -> Reached
    ensures { Puts (move_by size) s result lines.old operands.old lines.new operands.new }
{
    let bytes = times_size(size, lines, operands, s);
    let end = put(lines, operands, bytes, line::ADD_U64, 0);
    put(lines, operands, end, line::THREAD_SET, 0)
}

// `gen_dynamic_alloca`
fn gen_dynamic_alloca(
    kinds: &[u64],
    words: &[u64],
    book_kinds: &[u64],
    book_words: &[u64],
    work: &mut [u64],
    names: u64,
    lines: &mut [u16],
    operands: &mut [u64],
    s: Reached,
) -> Reached
    requires { Lent names (inst_fields InstTag.alloca) (entries kinds.now words.now) (entries book_kinds.now book_words.now) work.old }
    ensures { (p : Meanings (inst_fields InstTag.alloca)) (c : FnCtx) → Fields names (inst_fields InstTag.alloca) p (entries kinds.now words.now)
        → Maps names (entries book_kinds.now book_words.now) c work.old
        → Did (gen_dynamic_alloca c p.0 p.1.0 p.1.1.0) names (entries book_kinds.now book_words.now) c work.new
        s result lines.old operands.old lines.new operands.new }
{
    let size = measured_size(kinds, words, book_kinds, book_words, work, names, s);
    let count = count_place(kinds, words, skip(kinds, words, names), names);
    let count_kinds = &kinds[count..];
    let count_words = &words[count..];
    let stated = align_or(
        kinds,
        words,
        book_kinds,
        book_words,
        work,
        names,
        count + 1,
        size.s,
    );
    let start = raised(stated.bytes.max(8), lines, operands, stated.s);
    let counted = push_count(count_kinds, count_words, work, lines, operands, start);
    moved(size.bytes, lines, operands, counted)
}

// An offset, where it is not 0.
fn plus_offset(offset: u64, lines: &mut [u16], operands: &mut [u64], s: Reached) -> Reached
    ensures { Puts (plus_offset offset) s result lines.old operands.old lines.new operands.new }
{
    if offset == 0 {
        return s;
    }
    let pushed = push_int(offset, 64, lines, operands, s);
    put(lines, operands, pushed, line::ADD_U64, 0)
}

// A fixed place: the frame's base is in the slot `base`.
fn fixed_place(
    offset: u64,
    base: u64,
    lines: &mut [u16],
    operands: &mut [u64],
    s: Reached,
) -> Reached
    ensures { (c : FnCtx) → c.bp_slot ≡ base
        → Puts (fixed_place c offset) s result lines.old operands.old lines.new operands.new }
{
    let frame = put(lines, operands, s, line::GET_LOCAL, base);
    plus_offset(offset, lines, operands, frame)
}

// The place of the result with this name, fixed or varying.
fn place_of(
    kinds: &[u64],
    words: &[u64],
    book_kinds: &[u64],
    book_words: &[u64],
    work: &mut [u64],
    names: u64,
    name: u64,
    base: u64,
    lines: &mut [u16],
    operands: &mut [u64],
    s: Reached,
) -> Reached
    requires { NameLent names (entries kinds.now words.now) (entries book_kinds.now book_words.now) name work.old }
    ensures { (p : Meanings (inst_fields InstTag.alloca)) (c : FnCtx) → Fields names (inst_fields InstTag.alloca) p (entries kinds.now words.now)
        → Maps names (entries book_kinds.now book_words.now) c work.old → c.bp_slot ≡ base
        → Did (place_of c (lookup name c.alloca_offsets) p.0 p.1.0 p.1.1.0) names (entries book_kinds.now book_words.now) c work.new
        s result lines.old operands.old lines.new operands.new }
{
    let place = work[book::work::WORDS * (name as usize) + book::work::PLACE];
    if place != 0 {
        return fixed_place(place - 1, base, lines, operands, s);
    }
    gen_dynamic_alloca(
        kinds, words, book_kinds, book_words, work, names, lines, operands, s,
    )
}

// `alloca`, with its result.
pub fn gen_alloca(
    kinds: &[u64],
    words: &[u64],
    book_kinds: &[u64],
    book_words: &[u64],
    work: &mut [u64],
    names: u64,
    dest: u64,
    base: u64,
    lines: &mut [u16],
    operands: &mut [u64],
    s: Reached,
) -> Reached
    requires { ResultLent names (entries kinds.now words.now) (entries book_kinds.now book_words.now) dest work.old }
    ensures { (p : Meanings (inst_fields InstTag.alloca)) (c : FnCtx) → Fields names (inst_fields InstTag.alloca) p (entries kinds.now words.now)
        → Maps names (entries book_kinds.now book_words.now) c work.old → c.bp_slot ≡ base
        → Did (gen_alloca c (dest_of dest) p.0 p.1.0 p.1.1.0) names (entries book_kinds.now book_words.now) c work.new
        s result lines.old operands.old lines.new operands.new }
{
    if dest == 0 {
        return refuse(s, Refusal::NoResultName);
    }
    let placed = place_of(
        kinds,
        words,
        book_kinds,
        book_words,
        work,
        names,
        dest - 1,
        base,
        lines,
        operands,
        s,
    );
    store_dest(dest, work, lines, operands, placed)
}
