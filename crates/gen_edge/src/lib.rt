#![tactic(auto)]
// `emit_edge_copies`, and the jump behind it: "An edge pushes every incoming value, then sets slots backwards; the scan of
// leading phis ends at the first instruction that is none. The first matching predecessor counts." A first pass pushes the
// values and notes what is refused before any of them; a second one sets the slots, at places counted from the last.
ghost use Rattle.std.specs.Prelude.{◌≡◌, SomeIff, ℕ, ◌-◌, ◌%◌, ◌^◌, ◌≤◌, true, List, ◌∷◌, map, reverse, length, drop, slice_index_or, slice_set};
ghost use Rattle.book.specs.Ast.{Ty, Value};
ghost use Rattle.book.specs.Entry.{entries};
ghost use Rattle.lowering.specs.Context.{FnCtx};
ghost use Rattle.lowering.specs.Gen.{each};
ghost use Rattle.lowering.specs.Operand.{int_width, push_typed};
ghost use Rattle.lowering.specs.Edge.{Copy, set_copy, emit_edge_copies, edge as edge_of};
ghost use Rattle.gen_lines.specs.Puts.{Puts, further, is_refused, or_else};
ghost use Rattle.gen_values.specs.Values.{width_by, DestReaches};
ghost use Rattle.gen_values.specs.Fields.{WidthSays, ValueAt};
ghost use Rattle.gen_values.specs.Maps.{Locals, Maps};
ghost use Rattle.gen_edge.specs.Phis.{Phi, Leading};
ghost use Rattle.gen_edge.specs.Copies.{slot_word, noted as notedFrom};
ghost use Rattle.gen_edge.specs.Walks.{Lent, Passed, FoundAsk};
ghost use Rattle.gen_edge.specs.Edges.{PhiLent, SetAsk, slots_of, EdgeAsk};

use assembly::line;
use book::entry;
use book::refusal::Refusal;
use gen_lines::{Reached, put, refuse};
use gen_values::{need, need_width, push_value};
use layout_memo::skip;

// The number of phis passed, and what was reached behind their values.
#[derive(Clone, Copy)]
pub struct Copies {
    pub phis: usize,
    pub reached: Reached,
}

// The slot of a result word, where there is one.
fn slot(dest: u64, work: &[u64]) -> Option<u64>
    requires { DestReaches dest work.now }
    ensures { SomeIff result (1 ≤ slot_word dest work.now) (slot_word dest work.now - 1) }
{
    if dest == 0 {
        return None;
    }
    work[book::work::WORDS * ((dest - 1) as usize) + book::work::SLOT].checked_sub(1)
}

// What is refused before a value is pushed: a phi without a slot, then one without the predecessor.
fn note(dest: u64, found: usize, work: &[u64], s: Reached) -> Reached
    requires { DestReaches dest work.now }
    ensures { result ≡ notedFrom dest found work.now s }
{
    let slotted = need(s, slot(dest, work).is_some(), Refusal::NoResultName);
    need(slotted, found != 0, Refusal::PhiLacksPredecessor)
}

// The value at the front, where one was found, at the width of the type at the front of its part; nothing where none was.
fn push_found(
    found: bool,
    type_kinds: &[u64],
    type_words: &[u64],
    kinds: &[u64],
    words: &[u64],
    work: &[u64],
    lines: &mut [u16],
    operands: &mut [u64],
    s: Reached,
) -> Reached
    requires { found ≡ true → FoundAsk type_kinds.now type_words.now kinds.now words.now work.now }
    ensures { found ≡ true → (m : ℕ) (c : FnCtx) (ty : Ty) (v : Value)
        → WidthSays (width_by (slice_index_or type_kinds.now 0 0) (slice_index_or type_words.now 0 0)) (int_width ty)
        → ValueAt m kinds.now words.now 0 v → Locals c m work.now
        → Puts (push_typed c ty v) s result lines.old operands.old lines.new operands.new }
{
    if found {
        let wide = need_width(type_kinds, type_words, s);
        return push_value(kinds, words, wide.width, work, lines, operands, wide.s);
    }
    s
}

// What was noted, or else what was reached.
fn noted_first(noted: Reached, reached: Reached) -> Reached
    ensures { result ≡ or_else (is_refused noted) noted reached }
{
    if noted.refused != 0 { noted } else { reached }
}

// The values of the leading phis, in order. The place of a pair stays a number, 0 for none: a phi's entry stands in front of its pairs. The loops end at
// an entry that the contract knows to be there, so an iterator's test of the slice's end would come on top.
fn push_copies(
    pred: u64,
    kinds: &[u64],
    words: &[u64],
    names: u64,
    work: &[u64],
    lines: &mut [u16],
    operands: &mut [u64],
    s: Reached,
) -> Copies
    requires { Lent names kinds.now words.now work.now }
    ensures { (c : FnCtx) (ps : List Phi) → Locals c names work.now → Leading names ps (entries kinds.now words.now)
        → Passed c pred work.now ps result.phis s result.reached lines.old operands.old lines.new operands.new }
{
    let mut noted = s;
    let mut reached = s;
    let mut phis: usize = 0;
    let mut at: usize = 0;
    'phis: loop {
        if kinds[at] != entry::PHI {
            break 'phis;
        }
        let ty = at + 1;
        let type_kinds = &kinds[ty..];
        let type_words = &words[ty..];
        let mut pair = ty + skip(type_kinds, type_words, names);
        let mut found: usize = 0;
        while kinds[pair] != entry::END {
            if (found == 0) & (words[pair + 1] == pred) {
                found = pair;
            }
            pair += 2;
        }
        noted = note(words[at], found, work, noted);
        reached = push_found(
            found != 0,
            type_kinds,
            type_words,
            &kinds[found..],
            &words[found..],
            work,
            lines,
            operands,
            reached,
        );
        phis += 1;
        at = pair + 1;
    }
    Copies {
        phis,
        reached: noted_first(noted, reached),
    }
}

// The number of entries of the phi at the front. A loop, since its end is an entry and not the slice's.
fn phi_len(kinds: &[u64], words: &[u64], names: u64) -> usize
    requires { PhiLent names (entries kinds.now words.now) }
    ensures { (p : Phi) (ps : List Phi) → Leading names (p ∷ ps) (entries kinds.now words.now)
        → Leading names ps (drop result (entries kinds.now words.now)) }
{
    let mut pair = 1 + skip(&kinds[1..], &words[1..], names);
    while kinds[pair] != entry::END {
        pair += 2;
    }
    pair + 1
}

// A `set_local` at a place, where the slices reach so far.
fn put_at(lines: &mut [u16], operands: &mut [u64], place: usize, slot: u64)
    ensures { (lines.new ≡ slice_set lines.old place 11) × (operands.new ≡ slice_set operands.old place (slot % 2 ^ 64)) }
{
    put(
        lines,
        operands,
        Reached {
            at: place,
            counter: 0,
            refused: 0,
        },
        line::SET_LOCAL,
        slot,
    );
}

// The place behind so many lines. Counting ends at 2^62, which no line slice reaches.
fn beyond(at: usize, lines: usize) -> usize
    requires { lines ≤ 2 ^ 20 }
    ensures { result ≡ further at lines }
{
    if at < 4611686018427387904 {
        if at + lines < 4611686018427387904 {
            return at + lines;
        }
    }
    4611686018427387904
}

// The slots of the phis, from the last place down.
fn set_slots(
    kinds: &[u64],
    words: &[u64],
    names: u64,
    work: &[u64],
    lines: &mut [u16],
    operands: &mut [u64],
    phis: usize,
    s: Reached,
) -> Reached
    requires { SetAsk names kinds.now words.now work.now phis }
    ensures { (c : FnCtx) (ps : List Phi) (cps : List Copy) → Leading names ps (entries kinds.now words.now) → phis ≡ length ps
        → map (λ (cp : Copy). cp.slot) cps ≡ slots_of work.now ps
        → Puts (each (set_copy c) (reverse cps)) s result lines.old operands.old lines.new operands.new }
{
    let first = s.at;
    let mut at: usize = 0;
    for left in (0..phis).rev() {
        let slot = slot(words[at], work).unwrap_or(0);
        put_at(lines, operands, first.wrapping_add(left), slot);
        at += phi_len(&kinds[at..], &words[at..], names);
    }
    Reached {
        at: beyond(first, phis),
        counter: s.counter,
        refused: s.refused,
    }
}

// `emit_edge_copies`
pub fn emit_edge_copies(
    pred: u64,
    succ: u64,
    book_kinds: &[u64],
    book_words: &[u64],
    names: u64,
    work: &[u64],
    lines: &mut [u16],
    operands: &mut [u64],
    s: Reached,
) -> Reached
    requires { EdgeAsk names succ book_kinds.now book_words.now work.now }
    ensures { (c : FnCtx) → Maps names (entries book_kinds.now book_words.now) c work.now
        → Puts (emit_edge_copies c pred succ) s result lines.old operands.old lines.new operands.new }
{
    let place = work[book::work::WORDS * (succ as usize) + book::work::BLOCK];
    if place == 0 {
        return refuse(s, Refusal::UnknownBlock);
    }
    let at = (place - 1) as usize;
    let kinds = &book_kinds[at..];
    let words = &book_words[at..];
    let copies = push_copies(pred, kinds, words, names, work, lines, operands, s);
    let reached = copies.reached;
    set_slots(
        kinds,
        words,
        names,
        work,
        lines,
        operands,
        copies.phis,
        reached,
    )
}

// The copies, and the jump to the block.
pub fn edge(
    pred: u64,
    succ: u64,
    book_kinds: &[u64],
    book_words: &[u64],
    names: u64,
    work: &[u64],
    lines: &mut [u16],
    operands: &mut [u64],
    s: Reached,
) -> Reached
    requires { EdgeAsk names succ book_kinds.now book_words.now work.now }
    ensures { (c : FnCtx) → Maps names (entries book_kinds.now book_words.now) c work.now
        → Puts (edge_of c pred succ) s result lines.old operands.old lines.new operands.new }
{
    let copied = emit_edge_copies(
        pred, succ, book_kinds, book_words, names, work, lines, operands, s,
    );
    put(lines, operands, copied, line::JMP_BLOCK, succ)
}
