#![tactic(auto)]
// `gen_inst`: an instruction in front of the entries lent, by the group of its kind.
ghost use Rattle.std.specs.Prelude.{◌≡◌, ℕ};
ghost use Rattle.std.proofs.Math.Option.{Option, some};
ghost use Rattle.book.specs.Ast.{InstKind, Inst};
ghost use Rattle.book.specs.Entry.{entries};
ghost use Rattle.book.specs.Encode.{dest_word};
ghost use Rattle.book.specs.Fields.{inst_fields, inst_tag_of, inst_args};
ghost use Rattle.book_insts.specs.Insts.{inst_group_of};
ghost use Rattle.lowering.specs.Context.{FnCtx};
ghost use Rattle.lowering.specs.Inst.{gen_inst};
ghost use Rattle.gen_values.specs.Maps.{Maps, Did};
ghost use Rattle.gen_values.specs.Fields.{Fields, InstAt};
ghost use Rattle.gen_inst.specs.Body.{body_gen, stores_of};
ghost use Rattle.gen_inst.specs.Held.{HeldAt};
ghost use Rattle.gen_inst.specs.Whole.{InstThere};

use book_insts::{InstGroup, inst_group};
use gen_alloca::gen_alloca;
use gen_arith::{gen_bin, gen_conv, gen_icmp};
use gen_atomic::{
    gen_atomic_load, gen_atomic_store, gen_cmpxchg, gen_extractvalue, require_atomic_width,
};
use gen_call::gen_call;
use gen_gep::gen_gep;
use gen_lines::Reached;
use gen_memory::{gen_freeze, gen_load, gen_store};
use gen_select::gen_select;
use gen_values::store_dest;

// Whether the result's slot is set behind the lines.
fn stores(group: InstGroup) -> bool
    ensures { result ≡ stores_of group }
{
    match group {
        InstGroup::Bin(_) | InstGroup::Conv(_) | InstGroup::ICmp(_) => true,
        InstGroup::Select | InstGroup::Load | InstGroup::GetElementPtr => true,
        InstGroup::Freeze | InstGroup::AtomicLoad => true,
        InstGroup::Store | InstGroup::Alloca | InstGroup::Phi | InstGroup::Call => false,
        InstGroup::AtomicStore | InstGroup::Cmpxchg | InstGroup::ExtractValue => false,
        InstGroup::Fence | InstGroup::Other => false,
    }
}

// The lines but for that, from the fields; `from` is their place in the book. A `cmpxchg` tests the atomic width before anything else,
// and phis and fences have no line.
fn inst_body(
    group: InstGroup,
    kinds: &[u64],
    words: &[u64],
    book_kinds: &[u64],
    book_words: &[u64],
    from: usize,
    work: &mut [u64],
    names: u64,
    dest: u64,
    base: u64,
    lines: &mut [u16],
    operands: &mut [u64],
    s: Reached,
) -> Reached
    requires { HeldAt group names (entries kinds.now words.now) (entries book_kinds.now book_words.now) from dest work.old }
    ensures { (c : FnCtx) (d : Option ℕ) (k : InstKind) → group ≡ inst_group_of (some (inst_tag_of k)) → dest ≡ dest_word d → c.bp_slot ≡ base
        → Maps names (entries book_kinds.now book_words.now) c work.old
        → Fields names (inst_fields (inst_tag_of k)) (inst_args k) (entries kinds.now words.now)
        → Did (body_gen c d k) names (entries book_kinds.now book_words.now) c work.new
        s result lines.old operands.old lines.new operands.new }
{
    match group {
        InstGroup::Bin(op) => gen_bin(op, kinds, words, names, work, lines, operands, s),
        InstGroup::Conv(op) => gen_conv(op, kinds, words, names, work, lines, operands, s),
        InstGroup::ICmp(pred) => gen_icmp(pred, kinds, words, names, work, lines, operands, s),
        InstGroup::Select => gen_select(kinds, words, names, work, lines, operands, s),
        InstGroup::Load => gen_load(
            kinds, words, book_kinds, book_words, work, names, lines, operands, s,
        ),
        InstGroup::Store => gen_store(
            kinds, words, book_kinds, book_words, work, names, lines, operands, s,
        ),
        InstGroup::Alloca => gen_alloca(
            kinds, words, book_kinds, book_words, work, names, dest, base, lines, operands, s,
        ),
        InstGroup::GetElementPtr => gen_gep(
            book_kinds, book_words, from, names, work, lines, operands, s,
        ),
        InstGroup::Call => gen_call(kinds, words, names, dest, work, lines, operands, s),
        InstGroup::Freeze => gen_freeze(
            kinds, words, book_kinds, book_words, work, names, lines, operands, s,
        ),
        InstGroup::AtomicLoad => gen_atomic_load(
            kinds, words, book_kinds, book_words, work, names, lines, operands, s,
        ),
        InstGroup::AtomicStore => gen_atomic_store(
            kinds, words, book_kinds, book_words, work, names, lines, operands, s,
        ),
        InstGroup::Cmpxchg => {
            let wide = require_atomic_width(kinds, words, book_kinds, book_words, work, names, s);
            gen_cmpxchg(kinds, words, names, dest, work, lines, operands, wide)
        }
        InstGroup::ExtractValue => gen_extractvalue(
            kinds, words, names, dest, work, lines, operands, s,
        ),
        InstGroup::Phi | InstGroup::Fence | InstGroup::Other => s,
    }
}

// `gen_inst`: the part begins at the instruction, which stands at the place `at` of the book.
pub fn gen_inst(
    kinds: &[u64],
    words: &[u64],
    book_kinds: &[u64],
    book_words: &[u64],
    at: usize,
    work: &mut [u64],
    names: u64,
    base: u64,
    lines: &mut [u16],
    operands: &mut [u64],
    s: Reached,
) -> Reached
    requires { InstThere names kinds.now words.now book_kinds.now book_words.now at work.old }
    ensures { (c : FnCtx) (i : Inst) → InstAt names i (entries kinds.now words.now) → c.bp_slot ≡ base
        → Maps names (entries book_kinds.now book_words.now) c work.old
        → Did (gen_inst c i) names (entries book_kinds.now book_words.now) c work.new
        s result lines.old operands.old lines.new operands.new }
{
    let group = inst_group(kinds[0]);
    let dest = words[0];
    let body = inst_body(
        group,
        &kinds[1..],
        &words[1..],
        book_kinds,
        book_words,
        at + 1,
        work,
        names,
        dest,
        base,
        lines,
        operands,
        s,
    );
    if stores(group) {
        return store_dest(dest, work, lines, operands, body);
    }
    body
}
