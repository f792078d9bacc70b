// `switch`: a test for each case, the default edge, then a label and an edge for each case.
ghost use Rattle.std.specs.Prelude.{◌≡◌, ℕ, suc, ◌+◌, ◌%◌, ◌^◌, List, ◌∷◌, length, drop};
ghost use Rattle.book.specs.Ast.{Ty, Value, Case};
ghost use Rattle.book.specs.Entry.{entries};
ghost use Rattle.book.specs.Kinds.{TermTag};
ghost use Rattle.book.specs.Fields.{term_fields};
ghost use Rattle.lowering.specs.Context.{FnCtx};
ghost use Rattle.lowering.specs.Term.{case_tests, case_edges, gen_switch};
ghost use Rattle.gen_lines.specs.Puts.{Puts};
ghost use Rattle.gen_values.specs.Fields.{Fields, ValueAt, OperandAt};
ghost use Rattle.gen_values.specs.Maps.{Locals, Maps};
ghost use Rattle.gen_edge.specs.Edges.{EdgeAsk};
ghost use Rattle.gen_term.specs.Toward.{Toward};
ghost use Rattle.gen_term.specs.Terms.{Cases};
ghost use Rattle.gen_term.specs.Switches.{CasesAsk, TestsAsk, EdgesAsk, SwitchAsk};

use assembly::line;
use book::entry;
use book::ops::ICmpPred;
use gen_edge::edge;
use gen_lines::{Reached, fresh, put};
use gen_values::{icmp_line, need_width, push_int, push_value};
use layout_memo::skip;

// The number of cases. A loop, here as for their tests and edges, since its end is an entry and not the slice's.
fn count_cases(kinds: &[u64], words: &[u64]) -> u64
    requires { CasesAsk kinds.now words.now }
    ensures { (m : ℕ) (cs : List Case) → Cases m cs (entries kinds.now words.now) → result ≡ length cs }
{
    let mut at: usize = 0;
    let mut cases: u64 = 0;
    while kinds[at] != entry::END {
        at += 2;
        cases += 1;
    }
    cases
}

// The label of the next case.
fn next_label(label: u64) -> u64
    ensures { result ≡ (label + 1) % 2 ^ 64 }
{
    label.wrapping_add(1)
}

// The test of a case: the value at the front, the case's number, equal, a jump to the case's label.
fn case_test(
    kinds: &[u64],
    words: &[u64],
    width: u32,
    value: u64,
    label: u64,
    work: &[u64],
    lines: &mut [u16],
    operands: &mut [u64],
    s: Reached,
) -> Reached
    requires { OperandAt kinds.now words.now 0 work.now }
    ensures { (m : ℕ) (c : FnCtx) (v : Value) (l : ℕ) (k : Case) (more : List Case) → ValueAt m kinds.now words.now 0 v → Locals c m work.now
        → label ≡ l % 2 ^ 64 → value ≡ k.value
        → Toward (case_tests c width v l (k ∷ more)) (case_tests c width v (suc l) more) s result
        lines.old operands.old lines.new operands.new }
{
    let pushed = push_value(kinds, words, width, work, lines, operands, s);
    let both = push_int(value, width, lines, operands, pushed);
    let tested = put(lines, operands, both, icmp_line(ICmpPred::Eq, width), 0);
    put(lines, operands, tested, line::JNZ_SW_CASE, label)
}

// The tests of all cases, whose labels count up from the first: the value is at the front of its part, the cases are in theirs.
fn case_tests(
    kinds: &[u64],
    words: &[u64],
    width: u32,
    first: u64,
    case_kinds: &[u64],
    case_words: &[u64],
    work: &[u64],
    lines: &mut [u16],
    operands: &mut [u64],
    s: Reached,
) -> Reached
    requires { TestsAsk kinds.now words.now case_kinds.now case_words.now work.now }
    ensures { (m : ℕ) (c : FnCtx) (v : Value) (l : ℕ) (cs : List Case) → ValueAt m kinds.now words.now 0 v → Locals c m work.now
        → Cases m cs (entries case_kinds.now case_words.now) → first ≡ l % 2 ^ 64
        → Puts (case_tests c width v l cs) s result lines.old operands.old lines.new operands.new }
{
    let mut reached = s;
    let mut label = first;
    let mut at: usize = 0;
    while case_kinds[at] != entry::END {
        reached = case_test(
            kinds,
            words,
            width,
            case_words[at],
            label,
            work,
            lines,
            operands,
            reached,
        );
        label = next_label(label);
        at += 2;
    }
    reached
}

// The edge of a case, behind its label.
fn case_edge(
    pred: u64,
    succ: u64,
    label: u64,
    book_kinds: &[u64],
    book_words: &[u64],
    names: u64,
    work: &[u64],
    lines: &mut [u16],
    operands: &mut [u64],
    s: Reached,
) -> Reached
    requires { EdgeAsk names succ book_kinds.now book_words.now work.now }
    ensures { (c : FnCtx) (l : ℕ) (k : Case) (more : List Case) → Maps names (entries book_kinds.now book_words.now) c work.now
        → label ≡ l % 2 ^ 64 → succ ≡ k.label
        → Toward (case_edges c pred l (k ∷ more)) (case_edges c pred (suc l) more) s result
        lines.old operands.old lines.new operands.new }
{
    let labelled = put(lines, operands, s, line::SW_CASE, label);
    edge(
        pred, succ, book_kinds, book_words, names, work, lines, operands, labelled,
    )
}

// The edges of all cases.
fn case_edges(
    pred: u64,
    first: u64,
    kinds: &[u64],
    words: &[u64],
    book_kinds: &[u64],
    book_words: &[u64],
    names: u64,
    work: &[u64],
    lines: &mut [u16],
    operands: &mut [u64],
    s: Reached,
) -> Reached
    requires { EdgesAsk names kinds.now words.now book_kinds.now book_words.now work.now }
    ensures { (c : FnCtx) (l : ℕ) (cs : List Case) → Maps names (entries book_kinds.now book_words.now) c work.now
        → Cases names cs (entries kinds.now words.now) → first ≡ l % 2 ^ 64
        → Puts (case_edges c pred l cs) s result lines.old operands.old lines.new operands.new }
{
    let mut reached = s;
    let mut label = first;
    let mut at: usize = 0;
    while kinds[at] != entry::END {
        reached = case_edge(
            pred,
            words[at + 1],
            label,
            book_kinds,
            book_words,
            names,
            work,
            lines,
            operands,
            reached,
        );
        label = next_label(label);
        at += 2;
    }
    reached
}

// `switch`
pub fn gen_switch(
    pred: u64,
    kinds: &[u64],
    words: &[u64],
    book_kinds: &[u64],
    book_words: &[u64],
    names: u64,
    work: &[u64],
    lines: &mut [u16],
    operands: &mut [u64],
    s: Reached,
) -> Reached
    requires { SwitchAsk names kinds.now words.now book_kinds.now book_words.now work.now }
    ensures { (c : FnCtx) (ty : Ty) (val : Value) (default : ℕ) (cs : List Case)
        → Fields names (term_fields TermTag.switch) (ty, (val, (default, (cs, tt)))) (drop 1 (entries kinds.now words.now))
        → Maps names (entries book_kinds.now book_words.now) c work.now
        → Puts (gen_switch c pred ty val default cs) s result lines.old operands.old lines.new operands.new }
{
    let type_kinds = &kinds[1..];
    let type_words = &words[1..];
    let at = skip(type_kinds, type_words, names);
    let wide = need_width(type_kinds, type_words, s);
    let value_kinds = &type_kinds[at..];
    let value_words = &type_words[at..];
    let case_kinds = &value_kinds[2..];
    let case_words = &value_words[2..];
    let known = wide.s;
    let label = known.counter;
    let made = fresh(known, count_cases(case_kinds, case_words));
    let tested = case_tests(
        value_kinds,
        value_words,
        wide.width,
        label,
        case_kinds,
        case_words,
        work,
        lines,
        operands,
        made,
    );
    let gone = edge(
        pred,
        value_words[1],
        book_kinds,
        book_words,
        names,
        work,
        lines,
        operands,
        tested,
    );
    case_edges(
        pred, label, case_kinds, case_words, book_kinds, book_words, names, work, lines, operands,
        gone,
    )
}
