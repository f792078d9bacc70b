#![tactic(auto)]
// `gen_select`, lent the rest of the entries from the first field of its instruction.
ghost use Rattle.book.specs.Entry.{entries};
ghost use Rattle.book.specs.Fields.{Meanings};
ghost use Rattle.lowering.specs.Context.{FnCtx};
ghost use Rattle.lowering.specs.Arith.{gen_select};
ghost use Rattle.gen_lines.specs.Puts.{Puts};
ghost use Rattle.gen_values.specs.Maps.{Locals};
ghost use Rattle.gen_values.specs.Fields.{Fields};
ghost use Rattle.gen_arith.specs.Arith.{There};
ghost use Rattle.gen_select.specs.Select.{selected};

use assembly::line;
use gen_lines::{Reached, fresh, label, put};
use gen_values::{need_width, push_value};
use layout_memo::skip;

// `gen_select`: two labels, the condition at 1 bit, one side or the other.
pub fn gen_select(
    kinds: &[u64],
    words: &[u64],
    names: u64,
    work: &[u64],
    lines: &mut [u16],
    operands: &mut [u64],
    s: Reached,
) -> Reached
    requires { There selected names (entries kinds.now words.now) work.now }
    ensures { (c : FnCtx) → Locals c names work.now → (p : Meanings selected)
        → Fields names selected p (entries kinds.now words.now)
        → Puts (gen_select c p.0 p.1.0 p.1.1.0 p.1.1.1.0) s result lines.old operands.old lines.new operands.new }
{
    let type_kinds = &kinds[1..];
    let type_words = &words[1..];
    let on_true = 1 + skip(type_kinds, type_words, names);
    let otherwise = on_true + 1;
    let true_kinds = &kinds[on_true..];
    let true_words = &words[on_true..];
    let false_kinds = &kinds[otherwise..];
    let false_words = &words[otherwise..];
    let wide = need_width(type_kinds, type_words, s);
    let width = wide.width;
    let first = wide.s;
    let on_false = label(first);
    let second = fresh(first, 1);
    let on_done = label(second);
    let labelled = fresh(second, 1);
    let tested = push_value(kinds, words, 1, work, lines, operands, labelled);
    let jumped = put(lines, operands, tested, line::JZ_SEL_FALSE, on_false);
    let taken = push_value(true_kinds, true_words, width, work, lines, operands, jumped);
    let left = put(lines, operands, taken, line::JMP_SEL_DONE, on_done);
    let other = put(lines, operands, left, line::SEL_FALSE, on_false);
    let second_value = push_value(
        false_kinds,
        false_words,
        width,
        work,
        lines,
        operands,
        other,
    );
    put(lines, operands, second_value, line::SEL_DONE, on_done)
}
