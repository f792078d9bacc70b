#![tactic(auto)]
// A value with its type among an instruction's fields.
ghost use Rattle.std.specs.Prelude.{◌≡◌, List, ◌∷◌, ℕ};
ghost use Rattle.book.specs.Entry.{entries};
ghost use Rattle.book.specs.Fields.{Item, Field, Meanings};
ghost use Rattle.lowering.specs.Context.{FnCtx};
ghost use Rattle.lowering.specs.Operand.{push_typed};
ghost use Rattle.layout_memo.specs.Front.{ty_len};
ghost use Rattle.gen_lines.specs.Puts.{Puts};
ghost use Rattle.gen_values.specs.Maps.{Locals};
ghost use Rattle.gen_values.specs.Fields.{Fields};
ghost use Rattle.gen_fields.specs.Places.{TypedAt};

use gen_lines::Reached;
use gen_values::{need_width, push_value};

// A value at its type's width: the type is at the front, and the value stands behind it, at the place `at`.
pub fn push_typed(
    kinds: &[u64],
    words: &[u64],
    at: usize,
    work: &[u64],
    lines: &mut [u16],
    operands: &mut [u64],
    s: Reached,
) -> Reached
    requires { TypedAt kinds.now words.now 0 at work.now }
    ensures { (m : ℕ) (c : FnCtx) (fs : List Field) (p : Meanings (Field.plain Item.type ∷ Field.plain Item.value ∷ fs))
        → Fields m (Field.plain Item.type ∷ Field.plain Item.value ∷ fs) p (entries kinds.now words.now)
        → at ≡ ty_len m (entries kinds.now words.now) → Locals c m work.now
        → Puts (push_typed c p.0 p.1.0) s result lines.old operands.old lines.new operands.new }
{
    let wide = need_width(kinds, words, s);
    push_value(
        &kinds[at..],
        &words[at..],
        wide.width,
        work,
        lines,
        operands,
        wide.s,
    )
}
