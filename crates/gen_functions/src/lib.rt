#![tactic(auto)]
// The functions of a book, one after the other: for each the words that the last one set are cleared, its own are filled, and its
// lines are put behind the last one's.
ghost use Rattle.std.specs.Prelude.{List, ◌∷◌};
ghost use Rattle.book.specs.Ast.{Function};
ghost use Rattle.book.specs.Entry.{entries};
ghost use Rattle.lowering.specs.Context.{Codegen};
ghost use Rattle.gen_blocks.specs.Function.{FunctionsAt};
ghost use Rattle.gen_prepare.specs.Prepare.{Shared};
ghost use Rattle.gen_clear.specs.Clear.{ClearAsk};
ghost use Rattle.gen_functions.specs.Turns.{TurnAsk, Turned};
ghost use Rattle.gen_functions.specs.Walk.{FunctionsAsk, FunctionsDone};

use gen_clear::clear_function;
use gen_function::gen_function;
use gen_lines::{Reached, refuse};
use gen_prepare::prepare;

// What was reached, and the places between which the entries stand that have set words 0 to 3 of names.
#[derive(Clone, Copy)]
pub struct Turn {
    pub s: Reached,
    pub from: usize,
    pub to: usize,
}

// The function at the place, behind what was reached. The functions end at `last`.
fn gen_turn(
    book_kinds: &[u64],
    book_words: &[u64],
    work: &mut [u64],
    names: u64,
    at: usize,
    last: usize,
    lines: &mut [u16],
    operands: &mut [u64],
    t: Turn,
) -> Turn
    requires { TurnAsk names book_kinds.now book_words.now at last work.old t }
    ensures { (g : Codegen) (f : Function) (fs : List Function) → FunctionsAt names (entries book_kinds.now book_words.now) last at (f ∷ fs)
        → Shared names (entries book_kinds.now book_words.now) g work.old
        → ClearAsk names (entries book_kinds.now book_words.now) t.from t.to work.old
        → Turned g f fs names (entries book_kinds.now book_words.now) last at work.new t result
        lines.old operands.old lines.new operands.new }
{
    let from = t.from;
    let to = t.to;
    clear_function(&book_kinds[from..to], &book_words[from..to], work, names);
    match prepare(book_kinds, book_words, work, names, at, last) {
        Ok(head) => {
            let s = gen_function(
                book_kinds, book_words, head, work, names, lines, operands, t.s,
            );
            Turn {
                s,
                from: at,
                to: head.end,
            }
        }
        Err(e) => Turn {
            s: refuse(t.s, e.refusal),
            from: at,
            to: e.end,
        },
    }
}

// The functions from the place `first` on, up to `last`, behind what was reached. A refusal ends them.
pub fn gen_functions(
    book_kinds: &[u64],
    book_words: &[u64],
    work: &mut [u64],
    names: u64,
    first: usize,
    last: usize,
    lines: &mut [u16],
    operands: &mut [u64],
    t: Turn,
) -> Turn
    requires { FunctionsAsk names book_kinds.now book_words.now first last work.old t }
    ensures { (g : Codegen) (fs : List Function) → FunctionsAt names (entries book_kinds.now book_words.now) last first fs
        → Shared names (entries book_kinds.now book_words.now) g work.old
        → ClearAsk names (entries book_kinds.now book_words.now) t.from t.to work.old
        → FunctionsDone g fs names (entries book_kinds.now book_words.now) work.new t result
        lines.old operands.old lines.new operands.new }
{
    let mut at = first;
    let mut turn = t;
    while at < last {
        turn = gen_turn(
            book_kinds, book_words, work, names, at, last, lines, operands, turn,
        );
        if turn.s.refused != 0 {
            return turn;
        }
        at = turn.to;
    }
    turn
}
