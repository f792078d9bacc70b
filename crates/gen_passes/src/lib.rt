#![tactic(auto)]
// The lines of a sound book's functions: a pass into slices of our own finds every refusal, and where the lines of all fit, they are
// copied or made again.
ghost use Rattle.std.specs.Prelude.{◌≡◌, ◌≤◌, List, ℕ, min, length};
ghost use Rattle.std.proofs.Math.Option.{some};
ghost use Rattle.names.specs.Name.{names_of};
ghost use Rattle.book.specs.Ast.{Book};
ghost use Rattle.book.specs.Decode.{decode};
ghost use Rattle.book.specs.Entry.{entries};
ghost use Rattle.lowering.specs.Context.{codegen_of};
ghost use Rattle.lowering.specs.Function.{gen_functions};
ghost use Rattle.lowering.specs.Translate.{over};
ghost use Rattle.gen_slices.specs.Fits.{FitOf};
ghost use Rattle.gen_passes.specs.Reply.{by_number};
ghost use Rattle.gen_passes.specs.Passes.{fitted, Answered, PassAsk, Passed};
ghost use Rattle.gen_passes.specs.Generate.{GenerateAsk};

use book::refusal::Refusal;
use gen_functions::{Turn, gen_functions};
use gen_lines::Reached;
use gen_prepare::prepare_book;
use gen_slices::{copy, lines_fit};

// What was translated: the number of lines and the next label counter.
#[derive(Clone, Copy, Debug, PartialEq, Eq)]
pub struct Translation {
    pub lines: usize,
    pub counter: u64,
}

// How many lines a pass has counted, where they fit slices of these lengths, or the refusal whose number `lines_fit` tells.
fn counted_lines(counted: Reached, lines: usize, operands: usize) -> Result<usize, Refusal>
    requires { counted.refused ≤ 20 }
    ensures { FitOf counted lines operands (by_number result) }
{
    match lines_fit(counted, lines, operands) {
        Ok(many) => Ok(many),
        Err(number) => Err(Refusal::try_from(number).unwrap()),
    }
}

// A pass into slices of our own finds every refusal and the number of lines. Those that fit there are copied, others are
// made again, into the lent slices.
fn pass_over(
    book_kinds: &[u64],
    book_words: &[u64],
    first: usize,
    last: usize,
    work: &mut [u64],
    names: u64,
    counter: u64,
    lines: &mut [u16],
    operands: &mut [u64],
    own_lines: &mut [u16],
    own_operands: &mut [u64],
) -> Result<Translation, Refusal>
    requires pass_ask { PassAsk names book_kinds.now book_words.now first last work.old }
    requires own_lines_len { length own_lines.old ≡ length own_operands.old }
    ensures { Passed names book_kinds.now book_words.now first last counter work.old
        result lines.old operands.old lines.new operands.new }
{
    let start = Reached {
        at: 0,
        counter,
        refused: 0,
    };
    let none = Turn {
        s: start,
        from: 0,
        to: 0,
    };
    let counted = gen_functions(
        book_kinds,
        book_words,
        work,
        names,
        first,
        last,
        own_lines,
        own_operands,
        none,
    );
    let many = counted_lines(counted.s, lines.len(), operands.len())?;
    if many <= own_lines.len() {
        copy(own_lines, lines, many);
        copy(own_operands, operands, many);
    } else {
        let again = Turn {
            s: start,
            from: counted.from,
            to: counted.to,
        };
        gen_functions(
            book_kinds, book_words, work, names, first, last, lines, operands, again,
        );
    }
    Ok(Translation {
        lines: many,
        counter: counted.s.counter,
    })
}

// The lines of a sound book's functions. The work words are 0 but for the starts of names; the first pass goes into the slices of our
// own, which are as long as each other.
pub fn generate(
    book_kinds: &[u64],
    book_words: &[u64],
    names: &[u8],
    count: u64,
    counter: u64,
    work: &mut [u64],
    lines: &mut [u16],
    operands: &mut [u64],
    own_lines: &mut [u16],
    own_operands: &mut [u64],
) -> Result<Translation, Refusal>
    requires generate_ask { GenerateAsk names.now count book_kinds.now book_words.now work.old }
    requires own_lines_len { length own_lines.old ≡ length own_operands.old }
    ensures { (ns : List (List ℕ)) (b : Book) → names_of names.now ≡ some ns
        → decode count (entries book_kinds.now book_words.now) ≡ some b
        → Answered (fitted (gen_functions (codegen_of ns b) b.functions counter) (min (length lines.old) (length operands.old)))
        result lines.old operands.old lines.new operands.new }
{
    let first = prepare_book(book_kinds, book_words, names, work, count);
    pass_over(
        book_kinds,
        book_words,
        first,
        book_kinds.len() - 1,
        work,
        count,
        counter,
        lines,
        operands,
        own_lines,
        own_operands,
    )
}
