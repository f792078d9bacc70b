#![tactic(auto)]
// The boundary for C and Rust: each function lends its slices on and gives document 01's numbers.
ghost use Rattle.std.specs.Prelude.{◌≡◌};
ghost use Rattle.book.specs.Check.{checked, refusal_of};
ghost use Rattle.assembly.specs.Printer.{print};
ghost use Rattle.lowering.specs.Translate.{translate};
ghost use Rattle.translate.specs.Reply.{Answers};
ghost use Rattle.print.specs.Reply.{PrintAnswers};

// The first of refusals 1 to 4 that applies to the lent book, names, counter and length of a work slice; 0 where
// none does.
#[unsafe(no_mangle)]
pub extern "C" fn mivolanjy_check(book: &[u64], names: &[u8], counter: u64, work: usize) -> u64
    ensures { result ≡ refusal_of (checked book.now names.now counter work) }
{
    match book_check::check(book, names, counter, work) {
        Ok(()) => 0,
        Err(refusal) => refusal.number(),
    }
}

// Translates the lent book into lines. The answer is the refusal's number, 0 where there is none; `lines` is the number of lines, and the
// next counter is the one that was lent where the book is refused.
#[unsafe(no_mangle)]
pub extern "C" fn mivolanjy_translate(
    book: &[u64],
    names: &[u8],
    counter: u64,
    work: &mut [u64],
    kinds: &mut [u16],
    operands: &mut [u64],
    lines: &mut u64,
    next: &mut u64,
) -> u64
    ensures { Answers counter (translate book.now names.now counter work.old kinds.old operands.old)
        result lines.new next.new work.new kinds.new operands.new }
{
    match translate::translate(book, names, counter, work, kinds, operands) {
        Ok(t) => {
            *lines = t.lines as u64;
            *next = t.counter;
            0
        }
        Err(e) => {
            *lines = 0;
            *next = counter;
            e.number()
        }
    }
}

// Prints the lines of the lent book into the text. The answer is the refusal's number, 0 where there is none; the count is that of the
// bytes written.
#[unsafe(no_mangle)]
pub extern "C" fn mivolanjy_print(
    book: &[u64],
    names: &[u8],
    line_kinds: &[u16],
    operands: &[u64],
    text: &mut [u8],
    count: &mut u64,
) -> u64
    ensures { PrintAnswers (print book.now names.now line_kinds.now operands.now text.old)
        result count.new text.new }
{
    match print::print(book, names, line_kinds, operands, text) {
        Ok(n) => {
            *count = n as u64;
            0
        }
        Err(e) => {
            *count = 0;
            e.number()
        }
    }
}
