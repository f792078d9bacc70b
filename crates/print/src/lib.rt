#![tactic(auto)]
// The printer: lines of the stack machine, as kinds and operands, become text.
pub mod booked;
pub mod heads;
pub mod params;
pub mod passes;
pub mod rooms;
pub mod segments;

ghost use Rattle.assembly.specs.Printer.{print};
ghost use Rattle.print.specs.Reply.{PrintAnswer, Numbered};

use crate::booked::print_booked;
use book::refusal::Refusal;

// Prints the lines of a book as text: refuses with 1, 2, 21 and 20 in this order, and then changes nothing.
pub fn print(
    book: &[u64],
    names: &[u8],
    line_kinds: &[u16],
    operands: &[u64],
    text: &mut [u8],
) -> Result<usize, Refusal>
    ensures print_answer { PrintAnswer (print book.now names.now line_kinds.now operands.now text.old) result text.new }
    ensures numbered { Numbered result }
{
    if !book_check::check_book(book) {
        return Err(Refusal::Book);
    }
    print_booked(book, names, line_kinds, operands, text)
}
