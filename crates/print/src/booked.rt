// The slice of a book that is sound: its kinds and words, and the printing of its lines.
ghost use Rattle.std.specs.Prelude.{◌≡◌};
ghost use Rattle.assembly.specs.Printer.{print};
ghost use Rattle.print.specs.Reply.{Prints};
ghost use Rattle.print.specs.Book.{Booked};

use crate::rooms::print_sound;
use book::refusal::Refusal;

// Prints the lines of a sound book: refuses with 2, 21 and 20 in this order.
pub fn print_booked(
    book: &[u64],
    names: &[u8],
    line_kinds: &[u16],
    operands: &[u64],
    text: &mut [u8],
) -> Result<usize, Refusal>
    requires { Booked book.now }
    ensures { Prints (print book.now names.now line_kinds.now operands.now text.old) result text.new }
{
    let count = book[1];
    let middle = book[0] as usize + 2;
    print_sound(
        &book[2..middle],
        &book[middle..],
        count,
        names,
        line_kinds,
        operands,
        text,
        256,
    )
}
