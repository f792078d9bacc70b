// The two passes over the lines: one tests them and counts the bytes, the other stores them if they fit.
ghost use Rattle.std.specs.Prelude.{◌≡◌, ◌&&◌, length};
ghost use Rattle.names.specs.Name.{lines};
ghost use Rattle.assembly.specs.Printer.{print_lines};
ghost use Rattle.print_types.specs.Starts.{Starts};
ghost use Rattle.print.specs.Heads.{book_at, is_fn, first_of, Indexed};
ghost use Rattle.print.specs.Segments.{headed_kinds, stand_from, printed_from};
ghost use Rattle.print.specs.Reply.{Prints};
ghost use Rattle.print.specs.Passes.{passed, Named, one_of};

use crate::segments::{headed, weigh_segments, write_segments};
use book::refusal::Refusal;
use print_words::{word_letters, word_places};

// Weighs the lines and writes them: how many bytes were put from index 0 on. Refuses with 21, then with 20. Those before the first comment line belong to the function named `first`.
fn put_twice(
    names: &[u8],
    starts: &[u64],
    every: bool,
    kinds: &[u64],
    words: &[u64],
    count: u64,
    from: u64,
    to: u64,
    index: &[u16],
    first: u64,
    line_kinds: &[u16],
    operands: &[u64],
    text: &mut [u8],
) -> Result<usize, Refusal>
    requires starts { Starts every names.now starts.now }
    requires named { Named names.now count from to }
    requires indexed { Indexed count kinds.now words.now index.now }
    requires line_kinds_len { length line_kinds.now ≡ length operands.now }
    ensures { Prints (passed (headed_kinds line_kinds.now && stand_from (is_fn count kinds.now words.now) count from to first line_kinds.now operands.now)
        (printed_from (one_of names.now count kinds.now words.now) first line_kinds.now operands.now) text.old) result text.new }
{
    if !headed(line_kinds) {
        return Err(Refusal::BadLine);
    }
    let letters = word_letters();
    let places = word_places();
    let n = weigh_segments(
        text, &places, names, starts, every, kinds, words, count, from, to, index, first,
        line_kinds, operands,
    )?;
    write_segments(
        text, n, &letters, &places, names, starts, every, kinds, words, count, from, to, index,
        first, line_kinds, operands,
    );
    Ok(n)
}

// Prints lines of a book whose functions are noted, of which `first` is the first one's name, as many as both slices hold: refuses with 21, then with 20.
pub fn print_known(
    names: &[u8],
    starts: &[u64],
    every: bool,
    kinds: &[u64],
    words: &[u64],
    count: u64,
    from: u64,
    to: u64,
    index: &[u16],
    first: u64,
    line_kinds: &[u16],
    operands: &[u64],
    text: &mut [u8],
) -> Result<usize, Refusal>
    requires starts { Starts every names.now starts.now }
    requires named { Named names.now count from to }
    requires indexed { Indexed count kinds.now words.now index.now }
    requires first_value { first ≡ first_of count kinds.now words.now }
    ensures { Prints (print_lines (lines names.now) (book_at count kinds.now words.now) line_kinds.now operands.now text.old) result text.new }
{
    let n = line_kinds.len().min(operands.len());
    put_twice(
        names,
        starts,
        every,
        kinds,
        words,
        count,
        from,
        to,
        index,
        first,
        &line_kinds[..n],
        &operands[..n],
        text,
    )
}
