// Prints the lines of a sound book with room for what is noted of it: the starts of its names, and the windows of its functions.
ghost use Rattle.std.specs.Prelude.{◌≡◌, ◌<◌, ◌≤◌, length};
ghost use Rattle.names.specs.Name.{lines};
ghost use Rattle.assembly.specs.Printer.{print_lines};
ghost use Rattle.print_types.specs.Starts.{Starts};
ghost use Rattle.print.specs.Heads.{book_at, Decoded, Zeroed};
ghost use Rattle.print.specs.Reply.{Prints};
ghost use Rattle.print.specs.Passes.{Named, with_names};

use crate::heads::{function_place, note_functions};
use crate::passes::print_known;
use book::refusal::Refusal;
use print_types::starts::note_eighths;

// Prints lines with the starts of the names, notes the functions in the lent words. The names from `from` up to and without `to` start `__uvm_`.
fn print_noted(
    kinds: &[u64],
    words: &[u64],
    count: u64,
    from: u64,
    to: u64,
    names: &[u8],
    line_kinds: &[u16],
    operands: &[u64],
    text: &mut [u8],
    starts: &[u64],
    every: bool,
    index: &mut [u16],
) -> Result<usize, Refusal>
    requires decoded { Decoded count kinds.now words.now }
    requires kinds_len_bound { length kinds.now ≤ 1048576 }
    requires named { Named names.now count from to }
    requires starts { Starts every names.now starts.now }
    requires zeroed { Zeroed index.old }
    requires count_in_bounds { count ≤ length index.old }
    ensures { Prints (print_lines (lines names.now) (book_at count kinds.now words.now) line_kinds.now operands.now text.old) result text.new }
{
    note_functions(kinds, words, index);
    let at = function_place(kinds);
    let first = words[at];
    print_known(
        names, starts, every, kinds, words, count, from, to, index, first, line_kinds, operands,
        text,
    )
}

// Prints lines with the start of every name. The check of the names notes these in the lent words, behind the first one's, which is 0.
// Refuses with 2, 21 and 20 in this order.
fn print_every(
    kinds: &[u64],
    words: &[u64],
    count: u64,
    names: &[u8],
    line_kinds: &[u16],
    operands: &[u64],
    text: &mut [u8],
    starts: &mut [u64],
    index: &mut [u16],
) -> Result<usize, Refusal>
    requires decoded { Decoded count kinds.now words.now }
    requires kinds_len_bound { length kinds.now ≤ 1048576 }
    requires count_bound { count ≤ 131072 }
    requires count_in_bounds { count < length starts.old }
    requires zeroed { Zeroed index.old }
    requires count_in_bounds_2 { count ≤ length index.old }
    ensures { Prints (with_names count names.now (book_at count kinds.now words.now) line_kinds.now operands.now text.old) result text.new }
{
    starts[0] = 0;
    let Some(calls) = names_check::read_names(names, count, b"__uvm_", starts, 1, 1) else {
        return Err(Refusal::Names);
    };
    print_noted(
        kinds,
        words,
        count,
        calls.start,
        calls.end,
        names,
        line_kinds,
        operands,
        text,
        starts,
        true,
        index,
    )
}

// The same with words for fewer than N names.
fn print_few<const N: usize>(
    kinds: &[u64],
    words: &[u64],
    count: u64,
    names: &[u8],
    line_kinds: &[u16],
    operands: &[u64],
    text: &mut [u8],
) -> Result<usize, Refusal>
    requires decoded { Decoded count kinds.now words.now }
    requires kinds_len_bound { length kinds.now ≤ 1048576 }
    requires room { N ≤ 2048 }
    requires count_bound { count < N }
    ensures { Prints (with_names count names.now (book_at count kinds.now words.now) line_kinds.now operands.now text.old) result text.new }
{
    let mut starts = [0u64; N];
    let mut index = [0u16; N];
    print_every(
        kinds,
        words,
        count,
        names,
        line_kinds,
        operands,
        text,
        &mut starts,
        &mut index,
    )
}

// The same with the start of every 8th name, by a second pass over the names.
fn print_many(
    kinds: &[u64],
    words: &[u64],
    count: u64,
    names: &[u8],
    line_kinds: &[u16],
    operands: &[u64],
    text: &mut [u8],
) -> Result<usize, Refusal>
    requires decoded { Decoded count kinds.now words.now }
    requires kinds_len_bound { length kinds.now ≤ 1048576 }
    requires count_bound { count ≤ 131072 }
    ensures { Prints (with_names count names.now (book_at count kinds.now words.now) line_kinds.now operands.now text.old) result text.new }
{
    let mut none = [0u64; 0];
    let Some(calls) = names_check::read_names(names, count, b"__uvm_", &mut none, 1, 1) else {
        return Err(Refusal::Names);
    };
    let mut starts = [0u64; 16384];
    let mut index = [0u16; 131072];
    note_eighths(names, &mut starts);
    print_noted(
        kinds,
        words,
        count,
        calls.start,
        calls.end,
        names,
        line_kinds,
        operands,
        text,
        &starts,
        false,
        &mut index,
    )
}

// Prints lines of a sound book with the least room that does, from `room` on: refuses with 2, 21 and 20 in this order. A function with a large
// array touches all of it at each call, and one that is called once becomes a part of its caller, but not of a caller that calls itself: so each
// room has its function, `print_few` one for each N, and this one grows the room by a call.
pub fn print_sound(
    kinds: &[u64],
    words: &[u64],
    count: u64,
    names: &[u8],
    line_kinds: &[u16],
    operands: &[u64],
    text: &mut [u8],
    room: u64,
) -> Result<usize, Refusal>
    requires decoded { Decoded count kinds.now words.now }
    requires kinds_len_bound { length kinds.now ≤ 1048576 }
    requires count_bound { count ≤ 131072 }
    requires room_nonzero { 0 < room }
    ensures { Prints (with_names count names.now (book_at count kinds.now words.now) line_kinds.now operands.now text.old) result text.new }
{
    if 2048 < room {
        return print_many(kinds, words, count, names, line_kinds, operands, text);
    }
    if room <= count {
        return print_sound(
            kinds,
            words,
            count,
            names,
            line_kinds,
            operands,
            text,
            8 * room,
        );
    }
    if 256 < room {
        return print_few::<2048>(kinds, words, count, names, line_kinds, operands, text);
    }
    print_few::<256>(kinds, words, count, names, line_kinds, operands, text)
}
