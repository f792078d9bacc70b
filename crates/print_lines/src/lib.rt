#![tactic(auto)]
// The text of a line: the word of its kind, what stands for its operand, and its end.
pub mod weigh;

ghost use Rattle.std.specs.Prelude.{◌+◌, ◌<◌, ◌≤◌, length};
ghost use Rattle.names.specs.Name.{lines};
ghost use Rattle.book.specs.Entry.{entries};
ghost use Rattle.book.specs.Decode.{type_to};
ghost use Rattle.print_pen.specs.Pen.{Put};
ghost use Rattle.print_pen.specs.Write.{Wrote};
ghost use Rattle.print_words.specs.Words.{Tables};
ghost use Rattle.print_types.specs.Starts.{Starts};
ghost use Rattle.print_types.specs.Types.{type_bytes, Typed};
ghost use Rattle.print_forms.specs.Forms.{form_of};
ghost use Rattle.print_forms.specs.All.{Ready, AllReady};
ghost use Rattle.print_lines.specs.Lines.{operand_text, parts_text, comment, printed};
ghost use Rattle.print_lines.specs.All.{printed_all};

use assembly::line;
use print_forms::{Form, form_of};
use print_pen::{Pen, put_bytes, put_clean, put_number};
use print_types::starts::name_of;
use print_types::types::put_type;
use print_words::plain::write_plain;
use print_words::{put_block, put_call, put_end, put_params, put_syscall, put_word};

// Puts what stands for the operand x.
fn put_operand(
    text: &mut [u8],
    pen: Pen,
    names: &[u8],
    starts: &[u64],
    every: bool,
    function: &[u8],
    form: Form,
    x: u64,
) -> Pen
    requires starts { Starts every names.now starts.now }
    requires ready { Ready form (lines names.now) x }
    ensures { Put (operand_text (lines names.now) function.now form x) pen text.old text.new result }
{
    match form {
        Form::Name => put_clean(text, pen, name_of(names, starts, every, x)),
        Form::Block => put_block(text, pen, function, name_of(names, starts, every, x)),
        Form::Call => put_call(text, pen, name_of(names, starts, every, x / 256), x % 256),
        Form::Syscall => put_syscall(text, pen, name_of(names, starts, every, x)),
        Form::Count | Form::Any | Form::Slot | Form::Args => put_number(text, pen, x),
        Form::Comment | Form::Bare | Form::Unknown => put_bytes(text, pen, b""),
    }
}

// Puts a line that has an operand.
fn put_parts(
    text: &mut [u8],
    pen: Pen,
    letters: &[u8],
    places: &[u16],
    names: &[u8],
    starts: &[u64],
    every: bool,
    function: &[u8],
    kind: u16,
    x: u64,
) -> Pen
    requires tables { Tables letters.now places.now }
    requires starts { Starts every names.now starts.now }
    requires ready { Ready (form_of kind) (lines names.now) x }
    requires kind_bound { kind < 94 }
    ensures { Put (parts_text (lines names.now) function.now kind x) pen text.old text.new result }
{
    let word = put_word(text, pen, letters, places, kind);
    let operand = put_operand(text, word, names, starts, every, function, form_of(kind), x);
    put_end(text, operand, kind)
}

// Puts a function's opening comment; its return type stands at the front of the entries.
fn put_comment(
    text: &mut [u8],
    pen: Pen,
    names: &[u8],
    starts: &[u64],
    every: bool,
    function: &[u8],
    kinds: &[u64],
    words: &[u64],
    params: u64,
) -> Pen
    requires starts { Starts every names.now starts.now }
    requires typed { Typed (length (lines names.now)) 64 kinds.now words.now }
    ensures { Put (comment function.now (type_bytes (lines names.now) (type_to (length (lines names.now)) 64 (entries kinds.now words.now))) params) pen text.old text.new result }
{
    let sign = put_bytes(text, pen, b"# ");
    let ty = put_type(text, sign, names, starts, every, kinds, words, 64);
    let at = put_bytes(text, ty, b" @");
    let name = put_bytes(text, at, function);
    put_params(text, name, params)
}

// Puts a line that names something.
fn put_line(
    text: &mut [u8],
    pen: Pen,
    letters: &[u8],
    places: &[u16],
    names: &[u8],
    starts: &[u64],
    every: bool,
    function: &[u8],
    kinds: &[u64],
    words: &[u64],
    params: u64,
    kind: u16,
    x: u64,
) -> Pen
    requires tables { Tables letters.now places.now }
    requires starts { Starts every names.now starts.now }
    requires typed { Typed (length (lines names.now)) 64 kinds.now words.now }
    requires ready { Ready (form_of kind) (lines names.now) x }
    requires kind_bound { kind < 7 }
    ensures { Put (printed (lines names.now) function.now (type_bytes (lines names.now) (type_to (length (lines names.now)) 64 (entries kinds.now words.now))) params kind x) pen text.old text.new result }
{
    if kind == line::COMMENT {
        return put_comment(
            text, pen, names, starts, every, function, kinds, words, params,
        );
    }
    put_parts(
        text, pen, letters, places, names, starts, every, function, kind, x,
    )
}

// Writes a line, where it is known that it fits.
fn write_line(
    text: &mut [u8],
    at: usize,
    end: usize,
    letters: &[u8],
    places: &[u16],
    names: &[u8],
    starts: &[u64],
    every: bool,
    function: &[u8],
    kinds: &[u64],
    words: &[u64],
    params: u64,
    kind: u16,
    x: u64,
) -> usize
    requires tables { Tables letters.now places.now }
    requires starts { Starts every names.now starts.now }
    requires typed { Typed (length (lines names.now)) 64 kinds.now words.now }
    requires ready { Ready (form_of kind) (lines names.now) x }
    requires kind_bound { kind < 94 }
    requires x_bound { at + length (printed (lines names.now) function.now (type_bytes (lines names.now) (type_to (length (lines names.now)) 64 (entries kinds.now words.now))) params kind x) ≤ end }
    requires end_in_bounds { end ≤ length text.old }
    ensures { Wrote (printed (lines names.now) function.now (type_bytes (lines names.now) (type_to (length (lines names.now)) 64 (entries kinds.now words.now))) params kind x) at end text.old text.new result }
{
    if line::PUSH_0N <= kind {
        return write_plain(text, at, end, letters, places, kind, x);
    }
    let Pen::Writing(next) = put_line(
        text,
        Pen::Writing(at),
        letters,
        places,
        names,
        starts,
        every,
        function,
        kinds,
        words,
        params,
        kind,
        x,
    ) else {
        return at;
    };
    next
}

// Writes as many lines as both slices hold from the index `start` on, where it is known that they fit: gives the index behind them.
pub fn write_lines(
    text: &mut [u8],
    start: usize,
    end: usize,
    letters: &[u8],
    places: &[u16],
    names: &[u8],
    starts: &[u64],
    every: bool,
    function: &[u8],
    kinds: &[u64],
    words: &[u64],
    params: u64,
    line_kinds: &[u16],
    operands: &[u64],
) -> usize
    requires tables { Tables letters.now places.now }
    requires starts { Starts every names.now starts.now }
    requires typed { Typed (length (lines names.now)) 64 kinds.now words.now }
    requires all_ready { AllReady (lines names.now) line_kinds.now operands.now }
    requires operands_bound { start + length (printed_all (printed (lines names.now) function.now (type_bytes (lines names.now) (type_to (length (lines names.now)) 64 (entries kinds.now words.now))) params) line_kinds.now operands.now) ≤ end }
    requires end_in_bounds { end ≤ length text.old }
    ensures { Wrote (printed_all (printed (lines names.now) function.now (type_bytes (lines names.now) (type_to (length (lines names.now)) 64 (entries kinds.now words.now))) params) line_kinds.now operands.now) start end text.old text.new result }
{
    let mut at = start;
    for i in 0..line_kinds.len().min(operands.len()) {
        at = write_line(
            text,
            at,
            end,
            letters,
            places,
            names,
            starts,
            every,
            function,
            kinds,
            words,
            params,
            line_kinds[i],
            operands[i],
        );
    }
    at
}
