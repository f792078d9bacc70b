// The text of a type, as the comment of a function has it.
ghost use Rattle.std.specs.Prelude.{◌++◌, ◌<◌, length};
ghost use Rattle.names.specs.Text.{bytes};
ghost use Rattle.names.specs.Name.{lines};
ghost use Rattle.numbers.specs.Digits.{decimal};
ghost use Rattle.book.specs.Entry.{entries};
ghost use Rattle.book.specs.Decode.{type_to};
ghost use Rattle.print_pen.specs.Pen.{Put};
ghost use Rattle.print_types.specs.Starts.{Starts};
ghost use Rattle.print_types.specs.Types.{array_head, sizeless_text, type_bytes, Typed};

use crate::starts::name_of;
use book::entry;
use book_types::types::{TypeGroup, type_group};
use print_pen::{Pen, put_bytes, put_either, put_number};

// Puts what stands before an array's element.
fn put_array_head(text: &mut [u8], pen: Pen, packed: bool, len: u64) -> Pen
    ensures { Put (array_head packed len) pen text.old text.new result }
{
    let open = put_either(text, pen, packed, b"<", b"[");
    let number = put_number(text, open, len);
    put_bytes(text, number, b" x ")
}

// Puts an integer type.
fn put_int(text: &mut [u8], pen: Pen, width: u64) -> Pen
    ensures { Put (bytes "i" ++ decimal width) pen text.old text.new result }
{
    let sign = put_bytes(text, pen, b"i");
    put_number(text, sign, width)
}

// Puts a named struct.
fn put_named(text: &mut [u8], pen: Pen, name: &[u8]) -> Pen
    ensures { Put (bytes "%" ++ name.now) pen text.old text.new result }
{
    let sign = put_bytes(text, pen, b"%");
    put_bytes(text, sign, name)
}

// Puts a type that has no size.
fn put_sizeless(text: &mut [u8], pen: Pen, kind: u64) -> Pen
    ensures { Put (sizeless_text kind) pen text.old text.new result }
{
    match kind {
        entry::FUNC => put_bytes(text, pen, b"fn"),
        entry::LABEL => put_bytes(text, pen, b"label"),
        _ => put_bytes(text, pen, b"metadata"),
    }
}

// Puts the type at the front of the entries, of at most `level` levels.
pub fn put_type(
    text: &mut [u8],
    pen: Pen,
    names: &[u8],
    starts: &[u64],
    every: bool,
    kinds: &[u64],
    words: &[u64],
    level: u32,
) -> Pen
    requires starts { Starts every names.now starts.now }
    requires typed { Typed (length (lines names.now)) level kinds.now words.now }
    ensures { Put (type_bytes (lines names.now) (type_to (length (lines names.now)) level (entries kinds.now words.now))) pen text.old text.new result }
{
    let kind = kinds[0];
    let word = words[0];
    match type_group(kind) {
        TypeGroup::Array(packed) => {
            let head = put_array_head(text, pen, packed, word);
            let elem = put_type(
                text,
                head,
                names,
                starts,
                every,
                &kinds[1..],
                &words[1..],
                level - 1,
            );
            put_either(text, elem, packed, b">", b"]")
        }
        TypeGroup::Void => put_bytes(text, pen, b"void"),
        TypeGroup::Int => put_int(text, pen, word),
        TypeGroup::Ptr => put_bytes(text, pen, b"ptr"),
        TypeGroup::Named => put_named(text, pen, name_of(names, starts, every, word)),
        TypeGroup::Struct(_) => put_bytes(text, pen, b"struct"),
        TypeGroup::Sizeless => put_sizeless(text, pen, kind),
        TypeGroup::Other => put_bytes(text, pen, b""),
    }
}
