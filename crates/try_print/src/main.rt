#![tactic(auto)]
// Prints one line of every kind for a function `i32 @f(i32)`, then what else is accepted or refused: the answer, and the text slice
// after the call.
use assembly::line;
use book::entry;
use print::print;
use print_pen::{Pen, put_number};
use std::io;

// 9 entries and 4 names; the kinds, then the words.
const BOOK: [u64; 20] = [
    9,
    4,
    entry::FUNCTION,
    entry::INT,
    entry::PARAM,
    entry::INT,
    entry::END,
    entry::BLOCK,
    entry::UNREACHABLE,
    entry::END,
    entry::END,
    2,
    32,
    0,
    32,
    0,
    1,
    0,
    0,
    0,
];

const NAMES: [u8; 17] = *b"__uvm_time\nb\nf\ng\n";

const LINE_KINDS: [u16; 94] = [
    0, 1, 2, 3, 4, 5, 6, 7, 8, 9, 10, 11, 12, 13, 14, 15, 16, 17, 18, 19, 20, 21, 22, 23, 24, 25,
    26, 27, 28, 29, 30, 31, 32, 33, 34, 35, 36, 37, 38, 39, 40, 41, 42, 43, 44, 45, 46, 47, 48, 49,
    50, 51, 52, 53, 54, 55, 56, 57, 58, 59, 60, 61, 62, 63, 64, 65, 66, 67, 68, 69, 70, 71, 72, 73,
    74, 75, 76, 77, 78, 79, 80, 81, 82, 83, 84, 85, 86, 87, 88, 89, 90, 91, 92, 93,
];

const OPERANDS: [u64; 94] = [
    2, 2, 1, 1, 3, 770, 0, 3, 7, 0, 0, 0, 2, 7, 7, 7, 7, 7, 7, 7, 7, 0, 0, 0, 0, 0, 0, 0, 0, 0, 0,
    0, 0, 0, 0, 0, 0, 0, 0, 0, 0, 0, 0, 0, 0, 0, 0, 0, 0, 0, 0, 0, 0, 0, 0, 0, 0, 0, 0, 0, 0, 0, 0,
    0, 0, 0, 0, 0, 0, 0, 0, 0, 0, 0, 0, 0, 0, 0, 0, 0, 0, 0, 0, 0, 0, 0, 0, 0, 0, 0, 0, 0, 0, 0,
];

// Writes the first n bytes of a text that has so many.
fn write_front(rt: &impl Print, text: &[u8], n: usize) -> io::Result<()> {
    if n <= text.len() {
        rt.write_all(&text[..n])?;
    }
    Ok(())
}

// Writes a number and byte 10.
fn show_number(rt: &impl Print, n: u64) -> io::Result<()> {
    let mut digits = [b' '; 24];
    let pen = put_number(&mut digits, Pen::Writing(0), n);
    if let Pen::Writing(len) = pen {
        write_front(rt, &digits, len)?;
    }
    rt.write_all(b"\n")
}

fn wide(n: usize) -> u64 {
    n as u64
}

// Prints the lines into the text and writes the answer, and then the whole text.
fn show_lent(
    rt: &impl Print,
    book: &[u64],
    names: &[u8],
    line_kinds: &[u16],
    operands: &[u64],
    text: &mut [u8],
) -> io::Result<()> {
    let answer = print(book, names, line_kinds, operands, text);
    match answer {
        Ok(n) => {
            rt.write_all(b"accepted ")?;
            show_number(rt, wide(n))?;
        }
        Err(e) => {
            rt.write_all(b"refused ")?;
            show_number(rt, e.number())?;
        }
    }
    rt.write_all(text)?;
    rt.write_all(b"\n")
}

// The lines of the book above.
fn show(rt: &impl Print, line_kinds: &[u16], operands: &[u64], text: &mut [u8]) -> io::Result<()> {
    show_lent(rt, &BOOK, &NAMES, line_kinds, operands, text)
}

// One line, into a text of 16 bytes.
fn show_line(rt: &impl Print, kind: u16, operand: u64) -> io::Result<()> {
    let mut text = [b'!'; 16];
    show(rt, &[kind], &[operand], &mut text)
}

fn every_kind(rt: &impl Print) -> io::Result<()> {
    let mut text = [b'!'; 966];
    show(rt, &LINE_KINDS, &OPERANDS, &mut text)
}

// Operands that are names.
fn names(rt: &impl Print) -> io::Result<()> {
    show_line(rt, line::COMMENT, 1)?;
    show_line(rt, line::FN_LABEL, 3)?;
    show_line(rt, line::FN_LABEL, 4)?;
    show_line(rt, line::BLOCK_LABEL, 4)?;
    show_line(rt, line::JMP_BLOCK, 4)?;
    show_line(rt, line::PUSH_NAME, 4)?;
    show_line(rt, line::CALL, 1024)?;
    show_line(rt, line::CALL, 1023)?;
    show_line(rt, line::SYSCALL, 0)?;
    show_line(rt, line::SYSCALL, 1)?;
    show_line(rt, line::SYSCALL, 4)
}

// Operands that are numbers.
fn numbers(rt: &impl Print) -> io::Result<()> {
    show_line(rt, line::PUSH_0N, 0)?;
    show_line(rt, line::PUSH_0N, 65535)?;
    show_line(rt, line::PUSH_0N, 65536)?;
    show_line(rt, line::GET_LOCAL, 65536)?;
    show_line(rt, line::SET_LOCAL, 65536)?;
    show_line(rt, line::CALL_FP, 255)?;
    show_line(rt, line::CALL_FP, 256)?;
    show_line(rt, line::ADD_U32, 1)?;
    show_line(rt, line::BLANK, 1)
}

// Kinds that are none.
fn kinds(rt: &impl Print) -> io::Result<()> {
    show_line(rt, line::BLANK, 0)?;
    show_line(rt, 94, 0)?;
    show_line(rt, 65535, 0)
}

// A text of one byte too few, one that is full, and no text.
fn rooms(rt: &impl Print) -> io::Result<()> {
    let mut short = [b'!'; 7];
    show(rt, &[line::PUSH], &[5], &mut short)?;
    let mut full = [b'!'; 8];
    show(rt, &[line::PUSH], &[5], &mut full)?;
    let mut none = [b'!'; 0];
    show(rt, &[line::BLANK], &[0], &mut none)?;
    let mut two = [b'!'; 16];
    show(rt, &[line::PUSH, 94], &[5], &mut two)
}

// One line of a text without room, for what may be no book and no names: 1 before 2 before 21 before 20.
fn show_order(rt: &impl Print, book: &[u64], names: &[u8], kind: u16) -> io::Result<()> {
    let mut text = [b'!'; 2];
    show_lent(rt, book, names, &[kind], &[0], &mut text)
}

fn orders(rt: &impl Print) -> io::Result<()> {
    show_order(rt, &BOOK[..19], b"b\nf", 94)?;
    show_order(rt, &BOOK, b"b\nf", 94)?;
    show_order(rt, &BOOK, &NAMES, 94)?;
    show_order(rt, &BOOK, &NAMES, line::PUSH)
}

// A name of every byte from 32 to 126, and a syscall's: where a name prints by `sanitize` and where as it is.
fn every_byte(rt: &impl Print) -> io::Result<()> {
    let book: [u64; 16] = [
        7,
        2,
        entry::FUNCTION,
        entry::VOID,
        entry::END,
        entry::BLOCK,
        entry::UNREACHABLE,
        entry::END,
        entry::END,
        0,
        0,
        0,
        0,
        0,
        0,
        0,
    ];
    let mut text = [b'!'; 915];
    show_lent(
        rt,
        &book,
        b" !\"#$%&'()*+,-./0123456789:;<=>?@ABCDEFGHIJKLMNOPQRSTUVWXYZ[\\]^_`abcdefghijklmnopqrstuvwxyz{|}~\n__uvm_ !\"#$%&'()*+,-./0123456789:;<=>?@ABCDEFGHIJKLMNOPQRSTUVWXYZ[\\]^_`abcdefghijklmnopqrstuvwxyz{|}~\n",
        &[
            line::COMMENT,
            line::FN_LABEL,
            line::BLOCK_LABEL,
            line::JMP_BLOCK,
            line::PUSH_NAME,
            line::CALL,
            line::SYSCALL,
        ],
        &[0, 0, 0, 0, 0, 1, 1],
        &mut text,
    )
}

// Names with characters of one to four bytes, of a struct, a function that is its own block, and a syscall.
fn every_length(rt: &impl Print) -> io::Result<()> {
    let book: [u64; 20] = [
        9,
        3,
        entry::NAMED_STRUCT,
        entry::OPAQUE,
        entry::FUNCTION,
        entry::NAMED,
        entry::END,
        entry::BLOCK,
        entry::UNREACHABLE,
        entry::END,
        entry::END,
        2,
        0,
        1,
        2,
        0,
        1,
        0,
        0,
        0,
    ];
    let mut text = [b'!'; 115];
    show_lent(
        rt,
        &book,
        b"__uvm_a\xc4\x8d\xe2\x82\xac\xf0\x9f\x8e\xad\na\xc5\xb1\xe2\x82\xac\xf0\x9f\x8e\xad\n\xc5\xa0\xc3\xa1rka\n",
        &[
            line::COMMENT,
            line::FN_LABEL,
            line::BLOCK_LABEL,
            line::JMP_BLOCK,
            line::PUSH_NAME,
            line::CALL,
            line::SYSCALL,
        ],
        &[1, 1, 1, 1, 2, 513, 0],
        &mut text,
    )
}

// Lines of the book above, into a text of 48 bytes.
fn show_lines(rt: &impl Print, line_kinds: &[u16], operands: &[u64]) -> io::Result<()> {
    let mut text = [b'!'; 48];
    show(rt, line_kinds, operands, &mut text)
}

// Before the first comment line a block label or a jump may not stand, but other lines may; the comment may stand twice, and names a function.
fn heads(rt: &impl Print) -> io::Result<()> {
    show_lines(rt, &[line::BLOCK_LABEL, line::COMMENT], &[1, 2])?;
    show_lines(
        rt,
        &[line::PUSH, line::JMP_BLOCK, line::COMMENT],
        &[7, 1, 2],
    )?;
    show_lines(
        rt,
        &[line::PUSH, line::SEL_DONE, line::COMMENT, line::BLOCK_LABEL],
        &[7, 7, 2, 1],
    )?;
    show_lines(
        rt,
        &[line::COMMENT, line::COMMENT, line::JMP_BLOCK],
        &[2, 2, 1],
    )?;
    show_lines(
        rt,
        &[line::COMMENT, line::BLOCK_LABEL, line::COMMENT],
        &[2, 1, 1],
    )
}

fn main(rt: HostRuntime) -> io::Result<()> {
    every_kind(&rt)?;
    names(&rt)?;
    numbers(&rt)?;
    kinds(&rt)?;
    rooms(&rt)?;
    orders(&rt)?;
    every_byte(&rt)?;
    every_length(&rt)?;
    heads(&rt)
}
