#![tactic(auto)]
// The pieces of a line: its word, which is the whole line where there is no operand, what names a block or a call, and its end.
pub mod plain;

ghost use Rattle.std.specs.Prelude.{◌≡◌, ◌++◌, ◌<◌, ◌≤◌, length, drop};
ghost use Rattle.numbers.specs.Digits.{decimal};
ghost use Rattle.names.specs.Text.{bytes};
ghost use Rattle.names.specs.Spelling.{sanitize};
ghost use Rattle.print_pen.specs.Pen.{Put};
ghost use Rattle.print_words.specs.Words.{word, word_letters, word_places, Tables};
ghost use Rattle.print_words.specs.Ends.{is_label, ending, params_text};

use assembly::line;
use print_pen::{Pen, put_bytes, put_clean, put_either, put_number};

// The word of kind k has PLACES[k] % 32 letters, from place PLACES[k] / 32 on.
const PLACES: [u16; 94] = [
    2, 64, 64, 68, 197, 357, 520, 776, 1029, 1192, 1450, 1770, 2088, 2348, 2731, 3083, 3434, 3759,
    4239, 4718, 5166, 5609, 5897, 6185, 6473, 6761, 7049, 7337, 7625, 7912, 8169, 8460, 8844, 9228,
    9608, 9864, 10120, 10376, 10632, 10888, 11144, 11400, 11656, 11912, 12169, 12457, 12745, 13033,
    13321, 13609, 13897, 14185, 14472, 14729, 15020, 15404, 15788, 16168, 16424, 16680, 16936,
    17192, 17448, 17704, 17960, 18216, 18472, 18730, 19051, 19403, 19755, 20108, 20491, 20844,
    21228, 21609, 21898, 22218, 22538, 22858, 23179, 23531, 23883, 24241, 24786, 25360, 25872,
    26373, 26533, 26693, 26855, 27086, 27534, 27969,
];

// The letters of all words, and 24 more, so that 24 stand from every word's start on.
pub fn word_letters() -> [u8; 899]
    ensures { result ≡ word_letters }
{
    *b"# jmp push call syscall push_0n push get_arg get_local set_local call_fp __sel_false___sel_done___br_false___sw_case_jz __sel_false_jmp __sel_done_jz __br_false_jnz __sw_case_add_u32;\nsub_u32;\nmul_u32;\ndiv_u32;\ndiv_i32;\nmod_u32;\nmod_i32;\nand_u32;\nor_u32;\nxor_u32;\nlshift_u32;\nrshift_u32;\nrshift_i32;\neq_u32;\nne_u32;\ngt_u32;\nge_u32;\nlt_u32;\nle_u32;\ngt_i32;\nge_i32;\nlt_i32;\nle_i32;\nadd_u64;\nsub_u64;\nmul_u64;\ndiv_u64;\ndiv_i64;\nmod_u64;\nmod_i64;\nand_u64;\nor_u64;\nxor_u64;\nlshift_u64;\nrshift_u64;\nrshift_i64;\neq_u64;\nne_u64;\ngt_u64;\nge_u64;\nlt_u64;\nle_u64;\ngt_i64;\nge_i64;\nlt_i64;\nle_i64;\ntrunc_u8;\ntrunc_u16;\ntrunc_u32;\nsx_i8_i32;\nsx_i16_i32;\nsx_i8_i64;\nsx_i16_i64;\nsx_i32_i64;\nload_u8;\nload_u16;\nload_u32;\nload_u64;\nstore_u8;\nstore_u16;\nstore_u32;\nstore_u64;\natomic_load_u64;\natomic_store_u64;\natomic_cas_u64;\nsyscall memcmp;\ndup;\npop;\nret;\npanic;\nthread_get 0;\nthread_set 0;\n\n------------------------"
}

// Where each word stands among the letters. Both tables are made once in a call: the machine makes them anew where they are named.
pub fn word_places() -> [u16; 94]
    ensures { result ≡ word_places }
{
    PLACES
}

// Puts the word of a line's kind.
pub fn put_word(text: &mut [u8], pen: Pen, letters: &[u8], places: &[u16], kind: u16) -> Pen
    requires tables { Tables letters.now places.now }
    requires kind_bound { kind < 94 }
    ensures { Put (word kind) pen text.old text.new result }
{
    let both = usize::from(places[usize::from(kind)]);
    let start = both / 32;
    let end = start + both % 32;
    put_bytes(text, pen, &letters[start..end])
}

// Whether the line is a label; by no branch, since which lines are is hard to foresee.
fn is_label(kind: u16) -> bool
    ensures { result ≡ is_label kind }
{
    ((line::FN_LABEL <= kind) & (kind <= line::BLOCK_LABEL))
        | ((line::SEL_FALSE <= kind) & (kind <= line::SW_CASE))
}

// Puts what ends a line with an operand.
pub fn put_end(text: &mut [u8], pen: Pen, kind: u16) -> Pen
    ensures { Put (ending kind) pen text.old text.new result }
{
    put_either(text, pen, is_label(kind), b":\n", b";\n")
}

// Puts a block's label: `fn__block`.
pub fn put_block(text: &mut [u8], pen: Pen, function: &[u8], block: &[u8]) -> Pen
    ensures { Put (sanitize function.now ++ (bytes "__" ++ sanitize block.now)) pen text.old text.new result }
{
    let first = put_clean(text, pen, function);
    let between = put_bytes(text, first, b"__");
    put_clean(text, between, block)
}

// Puts what a call names, and its number of arguments.
pub fn put_call(text: &mut [u8], pen: Pen, name: &[u8], args: u64) -> Pen
    ensures { Put (sanitize name.now ++ (bytes ", " ++ decimal args)) pen text.old text.new result }
{
    let first = put_clean(text, pen, name);
    let between = put_bytes(text, first, b", ");
    put_number(text, between, args)
}

// Puts a name without its first six bytes, `__uvm_`.
pub fn put_syscall(text: &mut [u8], pen: Pen, name: &[u8]) -> Pen
    requires { 6 ≤ length name.now }
    ensures { Put (drop 6 name.now) pen text.old text.new result }
{
    put_bytes(text, pen, &name[6..])
}

// Puts how many parameters there are, and the end of the comment.
pub fn put_params(text: &mut [u8], pen: Pen, params: u64) -> Pen
    ensures { Put (params_text params) pen text.old text.new result }
{
    let open = put_bytes(text, pen, b"(");
    let number = put_number(text, open, params);
    put_bytes(text, number, b" params)\n")
}
