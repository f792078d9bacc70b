#![tactic(auto)]
// The names that come with a book: where each of them ends, and what their spelling says.
pub mod utf8;

ghost use Rattle.std.specs.Prelude.{◌≡◌, ◌+◌, length};
ghost use Rattle.names.specs.Text.{starts};
ghost use Rattle.names.specs.Name.{name_from};
ghost use Rattle.names.specs.Utf8.{is_tail};
ghost use Rattle.names.specs.Spelling.{word_byte, clean_byte, sanitize};

// The byte that ends a name.
pub const END: u8 = 10;

// The index of the byte that ends the name at `at`, or the number of bytes where none does. From behind the bytes it is `at`.
pub fn name_end(names: &[u8], at: usize) -> usize
    ensures { result ≡ at + length (name_from names.now at) }
{
    for i in at..names.len() {
        if names[i] == END {
            return i;
        }
    }
    at.max(names.len())
}

// Whether the name at `at` starts with the text, without a search for the name's end: `starts_with` of a slice up to there takes longer.
pub fn name_starts(names: &[u8], at: usize, text: &[u8]) -> bool
    ensures { result ≡ starts text.now (name_from names.now at) }
{
    let mut i = at;
    for b in text {
        if names.len() <= i || names[i] == END || names[i] != *b {
            return false;
        }
        i += 1;
    }
    true
}

// Whether a byte is a digit, an ASCII letter or `_`.
fn word_byte(b: u8) -> bool
    ensures { result ≡ word_byte b }
{
    b.is_ascii_alphanumeric() | (b == b'_')
}

// A byte of a name as it stands in a label: each that is no letter, digit or `_` becomes `_`.
pub fn clean_byte(b: u8) -> u8
    ensures { result ≡ clean_byte b }
{
    if word_byte(b) { b } else { b'_' }
}

// Whether a byte is one of a character's behind its first.
pub fn is_tail(b: u8) -> bool
    ensures { result ≡ is_tail b }
{
    matches!(b, 0x80..=0xbf)
}

// How many bytes a label spells a name with: one for each character.
pub fn clean_len(name: &[u8]) -> usize
    ensures { result ≡ length (sanitize name.now) }
{
    let mut n: usize = 0;
    // `filter` and `count` take three times as long.
    for b in name {
        if !is_tail(*b) {
            n += 1;
        }
    }
    n
}
