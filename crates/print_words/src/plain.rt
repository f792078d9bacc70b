// Lines of kind 7 to 93, whose operand is a number or none: how many bytes they have, and writing them where it is known that they fit.
ghost use Rattle.std.specs.Prelude.{◌≡◌, ◌+◌, ◌<◌, ◌≤◌, length};
ghost use Rattle.std.proofs.lemmas.List.Edits.{sets};
ghost use Rattle.print_pen.specs.Write.{Wrote};
ghost use Rattle.print_words.specs.Words.{word, word_places, Tables};
ghost use Rattle.print_words.specs.Ends.{ending};
ghost use Rattle.print_words.specs.Plain.{plain_text};

use crate::is_label;
use assembly::line;
use numbers::digits::{decimal_len, put_decimal, put_short};
use print_pen::copy;

// How many bytes the word of a line's kind has.
pub fn word_len(places: &[u16], kind: u16) -> usize
    requires places_value { places.now ≡ word_places }
    requires kind_bound { kind < 94 }
    ensures { result ≡ length (word kind) }
{
    usize::from(places[usize::from(kind)]) % 32
}

// How many bytes the line has.
pub fn plain_len(places: &[u16], kind: u16, x: u64) -> usize
    requires places_value { places.now ≡ word_places }
    requires kind_bound { kind < 94 }
    ensures { result ≡ length (plain_text kind x) }
{
    let letters = word_len(places, kind);
    let number = decimal_len(x) + 2;
    if line::ADD_U32 <= kind {
        letters
    } else {
        letters + number
    }
}

// Writes the word of a line's kind. Where 24 bytes are left, as many are stored, which takes no loop: what is written later stands
// over those behind the word.
fn write_word(
    text: &mut [u8],
    at: usize,
    end: usize,
    letters: &[u8],
    places: &[u16],
    kind: u16,
) -> usize
    requires tables { Tables letters.now places.now }
    requires kind_bound { kind < 94 }
    requires kind_bound_2 { at + length (word kind) ≤ end }
    requires end_in_bounds { end ≤ length text.old }
    ensures { Wrote (word kind) at end text.old text.new result }
{
    let both = usize::from(places[usize::from(kind)]);
    let start = both / 32;
    if 24 <= end - at {
        let far = start + 24;
        copy(&letters[start..far], text, at);
        return at + both % 32;
    }
    let stop = start + both % 32;
    copy(&letters[start..stop], text, at);
    at + both % 32
}

// Writes what ends a line with an operand.
fn write_end(text: &mut [u8], at: usize, kind: u16) -> usize
    requires { at + 2 ≤ length text.old }
    ensures { (result ≡ at + length (ending kind)) × (text.new ≡ sets text.old at (ending kind)) }
{
    text[at] = if is_label(kind) { b':' } else { b';' };
    text[at + 1] = b'\n';
    at + 2
}

// Writes the line. Behind the word of a line without an operand digits and an end are stored too, where there is room for them, and
// the answer is chosen: what comes next stands over them, and which lines have an operand is hard to foresee.
pub fn write_plain(
    text: &mut [u8],
    at: usize,
    end: usize,
    letters: &[u8],
    places: &[u16],
    kind: u16,
    x: u64,
) -> usize
    requires tables { Tables letters.now places.now }
    requires kind_bound { kind < 94 }
    requires x_bound { at + length (plain_text kind x) ≤ end }
    requires end_in_bounds { end ≤ length text.old }
    ensures { Wrote (plain_text kind x) at end text.old text.new result }
{
    let next = write_word(text, at, end, letters, places, kind);
    if (x < 100) & (32 <= end - at) {
        let number = put_short(x, text, next);
        let behind = write_end(text, number, kind);
        return if line::ADD_U32 <= kind { next } else { behind };
    }
    if line::ADD_U32 <= kind {
        return next;
    }
    let number = put_decimal(x, text, next);
    write_end(text, number, kind)
}
