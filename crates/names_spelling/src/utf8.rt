// Characters of UTF-8, as RFC 3629 has them: how many bytes one takes.
ghost use Rattle.std.specs.Prelude.{◌≡◌, drop};
ghost use Rattle.names.specs.Utf8.{char_length};
ghost use Rattle.names_spelling.specs.Length.{some_length};
ghost use Rattle.names.specs.Lead.{tails as tailsBehind, lowest as lowestSecond, highest as highestSecond};

use crate::is_tail;

// How many bytes a character has behind a first one that is not ASCII, if one begins so.
fn tails(first: u8) -> Option<usize>
    ensures { result ≡ some_length (tailsBehind first) }
{
    match first {
        0xc2..=0xdf => Some(1),
        0xe0..=0xef => Some(2),
        0xf0..=0xf4 => Some(3),
        _ => None,
    }
}

// The least second byte: what is below spells a character with more bytes than it needs.
fn lowest(first: u8) -> u8
    ensures { result ≡ lowestSecond first }
{
    match first {
        0xe0 => 0xa0,
        0xf0 => 0x90,
        _ => 0x80,
    }
}

// The greatest second byte: what is above is a surrogate or behind U+10FFFF.
fn highest(first: u8) -> u8
    ensures { result ≡ highestSecond first }
{
    match first {
        0xed => 0x9f,
        0xf4 => 0x8f,
        _ => 0xbf,
    }
}

// How many bytes the character has that stands at `at`, if one does.
pub fn char_len(text: &[u8], at: usize) -> Option<usize>
    ensures { result ≡ some_length (char_length (drop at text.now)) }
{
    if text.len() <= at {
        return None;
    }
    let first = text[at];
    if first < 0x80 {
        return Some(1);
    }
    let n = tails(first)?;
    if text.len() - at <= n {
        return None;
    }
    let second = text[at + 1];
    if second < lowest(first) || highest(first) < second {
        return None;
    }
    for i in 2..n + 1 {
        if !is_tail(text[at + i]) {
            return None;
        }
    }
    Some(n + 1)
}
