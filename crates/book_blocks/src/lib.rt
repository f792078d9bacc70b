#![tactic(auto)]
// How many entries the blocks or the function take at the front of the lent kinds and words, and whether something in them is
// forbidden: a value of kind 37, or a call of a name whose bit is set in `barred`. `names` is the number of the book's names.
mod calls;

ghost use Rattle.std.specs.Prelude.{◌≡◌};
ghost use Rattle.numbers.specs.Bits.{bit_at};
ghost use Rattle.book.specs.Entry.{entries};
ghost use Rattle.book.specs.Read.{many, both};
ghost use Rattle.book.specs.Fields.{Item as BookItem};
ghost use Rattle.book.specs.Decode.{type as typeReader, item, basic_block, function};
ghost use Rattle.book.specs.Forbidden.{any, other_item, forbidden_block, forbidden_function};
ghost use Rattle.book_types.specs.Found.{found_of, pair_test, never};
ghost use Rattle.book_insts.specs.Rules.{rules_of};

use crate::calls::call_barred;
use book::entry;
use book_insts::{Field, field_len, fields_behind, one_entry, rules};
use book_types::types::{LEVELS, type_len};
use book_types::{Found, shorter};
use book_values::{Item, list_len, word_len};

// The list of blocks, its closing entry with it, in one loop over the entries. `need` has the fields that the last
// instruction or terminator still wants, `inside` says whether a block still lacks its terminator.
fn scan_blocks(
    kinds: &[u64],
    words: &[u64],
    names: u64,
    barred: &[u64],
    rule: &[u64],
) -> Option<Found>
    requires { rule.now ≡ rules_of names }
    ensures { result ≡ found_of (any (forbidden_block (bit_at barred.now))) (many (basic_block names) (entries kinds.now words.now)) }
{
    let end = shorter(kinds, words);
    let mut at: usize = 0;
    let mut need: &[Field] = &[];
    let mut inside = false;
    let mut seen = false;
    while at < end {
        let kind = kinds[at];
        let word = words[at];
        if let Some((field, rest)) = need.split_first() {
            need = rest;
            if one_entry(kind, word, *field, rule) {
                seen |= kind == entry::OTHER;
                at += 1;
                continue;
            }
            let found = field_len(&kinds[at..], &words[at..], names, *field)?;
            seen |= found.barred;
            at += found.entries;
            continue;
        }
        if inside {
            need = fields_behind(kind, word, names)?;
            inside = kind < entry::RET;
            at += 1;
            if kind == entry::CALL {
                seen |= call_barred(&kinds[at..], &words[at..], names, barred);
            }
            continue;
        }
        if (kind == entry::END) & (word == 0) {
            return Some(Found {
                entries: at + 1,
                barred: seen,
            });
        }
        if (kind != entry::BLOCK) | (names <= word) {
            return None;
        }
        inside = true;
        at += 1;
    }
    None
}

// The list of blocks, its closing entry with it.
fn blocks_len(kinds: &[u64], words: &[u64], names: u64, barred: &[u64]) -> Option<Found>
    ensures { result ≡ found_of (any (forbidden_block (bit_at barred.now))) (many (basic_block names) (entries kinds.now words.now)) }
{
    scan_blocks(kinds, words, names, barred, &rules(names))
}

// A function's parameters and blocks.
fn params_and_blocks_len(kinds: &[u64], words: &[u64], names: u64, barred: &[u64]) -> Option<Found>
    ensures { result ≡ found_of (pair_test (any (other_item BookItem.param)) (any (forbidden_block (bit_at barred.now)))) (both (many (item names BookItem.param)) (many (basic_block names)) (entries kinds.now words.now)) }
{
    let params = list_len(kinds, words, names, Item::Param, shorter(kinds, words))?;
    let n = params.entries;
    let blocks = blocks_len(&kinds[n..], &words[n..], names, barred)?;
    Some(params.then(blocks))
}

// A function's return type, parameters and blocks.
fn signature_and_blocks_len(
    kinds: &[u64],
    words: &[u64],
    names: u64,
    barred: &[u64],
) -> Option<Found>
    ensures { result ≡ found_of (pair_test never (pair_test (any (other_item BookItem.param)) (any (forbidden_block (bit_at barred.now))))) (both (typeReader names) (both (many (item names BookItem.param)) (many (basic_block names))) (entries kinds.now words.now)) }
{
    let n = type_len(kinds, words, names, LEVELS)?;
    let rest = params_and_blocks_len(&kinds[n..], &words[n..], names, barred)?;
    Some(Found::plain(n).then(rest))
}

// The function at the front.
pub fn function_len(kinds: &[u64], words: &[u64], names: u64, barred: &[u64]) -> Option<Found>
    ensures { result ≡ found_of (forbidden_function (bit_at barred.now)) (function names (entries kinds.now words.now)) }
{
    let n = word_len(kinds, words, entry::FUNCTION, names)?;
    let rest = signature_and_blocks_len(&kinds[n..], &words[n..], names, barred)?;
    Some(Found::plain(n).then(rest))
}
