// Whether a call is of a name that may not be called: its callee is looked at behind its return type.
ghost use Rattle.std.specs.Prelude.{◌≡◌};
ghost use Rattle.numbers.specs.Bits.{bit_at};
ghost use Rattle.book.specs.Entry.{entries};
ghost use Rattle.book_blocks.specs.Calls.{callee_barred, behind_call};

use book_types::first_entry;
use book_types::types::{LEVELS, type_len};

// Whether the entry is a global whose bit is set.
fn callee_barred(entry: Option<(u64, u64)>, barred: &[u64]) -> bool
    ensures { result ≡ callee_barred (bit_at barred.now) entry }
{
    let Some((kind, word)) = entry else {
        return false;
    };
    if kind == book::entry::GLOBAL {
        numbers::bits::bit(barred, word as usize)
    } else {
        false
    }
}

// Whether a call is of such a global: behind the call's own entry stand its return type and then its callee.
pub fn call_barred(kinds: &[u64], words: &[u64], names: u64, barred: &[u64]) -> bool
    ensures { result ≡ behind_call (bit_at barred.now) names (entries kinds.now words.now) }
{
    let Some(n) = type_len(kinds, words, names, LEVELS) else {
        return false;
    };
    callee_barred(first_entry(&kinds[n..], &words[n..]), barred)
}
