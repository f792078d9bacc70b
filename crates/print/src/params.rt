// How many parameters the function has that the entries begin with.
ghost use Rattle.std.specs.Prelude.{◌≡◌};
ghost use Rattle.book.specs.Entry.{entries};
ghost use Rattle.book.specs.Read.{many};
ghost use Rattle.book.specs.Fields.{Item as BookItem};
ghost use Rattle.book.specs.Decode.{item, function as functionReader};
ghost use Rattle.print.specs.Function.{sixes, There, FunctionThere, read_count, params_read};

use book::entry;
use book_types::shorter;
use book_types::types::{LEVELS, type_len};
use book_values::{Item, list_len};

// How many entries have kind 6.
fn count_params(kinds: &[u64]) -> u64
    ensures { result ≡ sixes kinds.now }
{
    kinds.iter().filter(|kind| **kind == entry::PARAM).count() as u64
}

// How many parameters the list at the front has: each begins with the only entry of kind 6 that it has.
fn list_params(kinds: &[u64], words: &[u64], names: u64) -> u64
    requires { There (many (item names BookItem.param) (entries kinds.now words.now)) }
    ensures { result ≡ read_count (many (item names BookItem.param) (entries kinds.now words.now)) }
{
    let Some(found) = list_len(kinds, words, names, Item::Param, shorter(kinds, words)) else {
        return 0;
    };
    count_params(&kinds[..found.entries])
}

// How many parameters the function at the front has.
pub fn function_params(kinds: &[u64], words: &[u64], names: u64) -> u64
    requires { FunctionThere names kinds.now words.now }
    ensures { result ≡ params_read (functionReader names (entries kinds.now words.now)) }
{
    let Some(n) = type_len(&kinds[1..], &words[1..], names, LEVELS) else {
        return 0;
    };
    let at = n + 1;
    list_params(&kinds[at..], &words[at..], names)
}
