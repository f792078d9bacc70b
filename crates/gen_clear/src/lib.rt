#![tactic(auto)]
// Words 0 to 3 of names, cleared where a function has set them: along its entries, not over all names. So the functions of a piece
// are translated in a time that goes by their entries, however many names the book has.
ghost use Rattle.std.specs.Prelude.{◌≤◌, length};
ghost use Rattle.book.specs.Entry.{entry as entry_of, entries};
ghost use Rattle.book.specs.Work.{name_words};
ghost use Rattle.gen_clear.specs.Sets.{Bounded};
ghost use Rattle.gen_clear.specs.Clear.{Cleared, ClearPart, AllCleared};

use book::entry;
use book_types::shorter;

// The words that an entry has set: a parameter's, a block's or a result's.
fn clear_entry(kind: u64, word: u64, work: &mut [u64], names: u64)
    requires { Bounded names (entry_of kind word) × (name_words names ≤ length work.old) }
    ensures { Cleared names (entry_of kind word) work.old work.new }
{
    if entry::ADD <= kind {
        if word != 0 {
            let first = book::work::WORDS * ((word - 1) as usize);
            work[first + book::work::SLOT] = 0;
            work[first + book::work::PLACE] = 0;
        }
        return;
    }
    if kind == entry::BLOCK {
        work[book::work::WORDS * (word as usize) + book::work::BLOCK] = 0;
        return;
    }
    if kind == entry::PARAM {
        if word != 0 {
            work[book::work::WORDS * ((word - 1) as usize)] = 0;
        }
    }
}

// All words that these entries have set.
pub fn clear_function(kinds: &[u64], words: &[u64], work: &mut [u64], names: u64)
    requires { ClearPart names (entries kinds.now words.now) work.old }
    ensures { AllCleared names work.old work.new }
{
    for at in 0..shorter(kinds, words) {
        clear_entry(kinds[at], words[at], work, names);
    }
}
