#![tactic(auto)]
// Readers of a book's entries: how many entries a type, a value and so on takes at the front
// of the lent kinds and words, or that none stands there. A reader is lent the rest of the entries from its
// start; where one slice is longer than the other, what it has more does not count. `names` is the number of
// the book's names.
pub mod types;

ghost use Rattle.std.specs.Prelude.{◌≡◌, ◌+◌, ◌<◌, ◌^◌, length};
ghost use Rattle.book.specs.Entry.{entries};
ghost use Rattle.book_types.specs.Length.{front_of};
ghost use Rattle.book_types.specs.Found.{plain, after};

// How many entries something takes, and whether a forbidden value is among them: one of kind 37.
#[derive(Clone, Copy)]
pub struct Found {
    pub entries: usize,
    pub barred: bool,
}

impl Found {
    // Entries in which nothing can be forbidden.
    pub fn plain(entries: usize) -> Found
        ensures { result ≡ plain entries }
    {
        Found {
            entries,
            barred: false,
        }
    }

    // Two parts one after the other.
    pub fn then(self, next: Found) -> Found
        requires { self.entries + next.entries < 2 ^ 64 }
        ensures { result ≡ after self next }
    {
        Found {
            entries: self.entries + next.entries,
            barred: self.barred | next.barred,
        }
    }
}

// The kind and the word of the entry in front.
pub fn first_entry(kinds: &[u64], words: &[u64]) -> Option<(u64, u64)>
    ensures { result ≡ front_of (entries kinds.now words.now) }
{
    Some((*kinds.first()?, *words.first()?))
}

// The number of entries that both slices have.
pub fn shorter(kinds: &[u64], words: &[u64]) -> usize
    ensures { result ≡ length (entries kinds.now words.now) }
{
    kinds.len().min(words.len())
}
