#![tactic(auto)]
// Values, and what the fields of instructions and terminators hold.
ghost use Rattle.std.specs.Prelude.{◌≡◌};
ghost use Rattle.book.specs.Entry.{entries};
ghost use Rattle.book.specs.Kinds.{val_tag};
ghost use Rattle.book.specs.Read.{optional, list_of, both};
ghost use Rattle.book.specs.Decode.{type as typeReader, item as itemReader};
ghost use Rattle.book.specs.Forbidden.{any, any_there, other_item};
ghost use Rattle.book_types.specs.Length.{len_of};
ghost use Rattle.book_types.specs.Found.{found_of, never, pair_test};
ghost use Rattle.book_values.specs.declared.Atom.TheVariants.{Block as AtomBlock, Param as AtomParam};
ghost use Rattle.book_values.specs.Items.{value_group_of, value_ok, word_below, index_fits, atom_ok, atom_reader, atom_test, item_of};
ghost use Rattle.book_values.specs.Pairs.{two_ok};

use book::entry;
use book_types::types::{LEVELS, leaf, type_len};
use book_types::{Found, first_entry};

// The group of a value's kind: null, undef, poison and zeroinitializer are zeros. `Bad` is one arm more where the groups are told apart;
// an `Option` around them is no plainer.
#[derive(Clone, Copy)]
pub enum ValueGroup {
    Local,
    Global,
    Int,
    Zero,
    Other,
    Bad,
}

pub fn value_group(kind: u64) -> ValueGroup
    ensures { result ≡ value_group_of (val_tag kind) }
{
    if kind < entry::LOCAL {
        return ValueGroup::Bad;
    }
    if entry::OTHER < kind {
        return ValueGroup::Bad;
    }
    match kind {
        entry::LOCAL => ValueGroup::Local,
        entry::GLOBAL => ValueGroup::Global,
        entry::INTEGER => ValueGroup::Int,
        entry::OTHER => ValueGroup::Other,
        _ => ValueGroup::Zero,
    }
}

// Whether a value of the kind may have the word.
fn value_fits(kind: u64, word: u64, names: u64) -> bool
    ensures { result ≡ value_ok names word (value_group_of (val_tag kind)) }
{
    if kind < entry::INTEGER {
        return (entry::LOCAL <= kind) & (word < names);
    }
    (kind == entry::INTEGER) | ((kind <= entry::OTHER) & (word == 0))
}

// An entry of one kind, its word below a limit: the name of a block, a function or a struct.
pub fn word_len(kinds: &[u64], words: &[u64], kind: u64, below: u64) -> Option<usize>
    ensures { result ≡ len_of (word_below kind below (entries kinds.now words.now)) }
{
    let (k, word) = first_entry(kinds, words)?;
    ((k == kind) & (word < below)).then_some(1)
}

// What may stand in one entry: a value, a getelementptr's index, a block's name, an index, an align, a case's integer,
// a parameter's name + 1 or 0.
#[derive(Clone, Copy)]
pub enum Atom {
    Value,
    GepValue,
    Block,
    Index,
    Align,
    Case,
    Param,
}

// An integer index of a getelementptr fits a signed word of 32 bits.
fn index_fits(kind: u64, word: u64) -> bool
    ensures { result ≡ index_fits kind word }
{
    (kind != entry::INTEGER) | (word < 0x8000_0000) | (0xFFFF_FFFF_8000_0000 <= word)
}

fn atom_ok(kind: u64, word: u64, names: u64, atom: Atom) -> bool
    ensures { result ≡ atom_ok names kind word atom }
{
    match atom {
        Atom::Value => value_fits(kind, word, names),
        Atom::GepValue => value_fits(kind, word, names) & index_fits(kind, word),
        Atom::Block => (kind == entry::BLOCK_NAME) & (word < names),
        Atom::Index => (kind == entry::NUMBER) & (word < 0x1_0000_0000),
        Atom::Align => (kind == entry::NUMBER) & numbers::align::is_align(word),
        Atom::Case => kind == entry::INTEGER,
        Atom::Param => (kind == entry::PARAM) & (word <= names),
    }
}

// The atom in front.
pub fn atom_len(kinds: &[u64], words: &[u64], names: u64, atom: Atom) -> Option<Found>
    ensures { result ≡ found_of (atom_test atom) (atom_reader names atom (entries kinds.now words.now)) }
{
    let (kind, word) = first_entry(kinds, words)?;
    let one = Found {
        entries: 1,
        barred: kind == entry::OTHER,
    };
    atom_ok(kind, word, names, atom).then_some(one)
}

// A type, then an atom.
fn typed_len(kinds: &[u64], words: &[u64], names: u64, atom: Atom) -> Option<Found>
    ensures { result ≡ found_of (pair_test never (atom_test atom)) (both (typeReader names) (atom_reader names atom) (entries kinds.now words.now)) }
{
    let n = type_len(kinds, words, names, LEVELS)?;
    let value = atom_len(&kinds[n..], &words[n..], names, atom)?;
    Some(Found::plain(n).then(value))
}

// An atom, then a block's name.
fn pair_len(kinds: &[u64], words: &[u64], names: u64, atom: Atom) -> Option<Found>
    ensures { result ≡ found_of (pair_test (atom_test atom) (atom_test AtomBlock)) (both (atom_reader names atom) (atom_reader names AtomBlock) (entries kinds.now words.now)) }
{
    let first = atom_len(kinds, words, names, atom)?;
    let n = first.entries;
    let block = atom_len(&kinds[n..], &words[n..], names, Atom::Block)?;
    Some(first.then(block))
}

// A parameter: its name and its type.
fn param_len(kinds: &[u64], words: &[u64], names: u64) -> Option<Found>
    ensures { result ≡ found_of (pair_test (atom_test AtomParam) never) (both (atom_reader names AtomParam) (typeReader names) (entries kinds.now words.now)) }
{
    let name = atom_len(kinds, words, names, Atom::Param)?;
    let n = name.entries;
    let ty = type_len(&kinds[n..], &words[n..], names, LEVELS)?;
    Some(name.then(Found::plain(ty)))
}

// What may stand in a field or a list.
#[derive(Clone, Copy)]
pub enum Item {
    Type,
    Value,
    Block,
    Index,
    Align,
    Typed,
    GepIndex,
    Incoming,
    Case,
    Param,
}

pub fn item_len(kinds: &[u64], words: &[u64], names: u64, item: Item) -> Option<Found>
    ensures { result ≡ found_of (other_item (item_of item)) (itemReader names (item_of item) (entries kinds.now words.now)) }
{
    match item {
        Item::Type => Some(Found::plain(type_len(kinds, words, names, LEVELS)?)),
        Item::Value => atom_len(kinds, words, names, Atom::Value),
        Item::Block => atom_len(kinds, words, names, Atom::Block),
        Item::Index => atom_len(kinds, words, names, Atom::Index),
        Item::Align => atom_len(kinds, words, names, Atom::Align),
        Item::Typed => typed_len(kinds, words, names, Atom::Value),
        Item::GepIndex => typed_len(kinds, words, names, Atom::GepValue),
        Item::Incoming => pair_len(kinds, words, names, Atom::Value),
        Item::Case => pair_len(kinds, words, names, Atom::Case),
        Item::Param => param_len(kinds, words, names),
    }
}

// An item, or kind 21 for none.
pub fn optional_len(kinds: &[u64], words: &[u64], names: u64, item: Item) -> Option<Found>
    ensures { result ≡ found_of (any_there (other_item (item_of item))) (optional (itemReader names (item_of item)) (entries kinds.now words.now)) }
{
    let (kind, word) = first_entry(kinds, words)?;
    if kind == entry::ABSENT {
        return (word == 0).then_some(Found::plain(1));
    }
    item_len(kinds, words, names, item)
}

// Whether two entries are the item. Types of more entries are not looked at here.
fn two_entries(kind: u64, word: u64, kind2: u64, word2: u64, names: u64, item: Item) -> bool
    ensures { result ≡ two_ok names kind word kind2 word2 item }
{
    match item {
        Item::Typed => leaf(kind, word, names) & atom_ok(kind2, word2, names, Atom::Value),
        Item::GepIndex => leaf(kind, word, names) & atom_ok(kind2, word2, names, Atom::GepValue),
        Item::Incoming => {
            atom_ok(kind, word, names, Atom::Value) & atom_ok(kind2, word2, names, Atom::Block)
        }
        Item::Case => {
            atom_ok(kind, word, names, Atom::Case) & atom_ok(kind2, word2, names, Atom::Block)
        }
        Item::Param => atom_ok(kind, word, names, Atom::Param) & leaf(kind2, word2, names),
        Item::Type | Item::Value | Item::Block | Item::Index | Item::Align => false,
    }
}

// An item of a list. Most are two entries, which are told without a call.
fn listed_len(kinds: &[u64], words: &[u64], names: u64, item: Item) -> Option<Found>
    ensures { result ≡ found_of (other_item (item_of item)) (itemReader names (item_of item) (entries kinds.now words.now)) }
{
    if 1 < kinds.len() {
        if 1 < words.len() {
            if two_entries(kinds[0], words[0], kinds[1], words[1], names, item) {
                return Some(Found {
                    entries: 2,
                    barred: (kinds[0] == entry::OTHER) | (kinds[1] == entry::OTHER),
                });
            }
        }
    }
    item_len(kinds, words, names, item)
}

// A list of at most so many items, its closing entry with it. `left` is that bound, and no index. The hint lets the compiler make a loop of
// their own for the cases of a switch in their caller: in the one for all items each case takes half as long again.
#[inline]
pub fn list_len(kinds: &[u64], words: &[u64], names: u64, item: Item, most: usize) -> Option<Found>
    ensures { result ≡ found_of (any (other_item (item_of item))) (list_of most (itemReader names (item_of item)) (entries kinds.now words.now)) }
{
    let mut at: usize = 0;
    let mut left: usize = most;
    let mut seen = false;
    loop {
        let (kinds, words) = (&kinds[at..], &words[at..]);
        let (kind, word) = first_entry(kinds, words)?;
        if kind == entry::END {
            return (word == 0).then_some(Found {
                entries: at + 1,
                barred: seen,
            });
        }
        if left == 0 {
            return None;
        }
        let found = listed_len(kinds, words, names, item)?;
        at += found.entries;
        left -= 1;
        seen |= found.barred;
    }
}
