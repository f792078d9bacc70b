// Types: kinds 10 to 20.
ghost use Rattle.std.specs.Prelude.{◌≡◌};
ghost use Rattle.book.specs.Entry.{entries};
ghost use Rattle.book.specs.Kinds.{ty_tag};
ghost use Rattle.book.specs.Read.{many};
ghost use Rattle.book.specs.Decode.{type_to};
ghost use Rattle.book_types.specs.Length.{len_of};
ghost use Rattle.book_types.specs.Groups.{type_group_of, type_head_of};
ghost use Rattle.book_types.specs.Leaf.{leaf_ok};

use crate::{first_entry, shorter};
use book::entry;

// The most levels that a type has.
pub const LEVELS: u32 = 64;

// What the kind of a type's entry begins. `Other` is one arm more where the groups are told apart; an `Option` around them is no plainer.
#[derive(Clone, Copy)]
pub enum TypeGroup {
    Void,
    Int,
    Ptr,
    Array(bool),
    Named,
    Struct(bool),
    Sizeless,
    Other,
}

pub fn type_group(kind: u64) -> TypeGroup
    ensures { result ≡ type_group_of (ty_tag kind) }
{
    if kind < entry::VOID {
        return TypeGroup::Other;
    }
    if entry::METADATA < kind {
        return TypeGroup::Other;
    }
    match kind {
        entry::VOID => TypeGroup::Void,
        entry::INT => TypeGroup::Int,
        entry::PTR => TypeGroup::Ptr,
        entry::ARRAY => TypeGroup::Array(false),
        entry::PACKED_ARRAY => TypeGroup::Array(true),
        entry::NAMED => TypeGroup::Named,
        entry::STRUCT => TypeGroup::Struct(false),
        entry::PACKED_STRUCT => TypeGroup::Struct(true),
        _ => TypeGroup::Sizeless,
    }
}

// What the entry at the front begins: a type of this entry alone, an array's element, a struct's fields.
#[derive(Clone, Copy)]
pub enum TypeHead {
    Leaf,
    Array,
    Struct,
}

pub fn type_head(entry: Option<(u64, u64)>, names: u64) -> Option<TypeHead>
    ensures { result ≡ type_head_of names entry }
{
    let (kind, word) = entry?;
    match type_group(kind) {
        TypeGroup::Void | TypeGroup::Ptr | TypeGroup::Sizeless => {
            (word == 0).then_some(TypeHead::Leaf)
        }
        TypeGroup::Int => numbers::width::width_ok(word).then_some(TypeHead::Leaf),
        TypeGroup::Named => (word < names).then_some(TypeHead::Leaf),
        TypeGroup::Array(_) => Some(TypeHead::Array),
        TypeGroup::Struct(_) => (word == 0).then_some(TypeHead::Struct),
        TypeGroup::Other => None,
    }
}

// Whether an entry is a type by itself.
pub fn leaf(kind: u64, word: u64, names: u64) -> bool
    ensures { result ≡ leaf_ok names kind word }
{
    if kind == entry::INT {
        return numbers::width::width_ok(word);
    }
    if kind == entry::NAMED {
        return word < names;
    }
    ((kind == entry::VOID)
        | (kind == entry::PTR)
        | ((entry::FUNC <= kind) & (kind <= entry::METADATA)))
        & (word == 0)
}

// The type at the front, of at most `level` levels. Most types are an entry, which is told here; this part is small, so that it is
// compiled into its callers.
#[cycle(type_deep_type_len_types_len)]
pub fn type_len(kinds: &[u64], words: &[u64], names: u64, level: u32) -> Option<usize>
    ensures { result ≡ len_of (type_to names level (entries kinds.now words.now)) }
{
    if level != 0 {
        if kinds.len() != 0 {
            if words.len() != 0 {
                if leaf(kinds[0], words[0], names) {
                    return Some(1);
                }
            }
        }
    }
    type_deep(kinds, words, names, level)
}

// The same by what the entry in front begins.
#[cycle(type_deep_type_len_types_len)]
fn type_deep(kinds: &[u64], words: &[u64], names: u64, level: u32) -> Option<usize>
    ensures { result ≡ len_of (type_to names level (entries kinds.now words.now)) }
{
    if level == 0 {
        return None;
    }
    let head = type_head(first_entry(kinds, words), names)?;
    let (kinds, words) = (&kinds[1..], &words[1..]);
    match head {
        TypeHead::Leaf => Some(1),
        TypeHead::Array => Some(1 + type_deep(kinds, words, names, level - 1)?),
        TypeHead::Struct => Some(1 + types_len(kinds, words, names, level - 1)?),
    }
}

// The list of types at the front, its closing entry with it. `left` is the definition's bound on the items, and no index.
#[cycle(type_deep_type_len_types_len)]
pub fn types_len(kinds: &[u64], words: &[u64], names: u64, level: u32) -> Option<usize>
    ensures { result ≡ len_of (many (type_to names level) (entries kinds.now words.now)) }
{
    let mut at: usize = 0;
    let mut left: usize = shorter(kinds, words);
    loop {
        let (kinds, words) = (&kinds[at..], &words[at..]);
        let (kind, word) = first_entry(kinds, words)?;
        if kind == entry::END {
            return (word == 0).then_some(at + 1);
        }
        if left == 0 {
            return None;
        }
        at += type_len(kinds, words, names, level)?;
        left -= 1;
    }
}
