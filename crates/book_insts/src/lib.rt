#![tactic(auto)]
// Instructions, kinds 40 to 82, and terminators, kinds 90 to 93: an entry and the fields of its kind.
ghost use Rattle.std.specs.Option.{option_copied};
ghost use Rattle.std.specs.Prelude.{◌≡◌, ◌≤◌, ◌<◌, length};
ghost use Rattle.book.specs.Entry.{entries};
ghost use Rattle.book.specs.Kinds.{inst_tag, term_tag};
ghost use Rattle.book.specs.Decode.{field as fieldReader};
ghost use Rattle.book.specs.Forbidden.{other_field};
ghost use Rattle.book_types.specs.Found.{found_of};
ghost use Rattle.book_insts.specs.Insts.{inst_group_of, single_of, term_group_of, inst_shape, term_shape, shape_fields, field_by, digit_of, fields_behind};
ghost use Rattle.book_insts.specs.Rules.{rules_of, alone_by};

use book::entry;
use book::ops::{BinOp, ConvOp, ICmpPred};
use book_types::types::{LEVELS, type_len};
use book_types::{Found, shorter};
use book_values::{Atom, Item, atom_len, item_len, list_len, optional_len};

// The group of an instruction's kind.
#[derive(Clone, Copy)]
pub enum InstGroup {
    Bin(BinOp),
    Conv(ConvOp),
    ICmp(ICmpPred),
    Select,
    Load,
    Store,
    Alloca,
    GetElementPtr,
    Phi,
    Call,
    Freeze,
    AtomicLoad,
    AtomicStore,
    Cmpxchg,
    ExtractValue,
    Fence,
    Other,
}

pub fn inst_group(kind: u64) -> InstGroup
    ensures { result ≡ inst_group_of (inst_tag kind) }
{
    match kind {
        entry::ADD..=entry::ASHR => match BinOp::try_from(kind) {
            Ok(op) => InstGroup::Bin(op),
            Err(_) => InstGroup::Other,
        },
        entry::TRUNC..=entry::BIT_CAST => match ConvOp::try_from(kind) {
            Ok(op) => InstGroup::Conv(op),
            Err(_) => InstGroup::Other,
        },
        entry::EQ..=entry::SLE => match ICmpPred::try_from(kind) {
            Ok(pred) => InstGroup::ICmp(pred),
            Err(_) => InstGroup::Other,
        },
        _ => single_group(kind),
    }
}

// The kinds that are a group of their own.
fn single_group(kind: u64) -> InstGroup
    ensures { result ≡ single_of (inst_tag kind) }
{
    match kind {
        entry::SELECT => InstGroup::Select,
        entry::LOAD => InstGroup::Load,
        entry::STORE => InstGroup::Store,
        entry::ALLOCA => InstGroup::Alloca,
        entry::GET_ELEMENT_PTR => InstGroup::GetElementPtr,
        entry::PHI => InstGroup::Phi,
        entry::CALL => InstGroup::Call,
        entry::FREEZE => InstGroup::Freeze,
        entry::ATOMIC_LOAD => InstGroup::AtomicLoad,
        entry::ATOMIC_STORE => InstGroup::AtomicStore,
        entry::CMPXCHG => InstGroup::Cmpxchg,
        entry::EXTRACT_VALUE => InstGroup::ExtractValue,
        entry::FENCE => InstGroup::Fence,
        _ => InstGroup::Other,
    }
}

// The group of a terminator's kind. `Other` is one arm more where the groups are told apart; an `Option` around them is no plainer.
#[derive(Clone, Copy)]
pub enum TermGroup {
    Ret,
    Br,
    Switch,
    Unreachable,
    Other,
}

pub fn term_group(kind: u64) -> TermGroup
    ensures { result ≡ term_group_of (term_tag kind) }
{
    if kind < entry::RET {
        return TermGroup::Other;
    }
    if entry::UNREACHABLE < kind {
        return TermGroup::Other;
    }
    match kind {
        entry::RET => TermGroup::Ret,
        entry::BR => TermGroup::Br,
        entry::SWITCH => TermGroup::Switch,
        _ => TermGroup::Unreachable,
    }
}

// A field of an instruction or a terminator. The table of `rules` has a bit for each, by its number.
#[derive(Clone, Copy)]
pub enum Field {
    Type = 1,
    Value = 2,
    Block = 3,
    Index = 4,
    // An align, a typed value, a value or a block's name, each or none.
    Align = 5,
    SomeTyped = 6,
    SomeValue = 7,
    SomeBlock = 8,
    // The indices of a getelementptr, a phi's values, arguments, the cases of a switch.
    GepIndices = 9,
    Incoming = 10,
    Arguments = 11,
    Cases = 12,
}

impl Field {
    // Its bit in the table.
    fn bit(self) -> u64
        ensures value { result ≡ digit_of self }
        ensures small { result < 16 }
    {
        self as u64
    }
}

// The fields of a kind, if it is an instruction's.
pub fn inst_fields(group: InstGroup) -> Option<&'static [Field]>
    ensures { shape_fields (option_copied result) ≡ inst_shape group }
{
    match group {
        InstGroup::Bin(_) => Some(&[Field::Type, Field::Value, Field::Value]),
        InstGroup::Conv(_) => Some(&[Field::Type, Field::Value, Field::Type]),
        InstGroup::ICmp(_) => Some(&[Field::Type, Field::Value, Field::Value]),
        InstGroup::Select => Some(&[Field::Value, Field::Type, Field::Value, Field::Value]),
        InstGroup::Load => Some(&[Field::Type, Field::Value, Field::Align]),
        InstGroup::Store => Some(&[Field::Type, Field::Value, Field::Value, Field::Align]),
        InstGroup::Alloca => Some(&[Field::Type, Field::SomeTyped, Field::Align]),
        InstGroup::GetElementPtr => Some(&[Field::Type, Field::Value, Field::GepIndices]),
        InstGroup::Phi => Some(&[Field::Type, Field::Incoming]),
        InstGroup::Call => Some(&[Field::Type, Field::Value, Field::Arguments]),
        InstGroup::Freeze => Some(&[Field::Type, Field::Value]),
        InstGroup::AtomicLoad => Some(&[Field::Type, Field::Value]),
        InstGroup::AtomicStore => Some(&[Field::Type, Field::Value, Field::Value]),
        InstGroup::Cmpxchg => Some(&[Field::Type, Field::Value, Field::Value, Field::Value]),
        InstGroup::ExtractValue => Some(&[Field::Value, Field::Index]),
        InstGroup::Fence => Some(&[]),
        InstGroup::Other => None,
    }
}

// The same of a terminator.
pub fn term_fields(group: TermGroup) -> Option<&'static [Field]>
    ensures { shape_fields (option_copied result) ≡ term_shape group }
{
    match group {
        TermGroup::Ret => Some(&[Field::SomeTyped]),
        TermGroup::Br => Some(&[Field::SomeValue, Field::Block, Field::SomeBlock]),
        TermGroup::Switch => Some(&[Field::Type, Field::Value, Field::Block, Field::Cases]),
        TermGroup::Unreachable => Some(&[]),
        TermGroup::Other => None,
    }
}

// The most indices of a getelementptr.
const GEP_INDICES: usize = 32;

// The field in front. Types and values, which most fields are, are read without a call of `item_len`.
pub fn field_len(kinds: &[u64], words: &[u64], names: u64, field: Field) -> Option<Found>
    ensures { result ≡ found_of (other_field (field_by field)) (fieldReader names (field_by field) (entries kinds.now words.now)) }
{
    match field {
        Field::Type => Some(Found::plain(type_len(kinds, words, names, LEVELS)?)),
        Field::Value => atom_len(kinds, words, names, Atom::Value),
        Field::Block => item_len(kinds, words, names, Item::Block),
        Field::Index => item_len(kinds, words, names, Item::Index),
        Field::Align => optional_len(kinds, words, names, Item::Align),
        Field::SomeTyped => optional_len(kinds, words, names, Item::Typed),
        Field::SomeValue => optional_len(kinds, words, names, Item::Value),
        Field::SomeBlock => optional_len(kinds, words, names, Item::Block),
        Field::GepIndices => list_len(kinds, words, names, Item::GepIndex, GEP_INDICES),
        Field::Incoming => list_len(kinds, words, names, Item::Incoming, shorter(kinds, words)),
        Field::Arguments => list_len(kinds, words, names, Item::Typed, shorter(kinds, words)),
        Field::Cases => list_len(kinds, words, names, Item::Case, shorter(kinds, words)),
    }
}

// The fields that follow an entry in a block: those of an instruction, whose word is a name + 1 or 0, or of a terminator, whose word is 0.
pub fn fields_behind(kind: u64, word: u64, names: u64) -> Option<&'static [Field]>
    ensures { shape_fields (option_copied result) ≡ fields_behind names kind word }
{
    if entry::RET <= kind {
        if word != 0 {
            return None;
        }
        return term_fields(term_group(kind));
    }
    if names < word {
        return None;
    }
    inst_fields(inst_group(kind))
}

// For each kind below 40 the largest word that an entry of it has where it is a field by itself, and behind these such fields, a bit
// for each by its number. The table is made once in a call and lent on.
pub fn rules(names: u64) -> [u64; 80]
    ensures { result ≡ rules_of names }
{
    let last = names.saturating_sub(1);
    let mut rule = [0u64; 80];
    // The largest words; of any other kind it is 0.
    rule[11] = 64;
    rule[15] = last;
    rule[22] = 0xFFFF_FFFF;
    rule[23] = last;
    rule[30] = last;
    rule[31] = last;
    rule[32] = 0xFFFF_FFFF_FFFF_FFFF;
    // The fields of types, of what is absent, of an index, a block's name and values.
    rule[50] = 0x2;
    rule[51] = 0x2;
    rule[52] = 0x2;
    rule[55] = 0x2;
    rule[58] = 0x2;
    rule[59] = 0x2;
    rule[60] = 0x2;
    rule[61] = 0x1E0;
    rule[62] = 0x10;
    rule[63] = 0x108;
    rule[70] = 0x84;
    rule[71] = 0x84;
    rule[72] = 0x84;
    rule[73] = 0x84;
    rule[74] = 0x84;
    rule[75] = 0x84;
    rule[76] = 0x84;
    rule[77] = 0x84;
    rule
}

// Whether the entry is the field by itself. A list, an align and what is more than an entry are left to `field_len`. The
// parts are put together without a branch, since which kind comes next is hard to foresee.
pub fn one_entry(kind: u64, word: u64, field: Field, rule: &[u64]) -> bool
    requires { length rule.now ≡ 80 }
    ensures { result ≡ alone_by rule.now kind word (digit_of field) }
{
    if entry::ADD <= kind {
        return false;
    }
    let k = kind as usize;
    (word <= rule[k])
        & ((rule[k + 40] >> field.bit()) % 2 == 1)
        & ((kind != entry::INT) | numbers::width::width_ok(word))
}
