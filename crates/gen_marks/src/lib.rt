#![tactic(auto)]
// Work word 5 of each name: how a global of that name is called. 2 for a name that starts `__uvm_`, 3 for `bcmp` and `memcmp`,
// 1 for another that is defined here, else 0; and 4 more where the name contains `.with.overflow.`. Until this is placed, the word
// holds where the next name starts, as the check has noted it.
ghost use Rattle.std.specs.Prelude.{◌≡◌, ℕ, ◌<◌, ◌||◌, List, length};
ghost use Rattle.std.proofs.Math.Option.{some};
ghost use Rattle.names.specs.Text.{bytes, starts};
ghost use Rattle.names.specs.Name.{names_of, name_from};
ghost use Rattle.names.specs.Spelling.{is_syscall, is_bcmp, is_memcmp, has_overflow};
ghost use Rattle.book.specs.Ast.{Book};
ghost use Rattle.book.specs.Entry.{entries};
ghost use Rattle.book.specs.Decode.{decode};
ghost use Rattle.lowering.specs.Context.{codegen_of};
ghost use Rattle.gen_marks.specs.Mark.{spelled as spelledAs, with_overflow, defined_mark};
ghost use Rattle.gen_marks.specs.Spelling.{Ended, SpellAsked, SpellDone};
ghost use Rattle.gen_marks.specs.Defined.{defines as definesOf, DefineAsked, DefineDone, MarksAsked, MarksPlaced};

use book::{entry, work};
use book_types::shorter;
use names_spelling::name_starts;

// Whether the name at `at` starts `__uvm_`. Most have another first byte.
fn is_syscall(names: &[u8], at: usize) -> bool
    requires { at < length names.now }
    ensures { result ≡ is_syscall (name_from names.now at) }
{
    names[at] == b'_' && name_starts(names, at, b"__uvm_")
}

// Whether the name that goes from `at` to `end` is `bcmp` or `memcmp`. Most have another length.
fn is_memcmp(names: &[u8], at: usize, end: usize) -> bool
    requires { Ended names.now at end }
    ensures { result ≡ (is_bcmp (name_from names.now at) || is_memcmp (name_from names.now at)) }
{
    let long = end - at;
    if long == 4 {
        return name_starts(names, at, b"bcmp");
    }
    if long == 6 {
        return name_starts(names, at, b"memcmp");
    }
    false
}

// The class of the name that goes from `at` to `end`, by its spelling.
fn spelled(names: &[u8], at: usize, end: usize) -> u64
    requires { Ended names.now at end }
    ensures { result ≡ spelledAs (name_from names.now at) }
{
    if is_syscall(names, at) {
        return work::CALL_SYSCALL;
    }
    if is_memcmp(names, at, end) {
        return work::CALL_MEMCMP;
    }
    work::CALL_NONE
}

// Whether the name from `at` on starts with `.with.overflow.`. A call of its own: compiled into the loop over a name's bytes, its first
// tests are made at each of them and not at each `.` alone.
#[inline(never)]
fn starts_overflow(names: &[u8], at: usize) -> bool
    ensures { result ≡ starts (bytes ".with.overflow.") (name_from names.now at) }
{
    name_starts(names, at, b".with.overflow.")
}

// Whether the name that goes from `at` to `end` contains `.with.overflow.`. Most are shorter than these 15 bytes, and not looked through.
fn overflows(names: &[u8], at: usize, end: usize) -> bool
    requires { Ended names.now at end }
    ensures { result ≡ has_overflow (name_from names.now at) }
{
    if end - at < 15 {
        return false;
    }
    for i in at..end - 14 {
        if names[i] == b'.' {
            if starts_overflow(names, i) {
                return true;
            }
        }
    }
    false
}

// A class as a word, before it is known whether the name is defined here.
fn with_overflow(class: u64, overflow: bool) -> u64
    requires { class < 4 }
    ensures { result ≡ with_overflow class overflow }
{
    if overflow {
        class + work::OVERFLOW
    } else {
        class
    }
}

// The word of a name that is defined here.
fn defined(word: u64) -> u64
    ensures { result ≡ defined_mark word }
{
    if word % work::OVERFLOW == work::CALL_NONE {
        word + work::CALL_DEFINED
    } else {
        word
    }
}

// Every name by its spelling, in place of the next one's start. A loop by hand, since the step is a name's length.
fn spell_marks(names: &[u8], work: &mut [u64], count: u64)
    requires { SpellAsked names.now count work.old }
    ensures { SpellDone names.now count work.old work.new }
{
    let mut at: usize = 0;
    let mut x: usize = 0;
    while at < names.len() {
        let place = book::work::WORDS * x + book::work::MARK;
        let end = work[place] as usize - 1;
        work[place] = with_overflow(spelled(names, at, end), overflows(names, at, end));
        x = x + 1;
        at = end + 1;
    }
}

// Whether an entry of this kind defines the name that is its word: a mark, or a function.
fn defines(kind: u64) -> bool
    ensures { result ≡ definesOf kind }
{
    (kind == entry::DEFINED) | (kind == entry::FUNCTION)
}

// The names that the book's marks and functions define.
fn define_marks(kinds: &[u64], words: &[u64], work: &mut [u64], count: u64)
    requires { DefineAsked count (entries kinds.now words.now) work.old }
    ensures { DefineDone count (entries kinds.now words.now) work.old work.new }
{
    for at in 0..shorter(kinds, words) {
        if defines(kinds[at]) {
            let place = book::work::WORDS * (words[at] as usize) + book::work::MARK;
            work[place] = defined(work[place]);
        }
    }
}

// The marks of all names: the names are `count`.
pub fn place_marks(kinds: &[u64], words: &[u64], names: &[u8], work: &mut [u64], count: u64)
    requires { MarksAsked names.now count (entries kinds.now words.now) work.old }
    ensures { (ns : List (List ℕ)) (b : Book) → names_of names.now ≡ some ns
        → decode count (entries kinds.now words.now) ≡ some b
        → MarksPlaced count (codegen_of ns b) work.old work.new }
{
    spell_marks(names, work, count);
    define_marks(kinds, words, work, count);
}
