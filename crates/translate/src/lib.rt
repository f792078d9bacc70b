#![tactic(auto)]
// The translator: a book's functions become lines of the stack machine, as kinds and operands.
ghost use Rattle.std.specs.Prelude.{◌≡◌, min, ◌≤◌, length, get_or};
ghost use Rattle.lowering.specs.Translate.{generated, translate};
ghost use Rattle.gen_passes.specs.Passes.{Answered};
ghost use Rattle.gen_slices.specs.Clear.{Blank};
ghost use Rattle.gen_passes.specs.Reply.{Numbered};
ghost use Rattle.translate.specs.Reply.{Answer};
ghost use Rattle.translate.specs.Sound.{SoundAsk, BlankAsk};

use book::refusal::Refusal;
use book_check::check_noting;
use gen_passes::{Translation, generate};
use gen_slices::clear;

// The lines that slices of our own hold: for a book of few entries, of some, of more, of many, and for a long book of few names, which
// has work words of our own too.
const FEW: usize = 256;

const SOME: usize = 512;

const MORE: usize = 2048;

const MANY: usize = 16384;

const LONG: usize = 2048;

const LONG_NAMES: u64 = 4096;

const LONG_WORK: usize = 34816;

// The entries that a book of few has at most.
const FEW_ENTRIES: usize = 128;

// The lines of a book that the check has found sound for `lent` work words. Those that are used are 0 but for the starts of names,
// which it has noted. The first lines go into slices of our own.
fn translate_sound(
    book: &[u64],
    names: &[u8],
    counter: u64,
    lent: usize,
    work: &mut [u64],
    kinds: &mut [u16],
    operands: &mut [u64],
    own_kinds: &mut [u16],
    own_operands: &mut [u64],
) -> Result<Translation, Refusal>
    requires sound_ask { SoundAsk book.now names.now counter lent work.old }
    requires own_kinds_len { length own_kinds.old ≡ length own_operands.old }
    ensures { Answered (generated book.now names.now counter lent (min (length kinds.old) (length operands.old)))
        result kinds.old operands.old kinds.new operands.new }
{
    let words = 2 + book[0] as usize;
    generate(
        &book[2..words],
        &book[words..],
        names,
        book[1],
        counter,
        work,
        kinds,
        operands,
        own_kinds,
        own_operands,
    )
}

// The lines of a book, or the first refusal, where `lent` work words were lent. Those that are used are 0 before, and not
// afterwards.
fn translate_blank(
    book: &[u64],
    names: &[u8],
    counter: u64,
    lent: usize,
    work: &mut [u64],
    kinds: &mut [u16],
    operands: &mut [u64],
    own_kinds: &mut [u16],
    own_operands: &mut [u64],
) -> Result<Translation, Refusal>
    requires blank_ask { BlankAsk book.now lent work.old }
    requires own_kinds_len { length own_kinds.old ≡ length own_operands.old }
    ensures { Answered (generated book.now names.now counter lent (min (length kinds.old) (length operands.old)))
        result kinds.old operands.old kinds.new operands.new }
{
    check_noting(book, names, counter, lent, work)?;
    translate_sound(
        book,
        names,
        counter,
        lent,
        work,
        kinds,
        operands,
        own_kinds,
        own_operands,
    )
}

// The same with slices of our own for N lines. Each length is compiled by itself and into no caller, so that a short book does not
// pay for the pages of long slices.
#[inline(never)]
fn translate_own<const N: usize>(
    book: &[u64],
    names: &[u8],
    counter: u64,
    lent: usize,
    work: &mut [u64],
    kinds: &mut [u16],
    operands: &mut [u64],
) -> Result<Translation, Refusal>
    requires own_len { N ≤ 16384 }
    requires blank_ask { BlankAsk book.now lent work.old }
    ensures { Answered (generated book.now names.now counter lent (min (length kinds.old) (length operands.old)))
        result kinds.old operands.old kinds.new operands.new }
{
    let mut own_kinds = [0u16; N];
    let mut own_operands = [0u64; N];
    translate_blank(
        book,
        names,
        counter,
        lent,
        work,
        kinds,
        operands,
        &mut own_kinds,
        &mut own_operands,
    )
}

// The same for a long book of few names, with work words of our own too: those lent for its names leave little room for a table of
// fields.
#[inline(never)]
fn translate_long(
    book: &[u64],
    names: &[u8],
    counter: u64,
    lent: usize,
    kinds: &mut [u16],
    operands: &mut [u64],
) -> Result<Translation, Refusal>
    requires { get_or book.now 1 0 ≤ 4096 }
    ensures { Answered (generated book.now names.now counter lent (min (length kinds.old) (length operands.old)))
        result kinds.old operands.old kinds.new operands.new }
{
    let mut own_work = [0u64; LONG_WORK];
    translate_own::<LONG>(book, names, counter, lent, &mut own_work, kinds, operands)
}

// The same with slices of our own that are as long as a book of this length is likely to need, since they are cleared at each call.
fn translate_sized(
    book: &[u64],
    names: &[u8],
    counter: u64,
    work: &mut [u64],
    kinds: &mut [u16],
    operands: &mut [u64],
) -> Result<Translation, Refusal>
    requires { Blank work.old }
    ensures { Answered (generated book.now names.now counter (length work.old) (min (length kinds.old) (length operands.old)))
        result kinds.old operands.old kinds.new operands.new }
{
    let lent = work.len();
    if book.len() <= 2 * FEW_ENTRIES + 2 {
        return translate_own::<FEW>(book, names, counter, lent, work, kinds, operands);
    }
    if book.len() <= 2 * SOME + 2 {
        return translate_own::<SOME>(book, names, counter, lent, work, kinds, operands);
    }
    if book.len() <= 2 * MORE + 2 {
        return translate_own::<MORE>(book, names, counter, lent, work, kinds, operands);
    }
    if 2 * MANY + 2 < book.len() {
        if book[1] <= LONG_NAMES {
            return translate_long(book, names, counter, lent, kinds, operands);
        }
    }
    translate_own::<MANY>(book, names, counter, lent, work, kinds, operands)
}

// Translates the functions of a book: refuses with 1 to 4 over the whole book, then as `gen_function` does, then with 20, and
// then changes no line. The work words are 0 afterwards.
pub fn translate(
    book: &[u64],
    names: &[u8],
    counter: u64,
    work: &mut [u64],
    kinds: &mut [u16],
    operands: &mut [u64],
) -> Result<Translation, Refusal>
    ensures answer { Answer counter (translate book.now names.now counter work.old kinds.old operands.old)
        result work.new kinds.new operands.new }
    ensures numbered { Numbered result }
{
    clear(work);
    let r = translate_sized(book, names, counter, work, kinds, operands);
    clear(work);
    r
}
