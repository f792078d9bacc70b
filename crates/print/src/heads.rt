// Where the functions of a book stand: each begins with the only entry of kind 5 that it has.
ghost use Rattle.std.specs.Prelude.{◌≡◌, ◌&&◌, List, ℕ, ◌+◌, ◌-◌, ◌*◌, ◌<◌, ◌≤◌, eqb, length};
ghost use Rattle.print.specs.Heads.{first_five, head_of, Zeroed, Noted, Here, Indexed, Sought};

use crate::params::function_params;
use book::entry;

// Where a function stands, and how many parameters it has.
#[derive(Clone, Copy, Debug, PartialEq, Eq)]
pub struct Head {
    pub at: usize,
    pub params: u64,
}

// The index of the first entry of kind 5, that of the first function; the number of entries where there is none.
pub fn function_place(kinds: &[u64]) -> usize
    ensures { result ≡ first_five kinds.now }
{
    for (i, kind) in kinds.iter().enumerate() {
        if *kind == entry::FUNCTION {
            return i;
        }
    }
    kinds.len()
}

// Notes for the name x the window of 32 entries that the place i lies in, counted from 1, where a function begins there and no window is noted
// (0 stands for none: fixed memory).
fn note_head(index: &mut [u16], kind: u64, x: u64, i: usize)
    requires { i < 1048576 }
    ensures { (ks ws : List ℕ) → Here ks ws i kind x → Noted ks ws i index.old → Noted ks ws (i + 1) index.new }
{
    if kind != entry::FUNCTION {
        return;
    }
    let name = x as usize;
    if index.len() <= name {
        return;
    }
    if index[name] != 0 {
        return;
    }
    index[name] = (i / 32 + 1) as u16;
}

// Notes for each name the window in which the first function of that name stands, by one pass over the entries.
pub fn note_functions(kinds: &[u64], words: &[u64], index: &mut [u16])
    requires kinds_len { length kinds.now ≡ length words.now }
    requires kinds_len_bound { length kinds.now ≤ 1048576 }
    requires zeroed { Zeroed index.old }
    ensures { Noted kinds.now words.now (length kinds.now) index.new }
{
    for (i, kind) in kinds.iter().enumerate() {
        note_head(index, *kind, words[i], i);
    }
}

// Whether an entry begins a function named x.
fn is_head(kind: u64, word: u64, x: u64) -> bool
    ensures { result ≡ (eqb kind 5 && eqb x word) }
{
    (kind == entry::FUNCTION) & (x == word)
}

// The place where a window begins.
fn window_start(window: u16) -> usize
    requires { 0 < window }
    ensures { result ≡ (window - 1) * 32 }
{
    (window as usize - 1) * 32
}

// The place of the first function named x, from its window on: at most 32 entries are passed. The number of entries where there is none.
fn place_of(kinds: &[u64], words: &[u64], index: &[u16], x: u64) -> usize
    requires kinds_len { length kinds.now ≡ length words.now }
    requires noted { Noted kinds.now words.now (length kinds.now) index.now }
    requires x_in_bounds { x < length index.now }
    ensures { result ≡ head_of x kinds.now words.now }
{
    let window = index[x as usize];
    if window == 0 {
        return kinds.len();
    }
    for i in window_start(window)..kinds.len() {
        if is_head(kinds[i], words[i], x) {
            return i;
        }
    }
    kinds.len()
}

// The function that is named `own`, in a book of `count` names; none where there is none.
pub fn find_head(kinds: &[u64], words: &[u64], count: u64, index: &[u16], own: u64) -> Option<Head>
    requires { Indexed count kinds.now words.now index.now }
    ensures { Sought count kinds.now words.now own result }
{
    if count <= own {
        return None;
    }
    let at = place_of(kinds, words, index, own);
    if kinds.len() <= at {
        return None;
    }
    let params = function_params(&kinds[at..], &words[at..], count);
    Some(Head { at, params })
}
