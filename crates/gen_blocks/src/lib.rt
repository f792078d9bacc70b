#![tactic(auto)]
// Work words 0 and 2 of names: a function's parameters and its blocks. `names` is the number of the book's names.
ghost use Rattle.std.specs.Prelude.{◌≡◌, List, ℕ};
ghost use Rattle.book.specs.Ast.{BasicBlock, Function, Param};
ghost use Rattle.book.specs.Entry.{Entry, entries};
ghost use Rattle.layout_memo.specs.Structs.{IsBook};
ghost use Rattle.gen_blocks.specs.Function.{FunctionsAt, functions_in, last_of};
ghost use Rattle.gen_blocks.specs.Params.{AtParam, NextParam, ParamsAsked, ParamsPlaced};
ghost use Rattle.gen_blocks.specs.Blocks.{BlocksAsked, BlocksPlaced, FunctionAsked, FunctionPlaced};

use book::entry;
use book_types::shorter;
use layout_memo::skip;

// The place of the first function's entry. The contract knows that there is one, which an iterator would test at each entry.
pub fn find_function(kinds: &[u64], words: &[u64], names: u64) -> usize
    requires { IsBook names (entries kinds.now words.now) }
    ensures { FunctionsAt names (entries kinds.now words.now) (last_of (entries kinds.now words.now)) result
        (functions_in names (entries kinds.now words.now)) }
{
    let mut at: usize = 0;
    while kinds[at] != entry::FUNCTION {
        at += 1;
    }
    at
}

// Notes the parameter at the front, which has this index, and answers the number of its entries.
fn place_param(kinds: &[u64], words: &[u64], work: &mut [u64], names: u64, index: u64) -> usize
    requires { (all : List Param) × ((rest : List Entry) × AtParam names all rest kinds.now words.now work.old index) }
    ensures { (all : List Param) (rest : List Entry) → AtParam names all rest kinds.now words.now work.old index
        → NextParam names all rest (entries kinds.now words.now) work.old work.new index result }
{
    let name = words[0];
    let next = 1 + skip(&kinds[1..], &words[1..], names);
    if name == 0 {
        return next;
    }
    work[book::work::WORDS * ((name - 1) as usize)] = index + 1;
    next
}

// Notes all parameters of the function at the front, and answers the place of its list of blocks.
fn place_params(kinds: &[u64], words: &[u64], work: &mut [u64], names: u64) -> usize
    requires { (f : Function) × ((rest : List Entry) × ParamsAsked names f rest (entries kinds.now words.now) work.old) }
    ensures { (f : Function) (rest : List Entry) → ParamsAsked names f rest (entries kinds.now words.now) work.old
        → ParamsPlaced names f rest (entries kinds.now words.now) work.old work.new result }
{
    let mut next = 1 + skip(&kinds[1..], &words[1..], names);
    let mut index: u64 = 0;
    while kinds[next] == entry::PARAM {
        next += place_param(&kinds[next..], &words[next..], work, names, index);
        index += 1;
    }
    next + 1
}

// Notes all blocks of the list at the front, which stands at the place `at` of the book: for each, the place of its first
// instruction in the book. Answers the number of entries to the next function's, or to the end.
fn place_blocks(kinds: &[u64], words: &[u64], work: &mut [u64], names: u64, at: usize) -> usize
    requires { (blocks : List BasicBlock) × ((rest : List Entry) × ((book : List Entry)
        × BlocksAsked names blocks rest book at (entries kinds.now words.now) work.old)) }
    ensures { (blocks : List BasicBlock) (rest book : List Entry)
        → BlocksAsked names blocks rest book at (entries kinds.now words.now) work.old
        → BlocksPlaced names blocks rest book (entries kinds.now words.now) work.old work.new result }
{
    let end = shorter(kinds, words);
    for next in 0..end {
        if kinds[next] == entry::FUNCTION {
            return next;
        }
        if kinds[next] == entry::BLOCK {
            let first = (at + next + 2) as u64;
            work[book::work::WORDS * (words[next] as usize) + book::work::BLOCK] = first;
        }
    }
    end
}

// Where a function's list of blocks stands in the book, and where the function ends.
#[derive(Clone, Copy)]
pub struct Placed {
    pub blocks: usize,
    pub end: usize,
}

// Notes the parameters and the blocks of the function at the front, in words that are 0. The part has the functions from this
// one on, and stands at the place `at` of the book.
pub fn place_function(
    kinds: &[u64],
    words: &[u64],
    work: &mut [u64],
    names: u64,
    at: usize,
) -> Placed
    requires { (book : List Entry) × ((last : ℕ) × FunctionAsked names book last (entries kinds.now words.now) at work.old) }
    ensures { (book : List Entry) (last : ℕ) → FunctionAsked names book last (entries kinds.now words.now) at work.old
        → FunctionPlaced names book at work.old work.new result }
{
    let first = place_params(kinds, words, work, names);
    let blocks = at + first;
    let left = place_blocks(&kinds[first..], &words[first..], work, names, blocks);
    Placed {
        blocks,
        end: blocks + left,
    }
}
