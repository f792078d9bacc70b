// Word 4 of each name: where its struct's body stands among the book's entries.
ghost use Rattle.book.specs.Entry.{entries};
ghost use Rattle.layout_memo.specs.Structs.{IsBook, FirstStruct, NextStruct, Blank, StructsPlaced, AtStruct};

use crate::skip;
use book::entry;

// The place behind the marks.
fn first_struct(kinds: &[u64], words: &[u64], names: u64) -> usize
    requires { IsBook names (entries kinds.now words.now) }
    ensures { FirstStruct names (entries kinds.now words.now) result }
{
    let mut at: usize = 0;
    while kinds[at] < entry::NAMED_STRUCT {
        at = at + 1;
    }
    at
}

// Notes the struct at the place, and answers the place behind it. An opaque struct has no body.
fn place_struct(kinds: &[u64], words: &[u64], work: &mut [u64], names: u64, at: usize) -> usize
    requires { AtStruct names kinds.now words.now work.old at }
    ensures { NextStruct names (entries kinds.now words.now) work.old work.new at result }
{
    let name = words[at];
    let body = at + 1;
    if kinds[body] == entry::OPAQUE {
        return at + 2;
    }
    work[book::work::WORDS * (name as usize) + book::work::BODY] = (body + 1) as u64;
    body + skip(&kinds[body..], &words[body..], names)
}

// Notes the bodies of all structs of a book, in words that are 0.
pub fn place_structs(kinds: &[u64], words: &[u64], work: &mut [u64], names: u64)
    requires { Blank names (entries kinds.now words.now) work.old }
    ensures { StructsPlaced names (entries kinds.now words.now) work.old work.new }
{
    let mut at = first_struct(kinds, words, names);
    while kinds[at] == entry::NAMED_STRUCT {
        at = place_struct(kinds, words, work, names, at);
    }
}
