#![tactic(auto)]
// Offsets of fields.
ghost use Rattle.std.specs.Prelude.{◌≡◌};
ghost use Rattle.book.specs.Entry.{entries};
ghost use Rattle.layout_memo.specs.Front.{StartsFields, ty_of, tys_of};
ghost use Rattle.layout_memo.specs.Work.{Ask, structs_in};
ghost use Rattle.layout_field.specs.Offsets.{left_from, FieldFound, AskStart, AskOffset, StartOutcome, OffsetOutcome, start_of, offset_of};

use book::refusal::Refusal;
use layout_align::align_of;
use layout_memo::ends::type_end;
use layout_memo::scalars::{Run, pass_scalars};
use layout_size::{placed, size_of};

// So many fields are to be passed from the place on.
pub fn fields_left(at: usize, left: u64, offset: u64) -> Run
    ensures { result ≡ left_from at left offset }
{
    Run {
        at,
        left,
        offset,
        align: 1,
        levels: 0,
    }
}

// The place of the field with this index.
pub fn field_at(kinds: &[u64], words: &[u64], names: u64, index: u64) -> Option<usize>
    requires { StartsFields names (entries kinds.now words.now) }
    ensures { FieldFound names (entries kinds.now words.now) index result }
{
    let mut at: usize = 0;
    let mut left = index;
    while kinds[at] != book::entry::END {
        if left == 0 {
            return Some(at);
        }
        let behind = at + type_end(&kinds[at..], &words[at..], names);
        let next = fields_left(behind, left - 1, 0);
        let run = pass_scalars(kinds, words, names, true, kinds.len(), next);
        at = run.at;
        left = run.left;
    }
    None
}

// Where the field at the front starts, behind so many bytes.
pub fn field_start(
    kinds: &[u64],
    words: &[u64],
    book_kinds: &[u64],
    book_words: &[u64],
    work: &mut [u64],
    names: u64,
    packed: bool,
    offset: u64,
) -> Result<u64, Refusal>
    requires { AskStart names (entries kinds.now words.now) (entries book_kinds.now book_words.now) work.old offset }
    ensures { StartOutcome names (entries book_kinds.now book_words.now) work.old work.new offset
        (start_of (structs_in names (entries book_kinds.now book_words.now)) packed (ty_of names (entries kinds.now words.now)) offset) result }
{
    if packed {
        return Ok(offset);
    }
    let align = align_of(kinds, words, book_kinds, book_words, work, names, 64)?;
    Ok(placed(packed, offset, align.bytes))
}

// The offset of the field with this index among those at the front, behind so many bytes; a refusal where there is none.
pub fn field_offset(
    kinds: &[u64],
    words: &[u64],
    book_kinds: &[u64],
    book_words: &[u64],
    work: &mut [u64],
    names: u64,
    packed: bool,
    index: u64,
    offset: u64,
) -> Result<u64, Refusal>
    requires { AskOffset names (entries kinds.now words.now) (entries book_kinds.now book_words.now) work.old offset }
    ensures { OffsetOutcome names (entries book_kinds.now book_words.now) work.old work.new
        (offset_of (structs_in names (entries book_kinds.now book_words.now)) packed (tys_of names (entries kinds.now words.now)) index offset) result }
{
    let mut at: usize = 0;
    let mut taken = offset;
    let mut left = index;
    while kinds[at] != book::entry::END {
        let ks = &kinds[at..];
        let ws = &words[at..];
        let start = field_start(ks, ws, book_kinds, book_words, work, names, packed, taken)?;
        if left == 0 {
            return Ok(start);
        }
        let size = size_of(ks, ws, book_kinds, book_words, work, names, 64)?;
        taken = start + size.bytes;
        let behind = at + type_end(ks, ws, names);
        let next = fields_left(behind, left - 1, taken);
        let run = pass_scalars(kinds, words, names, packed, kinds.len(), next);
        at = run.at;
        taken = run.offset;
        left = run.left;
    }
    Err(Refusal::GepStep)
}
