// Where a field starts. The alignment of a long type is noted, so that the type is passed once for all questions about its place.
ghost use Rattle.std.specs.Prelude.{◌≡◌, drop};
ghost use Rattle.book.specs.Entry.{entries};
ghost use Rattle.layout_memo.specs.Front.{ty_of};
ghost use Rattle.layout_memo.specs.Work.{After, structs_in};
ghost use Rattle.layout_field.specs.Offsets.{AskStart, StartOutcome, start_of};
ghost use Rattle.layout_table.specs.Table.{AskNoteAlign};

use crate::table::{LEAST_FACTS, note_align, noted_align, room_for};
use crate::{SMALL_BOOK, opens};
use book::refusal::Refusal;
use layout_align::align_of;
use layout_field::field_start;
use layout_memo::ends::type_end;
use layout_size::placed;

// Whether the type at the place may be long, and the table has room for its alignment.
fn may_be_long(kinds: &[u64], place: usize, words: usize, names: u64) -> bool {
    kinds.len() >= SMALL_BOOK
        && place < kinds.len()
        && room_for(words, names) >= LEAST_FACTS
        && opens(kinds[place])
}

// Notes the alignment of the type at the place where the type is long.
fn note_long(
    book_kinds: &[u64],
    book_words: &[u64],
    work: &mut [u64],
    names: u64,
    place: usize,
    align: u64,
)
    requires { AskNoteAlign names (entries book_kinds.now book_words.now) work.old place align }
    ensures { After names (entries book_kinds.now book_words.now) work.old work.new }
{
    if type_end(&book_kinds[place..], &book_words[place..], names) < 64 {
        return;
    }
    note_align(book_kinds, book_words, work, names, place, align);
}

// Where the field at the place starts, behind so many bytes.
pub fn start_at(
    book_kinds: &[u64],
    book_words: &[u64],
    work: &mut [u64],
    names: u64,
    place: usize,
    packed: bool,
    offset: u64,
) -> Result<u64, Refusal>
    requires { AskStart names (drop place (entries book_kinds.now book_words.now)) (entries book_kinds.now book_words.now) work.old offset }
    ensures { StartOutcome names (entries book_kinds.now book_words.now) work.old work.new offset
        (start_of (structs_in names (entries book_kinds.now book_words.now)) packed
        (ty_of names (drop place (entries book_kinds.now book_words.now))) offset) result }
{
    if packed {
        return Ok(offset);
    }
    let ks = &book_kinds[place..];
    let ws = &book_words[place..];
    if !may_be_long(book_kinds, place, work.len(), names) {
        return field_start(ks, ws, book_kinds, book_words, work, names, packed, offset);
    }
    if let Some(noted) = noted_align(book_kinds, book_words, work, names, place) {
        return Ok(placed(packed, offset, noted));
    }
    let align = align_of(ks, ws, book_kinds, book_words, work, names, 64)?.bytes;
    note_long(book_kinds, book_words, work, names, place, align);
    Ok(placed(packed, offset, align))
}
