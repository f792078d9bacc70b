// Lines in segments: each goes from one comment line up to the next that names another function, and its lines belong to the function that the
// first one names. The entries are those of a book of `count` names; the names from `from` up to `to` start with `__uvm_`.
ghost use Rattle.std.specs.Prelude.{◌≡◌, true, ◌&&◌, ◌++◌, ◌+◌, ◌≤◌, length, drop};
ghost use Rattle.print_pen.specs.Write.{Wrote};
ghost use Rattle.print_words.specs.Words.{Tables, word_places};
ghost use Rattle.print_types.specs.Starts.{Starts};
ghost use Rattle.print_forms.specs.All.{allowed_all};
ghost use Rattle.print_lines.specs.All.{printed_all};
ghost use Rattle.print_lines.specs.Weigh.{Weighed};
ghost use Rattle.print.specs.Heads.{is_fn, Indexed};
ghost use Rattle.print.specs.Segments.{stays, run, headed_kinds, stand_from, printed_from};
ghost use Rattle.print.specs.Passes.{Named, one_of};

use crate::heads::find_head;
use assembly::line;
use book::refusal::Refusal;
use print_forms::pick;
use print_lines::weigh::weigh_lines;
use print_lines::write_lines;
use print_types::starts::name_of;

// Whether no block label and no jump to one stands before the first comment line.
pub fn headed(line_kinds: &[u16]) -> bool
    ensures { result ≡ headed_kinds line_kinds.now }
{
    for kind in line_kinds {
        match *kind {
            line::COMMENT => return true,
            line::BLOCK_LABEL | line::JMP_BLOCK => return false,
            _ => {}
        }
    }
    true
}

// Whether a line behind one of the function named `own` belongs to it: it is no comment, or one of this function.
fn same_segment(kind: u16, x: u64, own: u64) -> bool
    ensures { result ≡ stays own kind x }
{
    (kind != line::COMMENT) | (x == own)
}

// The end of the segment of the function named `own` from the line `start` on: the next comment line that names another.
fn segment_end(line_kinds: &[u16], operands: &[u64], start: usize, own: u64) -> usize
    requires line_kinds_len { length line_kinds.now ≡ length operands.now }
    requires start_in_bounds { start ≤ length line_kinds.now }
    ensures { result ≡ start + run own (drop start line_kinds.now) (drop start operands.now) }
{
    for i in start..line_kinds.len() {
        if !same_segment(line_kinds[i], operands[i], own) {
            return i;
        }
    }
    line_kinds.len()
}

// Weighs lines of the function named `own` behind `before` bytes; they may not stand where there is none.
fn weigh_under(
    text: &mut [u8],
    before: usize,
    places: &[u16],
    names: &[u8],
    starts: &[u64],
    every: bool,
    kinds: &[u64],
    words: &[u64],
    count: u64,
    from: u64,
    to: u64,
    index: &[u16],
    own: u64,
    line_kinds: &[u16],
    operands: &[u64],
) -> Result<usize, Refusal>
    requires places_value { places.now ≡ word_places }
    requires starts { Starts every names.now starts.now }
    requires named { Named names.now count from to }
    requires indexed { Indexed count kinds.now words.now index.now }
    requires before_in_bounds { before ≤ length text.old }
    ensures { Weighed (is_fn count kinds.now words.now own && allowed_all count own from to line_kinds.now operands.now)
        (before + length (printed_all (one_of names.now count kinds.now words.now own) line_kinds.now operands.now)) text.old text.new result }
{
    let Some(head) = find_head(kinds, words, count, index, own) else {
        return Err(Refusal::BadLine);
    };
    let behind = head.at + 1;
    weigh_lines(
        text,
        before,
        places,
        names,
        starts,
        every,
        name_of(names, starts, every, own),
        &kinds[behind..],
        &words[behind..],
        head.params,
        line_kinds,
        operands,
        count,
        own,
        from,
        to,
    )
}

// Weighs all lines, where those before the first comment line belong to the function named `first`. That a line may not stand comes first, so
// the others are still weighed where the text is too short. Nothing is written.
pub fn weigh_segments(
    text: &mut [u8],
    places: &[u16],
    names: &[u8],
    starts: &[u64],
    every: bool,
    kinds: &[u64],
    words: &[u64],
    count: u64,
    from: u64,
    to: u64,
    index: &[u16],
    first: u64,
    line_kinds: &[u16],
    operands: &[u64],
) -> Result<usize, Refusal>
    requires places_value { places.now ≡ word_places }
    requires starts { Starts every names.now starts.now }
    requires named { Named names.now count from to }
    requires indexed { Indexed count kinds.now words.now index.now }
    requires line_kinds_len { length line_kinds.now ≡ length operands.now }
    ensures { Weighed (stand_from (is_fn count kinds.now words.now) count from to first line_kinds.now operands.now)
        (length (printed_from (one_of names.now count kinds.now words.now) first line_kinds.now operands.now)) text.old text.new result }
{
    let mut own = first;
    // (no `Option` of n: behind a text that is too short the others are weighed from n on)
    let mut short = false;
    let mut n: usize = 0;
    let mut i: usize = 0;
    // (no `for`: a step is as long as a segment)
    while i < line_kinds.len() {
        own = pick(line_kinds[i] == line::COMMENT, operands[i], own);
        let j = segment_end(line_kinds, operands, i, own);
        match weigh_under(
            text,
            n,
            places,
            names,
            starts,
            every,
            kinds,
            words,
            count,
            from,
            to,
            index,
            own,
            &line_kinds[i..j],
            &operands[i..j],
        ) {
            Ok(next) => n = next,
            Err(Refusal::NoRoom) => short = true,
            Err(refused) => return Err(refused),
        }
        i = j;
    }
    if short { Err(Refusal::NoRoom) } else { Ok(n) }
}

// Writes lines of the function named `own`, which is there, from the index `start` on, where it is known that they fit: gives the index behind them.
fn write_under(
    text: &mut [u8],
    start: usize,
    end: usize,
    letters: &[u8],
    places: &[u16],
    names: &[u8],
    starts: &[u64],
    every: bool,
    kinds: &[u64],
    words: &[u64],
    count: u64,
    from: u64,
    to: u64,
    index: &[u16],
    own: u64,
    line_kinds: &[u16],
    operands: &[u64],
) -> usize
    requires tables { Tables letters.now places.now }
    requires starts { Starts every names.now starts.now }
    requires named { Named names.now count from to }
    requires indexed { Indexed count kinds.now words.now index.now }
    requires own_value { is_fn count kinds.now words.now own ≡ true }
    requires operands_value { allowed_all count own from to line_kinds.now operands.now ≡ true }
    requires operands_bound { start + length (printed_all (one_of names.now count kinds.now words.now own) line_kinds.now operands.now) ≤ end }
    requires end_in_bounds { end ≤ length text.old }
    ensures { Wrote (printed_all (one_of names.now count kinds.now words.now own) line_kinds.now operands.now) start end text.old text.new result }
{
    let Some(head) = find_head(kinds, words, count, index, own) else {
        return start;
    };
    let behind = head.at + 1;
    write_lines(
        text,
        start,
        end,
        letters,
        places,
        names,
        starts,
        every,
        name_of(names, starts, every, own),
        &kinds[behind..],
        &words[behind..],
        head.params,
        line_kinds,
        operands,
    )
}

// Writes all lines, of `end` bytes, which fit.
pub fn write_segments(
    text: &mut [u8],
    end: usize,
    letters: &[u8],
    places: &[u16],
    names: &[u8],
    starts: &[u64],
    every: bool,
    kinds: &[u64],
    words: &[u64],
    count: u64,
    from: u64,
    to: u64,
    index: &[u16],
    first: u64,
    line_kinds: &[u16],
    operands: &[u64],
)
    requires tables { Tables letters.now places.now }
    requires starts { Starts every names.now starts.now }
    requires named { Named names.now count from to }
    requires indexed { Indexed count kinds.now words.now index.now }
    requires line_kinds_len { length line_kinds.now ≡ length operands.now }
    requires operands_value { stand_from (is_fn count kinds.now words.now) count from to first line_kinds.now operands.now ≡ true }
    requires end_value { end ≡ length (printed_from (one_of names.now count kinds.now words.now) first line_kinds.now operands.now) }
    requires end_in_bounds { end ≤ length text.old }
    ensures { text.new ≡ printed_from (one_of names.now count kinds.now words.now) first line_kinds.now operands.now ++ drop end text.old }
{
    let mut own = first;
    let mut at: usize = 0;
    let mut i: usize = 0;
    // (no `for`, as above; the walk is not shared: a closure would have both contracts)
    while i < line_kinds.len() {
        own = pick(line_kinds[i] == line::COMMENT, operands[i], own);
        let j = segment_end(line_kinds, operands, i, own);
        at = write_under(
            text,
            at,
            end,
            letters,
            places,
            names,
            starts,
            every,
            kinds,
            words,
            count,
            from,
            to,
            index,
            own,
            &line_kinds[i..j],
            &operands[i..j],
        );
        i = j;
    }
}
