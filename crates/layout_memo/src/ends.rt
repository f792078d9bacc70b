// Where a type of a sound book ends: nothing of it is tested, so that passing it costs little.
ghost use Rattle.std.specs.Prelude.{◌≡◌, ◌≤◌};
ghost use Rattle.book.specs.Entry.{entries};
ghost use Rattle.layout_memo.specs.Front.{Starts, ty_len};
ghost use Rattle.layout_memo.specs.Ends.{opens_by, array_kind};

use book::entry;

// The lists that are open behind an entry of this kind.
fn opened(kind: u64, lists: usize) -> usize
    requires { (kind ≡ 0 → 1 ≤ lists) × (lists ≤ 1048576) }
    ensures { result ≡ opens_by kind lists }
{
    match kind {
        entry::END => lists - 1,
        entry::STRUCT | entry::PACKED_STRUCT => lists + 1,
        _ => lists,
    }
}

// Whether an array begins with an entry of this kind.
fn is_array(kind: u64) -> bool
    ensures { result ≡ array_kind kind }
{
    matches!(kind, entry::ARRAY | entry::PACKED_ARRAY)
}

// The number of entries of the type at the front.
pub fn type_end(kinds: &[u64], words: &[u64], names: u64) -> usize
    requires { Starts names (entries kinds.now words.now) }
    ensures { result ≡ ty_len names (entries kinds.now words.now) }
{
    // No `for`: how many entries a type has is known only behind them.
    let mut at: usize = 0;
    while is_array(kinds[at]) {
        at += 1;
    }
    let mut lists = opened(kinds[at], 0);
    at += 1;
    while lists != 0 {
        lists = opened(kinds[at], lists);
        at += 1;
    }
    at
}
