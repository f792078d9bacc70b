// Filling the slices that are lent: words behind words, and names.
ghost use Rattle.std.specs.Prelude.{◌≡◌, ◌≤◌, ◌++◌, map, length, drop};
ghost use Rattle.try_cases.specs.Lent.{put_end, put_words, name_byte};

// Puts words into a slice from a place on, if there is room; the place behind them, or the same place.
pub fn put_words(from: &[u64], to: &mut [u64], at: usize) -> usize
    ensures { (result ≡ put_end from.now to.old at) × (to.new ≡ put_words from.now to.old at) }
{
    if to.len() < at || to.len() - at < from.len() {
        return at;
    }
    let end = at + from.len();
    to[at..end].copy_from_slice(from);
    end
}

fn name_byte(b: u8) -> u8
    ensures { result ≡ name_byte b }
{
    if b == b'|' { b'\n' } else { b }
}

// Copies names as the input has them, with `|` for the end of each, to the front of a slice.
pub fn copy_names(from: &[u8], to: &mut [u8])
    requires { length from.now ≤ length to.old }
    ensures { to.new ≡ map name_byte from.now ++ drop (length from.now) to.old }
{
    for (i, b) in from.iter().enumerate() {
        to[i] = name_byte(*b);
    }
}
