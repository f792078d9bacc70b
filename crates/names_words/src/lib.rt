#![tactic(auto)]
// Eight bytes of a name as one word, the first of them highest, so that two names are compared by one test and a name's end is found with
// no loop.
ghost use Rattle.std.specs.Prelude.{◌≡◌, List, ℕ, ◌+◌, ◌<◌, ◌≤◌, min, length, take, drop};
ghost use Rattle.names.specs.Name.{front};
ghost use Rattle.names_words.specs.Word.{word, Octets};

// The eight bytes from `at` on. The compiler makes one load of it.
pub fn word_at(names: &[u8], at: usize) -> u64
    requires { at + 8 ≤ length names.now }
    ensures { result ≡ word 8 (drop at names.now) }
{
    let Some(part) = names[at..].first_chunk() else {
        unreachable!()
    };
    u64::from_be_bytes(*part)
}

// How many bytes of a word are characters of a name by themselves, up to the first that is none. Each byte is tested by its top bit: that of 159 less the
// byte's lower seven bits is set where these are below 32, that of one more than these where they are 127, and its own from 128 on. No
// byte's sum or difference reaches into its neighbour.
pub fn word_front(w: u64) -> usize
    ensures { (bs : List ℕ) → Octets bs → 8 ≤ length bs → w ≡ word 8 bs → result ≡ min 8 (length (front bs)) }
{
    let low = w & 0x7f7f_7f7f_7f7f_7f7f;
    let stops = ((0x9f9f_9f9f_9f9f_9f9f - low) | ((low + 0x0101_0101_0101_0101) | w))
        & 0x8080_8080_8080_8080;
    (stops.leading_zeros() / 8) as usize
}

// The first `n` bytes of a word and the one behind them, with zeros in place of the others.
pub fn word_key(w: u64, n: usize) -> u64
    requires { n < 8 }
    ensures { (bs : List ℕ) → Octets bs → w ≡ word 8 bs → result ≡ word 8 (take (n + 1) bs) }
{
    let s = 8 * (7 - n);
    (w >> s) << s
}
