// A map of bits in words of 64, which tells the numbers that were seen from those that were not.
ghost use Rattle.std.specs.Prelude.{◌≡◌, ◌/◌, ◌<◌, length};
ghost use Rattle.numbers.specs.Bits.{bit_at, set_bit_at};

// Whether the bit i is set. Past the map's end none is.
pub fn bit(map: &[u64], i: usize) -> bool
    ensures { result ≡ bit_at map.now i }
{
    match map.get(i / 64) {
        Some(word) => (*word >> (i % 64)) % 2 == 1,
        None => false,
    }
}

// Sets the bit i, which the map has.
pub fn set_bit(map: &mut [u64], i: usize)
    requires { i / 64 < length map.old }
    ensures { map.new ≡ set_bit_at map.old i }
{
    map[i / 64] |= 1u64 << (i % 64);
}
