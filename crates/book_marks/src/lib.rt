#![tactic(auto)]
// Maps with a bit for each name: whether a name was seen before, and the names of a range.
ghost use Rattle.std.specs.Prelude.{◌≡◌};
ghost use Rattle.numbers.specs.Bits.{set_bit_at};
ghost use Rattle.book_marks.specs.Once.{is_new, set_if};
ghost use Rattle.book_marks.specs.Range.{marked_range};

// Whether a number is new, its bit then set.
pub fn mark_new(map: &mut [u64], x: usize) -> bool
    ensures value { result ≡ is_new map.old x }
    ensures map_after { map.new ≡ set_if result map.old x }
{
    if map.len() <= x / 64 {
        return false;
    }
    if numbers::bits::bit(map, x) {
        return false;
    }
    numbers::bits::set_bit(map, x);
    true
}

// Sets the bit of a number, where the map has it.
pub fn mark_bit(map: &mut [u64], x: usize)
    ensures { map.new ≡ set_bit_at map.old x }
{
    if x / 64 < map.len() {
        numbers::bits::set_bit(map, x);
    }
}

// Sets the bits of the numbers from `from` up to and without `to`, of those that the map has.
pub fn mark_range(map: &mut [u64], from: u64, to: u64)
    ensures { map.new ≡ marked_range map.old from to }
{
    for x in from as usize..to as usize {
        if map.len() <= x / 64 {
            return;
        }
        numbers::bits::set_bit(map, x);
    }
}
