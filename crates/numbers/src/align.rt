// Alignments: powers of two, found by counting ones, with the exponent from the trailing zeros.
ghost use Rattle.std.specs.Prelude.{◌≡◌, ◌+◌, ◌^◌, ◌≤◌};
ghost use Rattle.numbers.specs.Align.{align_up, is_align};

// Whether a stated align is one that a book may have: a power of two up to 4,096.
pub fn is_align(a: u64) -> bool
    ensures { result ≡ is_align a }
{
    a <= 4096 && a.count_ones() == 1
}

// off rounded up to a multiple of align. An align of 0 or 1 leaves it as it is. A power of two
// rounds by its exponent, and any other align by a division, so that a caller shows one thing
// alone: that the sum fits. `next_multiple_of` would divide by a power of two as well.
pub fn align_up(off: u64, align: u64) -> u64
    requires { off + align ≤ 2 ^ 64 }
    ensures { result ≡ align_up off align }
{
    if align <= 1 {
        return off;
    }
    let last = off + (align - 1);
    if align.count_ones() == 1 {
        let e = align.trailing_zeros();
        return (last >> e) << e;
    }
    last / align * align
}
