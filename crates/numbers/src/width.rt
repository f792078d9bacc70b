// Integers of a width in bits, as an instruction has them, kept in a u64.
ghost use Rattle.std.specs.Prelude.{◌≡◌};
ghost use Rattle.numbers.specs.Width.{mask_to_width, sign_extend, width_ok};

// The low bits of v, as many as the width says: all of them from 64 on, and none at 0.
pub fn mask_to_width(v: u64, width: u32) -> u64
    ensures { result ≡ mask_to_width v width }
{
    if 64 <= width {
        v
    } else {
        v & ((1u64 << width) - 1)
    }
}

// The low bits of v read as two's complement, as a word of 64 bits: the top one is repeated above.
pub fn sign_extend(v: u64, width: u32) -> u64
    ensures { result ≡ sign_extend v width }
{
    if width == 0 {
        return 0;
    }
    if 64 <= width {
        return v;
    }
    let low = mask_to_width(v, width);
    if low < 1u64 << (width - 1) {
        low
    } else {
        low + (u64::MAX - ((1u64 << width) - 1))
    }
}

// Whether a book may have integers of the width.
pub fn width_ok(w: u64) -> bool
    ensures { result ≡ width_ok w }
{
    matches!(w, 1 | 8 | 16 | 32 | 64)
}
