// A number's decimal digits, as bytes of text.
ghost use Rattle.std.specs.Prelude.{◌≡◌, ◌+◌, ◌<◌, ◌≤◌, length};
ghost use Rattle.std.proofs.lemmas.List.Edits.{sets};
ghost use Rattle.numbers.specs.Digits.{decimal};

// How many digits n has: 1 for 0, and 20 at most. Most numbers are short.
pub fn decimal_len(n: u64) -> usize
    ensures { result ≡ length (decimal n) }
{
    match n {
        0..=9 => 1,
        10..=99 => 2,
        _ => n.ilog10() as usize + 1,
    }
}

// Writes the digits of a number below 100. It takes no branch: a first digit of 0 is stored too, and the last one over it.
pub fn put_short(n: u64, text: &mut [u8], at: usize) -> usize
    requires n_bound { n < 100 }
    requires n_in_bounds { at + length (decimal n) ≤ length text.old }
    ensures { (result ≡ at + length (decimal n)) × (text.new ≡ sets text.old at (decimal n)) }
{
    let last = at + (if n < 10 { 0 } else { 1 });
    text[at] = 48 + (n / 10) as u8;
    text[last] = 48 + (n % 10) as u8;
    last + 1
}

// Writes n's digits from at on, where the text has room for them, and answers the place after the last.
pub fn put_decimal(n: u64, text: &mut [u8], at: usize) -> usize
    requires { at + length (decimal n) ≤ length text.old }
    ensures { (result ≡ at + length (decimal n)) × (text.new ≡ sets text.old at (decimal n)) }
{
    if n < 100 {
        return put_short(n, text, at);
    }
    let end = at + decimal_len(n);
    let mut rest = n;
    // A `for` over the places from behind tests the place and not the rest, which takes longer.
    let mut i = end;
    while 10 <= rest {
        i = i - 1;
        text[i] = 48 + (rest % 10) as u8;
        rest = rest / 10;
    }
    text[at] = 48 + rest as u8;
    end
}
