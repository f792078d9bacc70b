// Reading the input: how far a byte is, a number, a token.
ghost use Rattle.std.specs.Prelude.{◌≡◌, length};
ghost use Rattle.try_cases.specs.Text.{up_to, with_digit, number_in, token_in};

// How many bytes stand before the first that is `wanted`; all of them where none is.
pub fn before(text: &[u8], wanted: u8) -> usize
    ensures { result ≡ length (up_to wanted text.now) }
{
    for (i, b) in text.iter().enumerate() {
        if *b == wanted {
            return i;
        }
    }
    text.len()
}

// A number with one digit more, modulo 2^64; a digit's value is the low half of its byte.
fn with_digit(value: u64, b: u8) -> u64
    ensures { result ≡ with_digit value b }
{
    value.wrapping_mul(10).wrapping_add((b % 16) as u64)
}

// A number and how many digits it has.
#[derive(Clone, Copy)]
pub struct Number {
    pub value: u64,
    pub digits: usize,
}

// The number that stands in front, 0 of no digits where none does.
fn read_number(text: &[u8]) -> Number
    ensures { result ≡ number_in text.now }
{
    let mut value: u64 = 0;
    for (i, b) in text.iter().enumerate() {
        if !b.is_ascii_digit() {
            return Number { value, digits: i };
        }
        value = with_digit(value, *b);
    }
    Number {
        value,
        digits: text.len(),
    }
}

// A number, the byte behind it and a number behind that; what is not there is 0.
#[derive(Clone, Copy)]
pub struct Token {
    pub first: u64,
    pub mark: u8,
    pub second: u64,
}

pub fn read_token(word: &[u8]) -> Token
    ensures { result ≡ token_in word.now }
{
    let first = read_number(word);
    let n = first.digits;
    if word.len() <= n {
        return Token {
            first: first.value,
            mark: 0,
            second: 0,
        };
    }
    let second = read_number(&word[n + 1..]);
    Token {
        first: first.value,
        mark: word[n],
        second: second.value,
    }
}
