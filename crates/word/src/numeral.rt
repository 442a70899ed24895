// Numbers read from text. Read specs/Numeral.antt first.
ghost use Rattle.std.specs.Prelude.{◌≡◌, ◌<◌, drop};
ghost use Rattle.word.specs.Exact.{exactly};
ghost use Rattle.word.specs.Numeral.{leading_digits, signed_by, decimal_at, capped_more, capped_digits, capped_decimal};

// A decimal number and the position after it: a word, or beyond the words; or that no number is there. Three answers, of which two have a
// position: an Option of an Option would not say which is which.
#[derive(Clone, Copy, PartialEq, Eq, Debug)]
pub enum Decimal {
    Is(i64, usize),
    Beyond(usize),
    Missing,
}

// The number that some digits are, as far as it is below 10^19, and the position after them.
#[derive(Clone, Copy)]
struct Digits {
    value: u64,
    next: usize,
}

// The decimal number at a position: all digits from there on, or from the next position on after a minus.
pub fn decimal_at(s: &[u8], at: usize) -> Decimal
    ensures { result ≡ decimal_at s.now at }
{
    if s.get(at) == Some(&b'-') {
        signed_digits(true, at + 1, leading(s, at + 1))
    } else {
        signed_digits(false, at, leading(s, at))
    }
}

// Digits from a position on, of which there may be none, as a number with its sign.
fn signed_digits(minus: bool, at: usize, digits: Digits) -> Decimal
    ensures { result ≡ capped_decimal minus at digits.value digits.next }
{
    if digits.next == at {
        return Decimal::Missing;
    }
    match signed(minus, digits.value) {
        Some(n) => Decimal::Is(n, digits.next),
        None => Decimal::Beyond(digits.next),
    }
}

// A number with its sign, where it is a word.
fn signed(minus: bool, size: u64) -> Option<i64>
    ensures { result ≡ exactly (signed_by minus size) }
{
    if minus {
        0i64.checked_sub_unsigned(size)
    } else {
        0i64.checked_add_unsigned(size)
    }
}

// The digits from a position on. A number of any length has its value here: from 10^19 on it is 10^19.
fn leading(s: &[u8], at: usize) -> Digits
    ensures { result ≡ capped_digits at (leading_digits (drop at s.now)) }
{
    let mut value: u64 = 0;
    // a `while`, since the position that it stops at is an answer too
    let mut next = at;
    while next < s.len() && s[next].is_ascii_digit() {
        value = more(value, s[next] as u64 - b'0' as u64);
        next += 1;
    }
    Digits { value, next }
}

// One digit more.
#[tactic(auto, unfolding(crate::specs::Numeral::capped_more))]
fn more(value: u64, digit: u64) -> u64
    requires { digit < 10 }
    ensures { result ≡ capped_more value digit }
{
    if value < 1_000_000_000_000_000_000 {
        value * 10 + digit
    } else {
        10_000_000_000_000_000_000
    }
}
