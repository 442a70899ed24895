// Numbers as text, for a page. Read specs/Text.antt first.
ghost use Rattle.std.specs.Prelude.{◌≡◌, ◌<◌, ◌≤◌, length};
ghost use Rattle.word.specs.Text.{digit_char, numeral, digit_count, natural, decimal, hexadecimal, put_answer, put_out};

use crate::part::end;

// A number in decimal, a minus sign before a negative one.
pub fn put_decimal(n: i64, out: &mut [u8], at: usize) -> Option<usize>
    ensures answer { result ≡ put_answer at (decimal n) out.old }
    ensures written { out.new ≡ put_out at (decimal n) out.old }
{
    let size = n.unsigned_abs();
    let count = digit_count(size);
    if n < 0 {
        end(out.len(), at, count + 1)?;
        out[at] = b'-';
        return put_numeral(size, 10, count, out, at + 1);
    }
    put_numeral(size, 10, count, out, at)
}

// How many characters a number in decimal has.
pub fn decimal_length(n: i64) -> usize
    ensures { result ≡ length (decimal n) }
{
    let count = digit_count(n.unsigned_abs());
    if n < 0 { count + 1 } else { count }
}

// A number that has no sign in decimal, as a page has a place.
#[tactic(auto, unfolding(crate::specs::Text::natural))]
pub fn put_natural(n: u64, out: &mut [u8], at: usize) -> Option<usize>
    ensures answer { result ≡ put_answer at (natural n) out.old }
    ensures written { out.new ≡ put_out at (natural n) out.old }
{
    put_numeral(n, 10, digit_count(n), out, at)
}

// Eight hexadecimal digits, as a page has a label.
#[tactic(auto, unfolding(crate::specs::Text::hexadecimal))]
pub fn put_hex(n: u32, out: &mut [u8], at: usize) -> Option<usize>
    ensures answer { result ≡ put_answer at (hexadecimal n) out.old }
    ensures written { out.new ≡ put_out at (hexadecimal n) out.old }
{
    put_numeral(n as u64, 16, 8, out, at)
}

// So many digits of a number, if there is room.
fn put_numeral(n: u64, base: u64, count: usize, out: &mut [u8], at: usize) -> Option<usize>
    requires { (0 < base) × (base ≤ 16) }
    ensures answer { result ≡ put_answer at (numeral base count n) out.old }
    ensures written { out.new ≡ put_out at (numeral base count n) out.old }
{
    let next = end(out.len(), at, count)?;
    fill_digits(n, base, &mut out[at..next]);
    Some(next)
}

// The lowest digit comes last, and is the first that division gives.
fn fill_digits(n: u64, base: u64, digits: &mut [u8])
    requires { (0 < base) × (base ≤ 16) }
    ensures { digits.new ≡ numeral base (length digits.old) n }
{
    let mut rest = n;
    for i in (0..digits.len()).rev() {
        digits[i] = digit(rest % base);
        rest /= base;
    }
}

// The character of a digit.
#[tactic(auto, unfolding(crate::specs::Text::digit_char))]
fn digit(d: u64) -> u8
    requires { d < 16 }
    ensures { result ≡ digit_char d }
{
    if d < 10 {
        b'0' + d as u8
    } else {
        b'a' - 10 + d as u8
    }
}

// How many decimal digits a number has: one at least, and at most the 20 of 2^64 - 1.
fn digit_count(n: u64) -> usize
    ensures { result ≡ digit_count 10 19 n }
{
    n.max(1).ilog10() as usize + 1
}
