// Fields of fixed width in a run of bytes: the operands on sheets, the numbers of a job. Read specs/Field.antt first.
ghost use Rattle.std.specs.Prelude.{◌≡◌, ℕ, ◌+◌, ◌<◌, ◌≤◌, length, take, drop, MatchOption};
ghost use Rattle.std.proofs.Common.{lit<, lit≤};
ghost use Rattle.word.specs.Digits.{value_of};
ghost use Rattle.word.specs.Field.{unsigned_at, signed_at, bytes_of};
ghost use Rattle.word.specs.Text.{put_answer, put_out};

use crate::part::{end, put_bytes};
use crate::wrap::complement;

// A number of so many bytes.
pub trait Width {
    const BYTES: usize;

    ghost BYTES: { ℕ };

    ghost in_a_word: { (0 < BYTES) × (BYTES ≤ 8) };
}

impl Width for u8 {
    const BYTES: usize = 1;

    ghost BYTES = { 1 };

    ghost in_a_word = { (lit< tt, lit≤ tt) };
}

impl Width for i16 {
    const BYTES: usize = 2;

    ghost BYTES = { 2 };

    ghost in_a_word = { (lit< tt, lit≤ tt) };
}

impl Width for i32 {
    const BYTES: usize = 4;

    ghost BYTES = { 4 };

    ghost in_a_word = { (lit< tt, lit≤ tt) };
}

impl Width for i64 {
    const BYTES: usize = 8;

    ghost BYTES = { 8 };

    ghost in_a_word = { (lit< tt, lit≤ tt) };
}

// A signed number of so many bytes, low byte first, at an offset; where the bytes end before it, it is cut.
pub fn signed_at<W: Width>(s: &[u8], at: usize) -> Option<i64>
    ensures { result ≡ signed_at W.BYTES s.now at }
{
    let field = field_at(s, at, W::BYTES)?;
    Some(complement(bits(field), 8 * W::BYTES))
}

// An unsigned number of four bytes.
pub fn u32_at(s: &[u8], at: usize) -> Option<i64>
    ensures { result ≡ unsigned_at 4 s.now at }
{
    let field = field_at(s, at, 4)?;
    Some(bits(field) as i64)
}

// The bytes of a field, unless it is cut.
fn field_at(s: &[u8], at: usize, width: usize) -> Option<&[u8]>
    ensures { MatchOption result (length s.now < at + width) (λ field. (at + width ≤ length s.now) × (field.now ≡ take width (drop at s.now))) }
{
    let next = end(s.len(), at, width)?;
    Some(&s[at..next])
}

// The little-endian number in some bytes: the highest byte is the last.
fn bits(field: &[u8]) -> u64
    requires { length field.now ≤ 8 }
    ensures { result ≡ value_of 256 field.now }
{
    let mut number: u64 = 0;
    for i in (0..field.len()).rev() {
        number = number * 256 + field[i] as u64;
    }
    number
}

// Writes a number as so many bytes, low byte first, if there is room; a number that they do not hold is cut to its lowest bits.
pub fn put<W: Width>(number: i64, out: &mut [u8], at: usize) -> Option<usize>
    ensures answer { result ≡ put_answer at (bytes_of W.BYTES number) out.old }
    ensures written { out.new ≡ put_out at (bytes_of W.BYTES number) out.old }
{
    put_bytes(&number.to_le_bytes()[..W::BYTES], out, at)
}
