// Words as whole numbers modulo 2^64, by way of their bits in two's complement. This is the kernel's arithmetic; the sheet's is exact
// (exact.rt). Read specs/Wrap.antt first.
ghost use Rattle.std.specs.Prelude.{◌≡◌, ◌^◌, ◌<◌, ◌≤◌};
ghost use Rattle.word.specs.Wrap.{residue, signed, add_wrap, sub_wrap};

// Add of the kernel, which wraps.
pub fn add(a: i64, b: i64) -> i64
    ensures { result ≡ add_wrap a b }
{
    a.wrapping_add(b)
}

// Sub of the kernel, which wraps.
pub fn sub(a: i64, b: i64) -> i64
    ensures { result ≡ sub_wrap a b }
{
    a.wrapping_sub(b)
}

// A word's bits.
pub fn to_bits(word: i64) -> u64
    ensures { result ≡ residue 64 word }
{
    word.cast_unsigned()
}

// The number that so many bits stand for: the upper half are the negative ones.
#[tactic(auto, unfolding(crate::specs::Wrap::signed))]
pub(crate) fn complement(bits: u64, width: usize) -> i64
    requires { (0 < width) × (width ≤ 64) × (bits < 2 ^ width) }
    ensures { result ≡ signed width bits }
{
    let half = 1u64 << (width - 1);
    if bits < half {
        bits as i64
    } else {
        -1 - ((half - 1) - (bits - half)) as i64
    }
}
