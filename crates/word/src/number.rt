// A word as a natural number and as an index.
ghost use Rattle.std.specs.Prelude.{◌≡◌};
ghost use Rattle.word.specs.Number.{natural_of, index_of};

use crate::wrap::to_bits;

// A word as a number that is not negative.
pub fn unsigned(word: i64) -> Option<u64>
    ensures { result ≡ natural_of word }
{
    // `try_from` takes three instructions more
    if word < 0 { None } else { Some(word as u64) }
}

// A word as an index below a bound; a negative one is outside.
pub fn below(word: i64, bound: usize) -> Option<usize>
    ensures { result ≡ index_of word bound }
{
    // the bits of a negative word are 2^63 or more: one test for both ends
    let index = to_bits(word) as usize;
    if index < bound.min(1 << 63) {
        Some(index)
    } else {
        None
    }
}
