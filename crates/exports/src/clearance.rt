// The clearances as lent words.
ghost use Rattle.std.specs.Prelude.{◌≡◌};
ghost use Rattle.exports.specs.Clearance.{given_clearances};

use engine::Clearances;

// Sixteen words are the clearances; of another number only that number is kept, which check 13 refuses.
#[tactic(auto, unfolding(crate::specs::Clearance::given_clearances))]
pub(crate) fn given(lent: &[i64]) -> Clearances
    ensures { result ≡ given_clearances lent.now }
{
    Clearances {
        words: <[i64; 16]>::try_from(lent).unwrap_or([0; 16]),
        count: lent.len(),
    }
}
