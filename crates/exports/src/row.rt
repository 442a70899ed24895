// The rule memory as lent words.
ghost use Rattle.std.specs.Prelude.{◌≡◌};
ghost use Rattle.exports.specs.Row.{given_row, left_row};

use policy::row::Cache;

// Seven words are the rule memory; instead of any other number of them stands a row that check 7 refuses.
#[tactic(auto, unfolding(crate::specs::Row::given_row))]
pub(crate) fn given(lent: &[i64]) -> Cache
    ensures { result.words ≡ given_row lent.now }
{
    Cache {
        words: <[i64; 7]>::try_from(lent).unwrap_or([-1, 0, 0, 0, 0, 0, 0]),
    }
}

// The rule memory is written where there are seven words.
#[tactic(auto, unfolding(crate::specs::Row::left_row))]
pub(crate) fn leave(lent: &mut [i64], cache: Cache)
    ensures { lent.new ≡ left_row cache.words lent.old }
{
    if lent.len() == 7 {
        lent.copy_from_slice(&cache.words);
    }
}
