// What is refused before the first step. Nothing is written here. A limit of document 01 is a Result: Err is its refusal, where it is
// broken. Read specs/Start.antt first.
ghost use Rattle.std.specs.Prelude.{◌≡◌};
ghost use Rattle.program.specs.Decode.{check_answer, refusal};
ghost use Rattle.engine.specs.Start.{kept_if, first_of, none_own, labels_limit, limits, start_of};

use crate::Clearances;
use label::Label;
use program::Refusal;

// The lengths that were given, in words, and the allowance.
#[derive(Clone, Copy)]
pub struct Given {
    pub values: usize,
    pub program: usize,
    pub stack: usize,
    pub fuel: u64,
}

// An engine's own limits: of the rules, the rule memory and the handler space.
#[derive(Clone, Copy)]
pub struct Own {
    pub rules: Result<(), Refusal>,
    pub row: Result<(), Refusal>,
    pub handler: Result<(), Refusal>,
}

impl Own {
    // The plain engine's.
    pub fn none() -> Own
        ensures { result ≡ none_own }
    {
        Own {
            rules: Ok(()),
            row: Ok(()),
            handler: Ok(()),
        }
    }
}

// Kept where a test holds, else broken with this number and place.
pub fn kept_if(test: bool, code: u64, position: usize) -> Result<(), Refusal>
    ensures { result ≡ kept_if test (refusal code position) }
{
    if test {
        Ok(())
    } else {
        Err(Refusal { code, position })
    }
}

// Checks 5 and 13, by their number: the place is the first cell, or page, whose word is no label.
fn label_words(labels: &[i64], check: u64) -> Result<(), Refusal>
    ensures { result ≡ labels_limit check 0 labels.now }
{
    for (i, word) in labels.iter().enumerate() {
        if Label::try_from(*word).is_err() {
            return Err(Refusal {
                code: check,
                position: i,
            });
        }
    }
    Ok(())
}

// Checks 4 to 9 and 13, in their order, for a sheet of so many commands.
fn first_broken(
    count: usize,
    labels: &[i64],
    clearances: Clearances,
    given: Given,
    own: Own,
) -> Result<(), Refusal>
    ensures { result ≡ first_of (limits count labels.now clearances given own) }
{
    let values = given.values;
    let shorter = values.min(labels.len());
    kept_if(values == labels.len(), 4, shorter)?;
    kept_if(values <= 1024, 4, 1024)?;
    label_words(labels, 5)?;
    kept_if(clearances.count == 16, 13, 16)?;
    label_words(&clearances.words, 13)?;
    own.rules?;
    own.row?;
    kept_if(count <= given.program / 2, 8, 1)?;
    kept_if(768 <= given.stack, 8, 2)?;
    own.handler?;
    kept_if(given.fuel <= 1000000, 9, 0)
}

// All of them: how many commands the sheet has, or the first refusal that applies, of the sheet (1 to 3, 12), the cells (4, 5), the
// clearances (13), the engine's own (6, 7, and 8 at 3), the working space (8) and the allowance (9).
pub fn check(
    sheet: &[u8],
    labels: &[i64],
    clearances: Clearances,
    given: Given,
    own: Own,
) -> Result<usize, Refusal>
    ensures { result ≡ check_answer (start_of sheet.now labels.now clearances given own) }
{
    let count = program::check(sheet)?;
    first_broken(count, labels, clearances, given, own)?;
    Ok(count)
}
