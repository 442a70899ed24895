// The plain engine: document 01's machine under the standard rules, on lent memory. Read specs/Plain.antt first.
#![tactic(auto)]

mod command;
mod run;

ghost use Rattle.std.specs.Prelude.{◌≡◌};
ghost use Rattle.step.specs.Lent.{cells, lent};
ghost use Rattle.engine.specs.Memory.{output, memory};
ghost use Rattle.engine.specs.Ended.{ended};
ghost use Rattle.plain.specs.Plain.{plain};

use engine::start::{Given, Own};
use engine::{Clearances, Ran, Space, Surroundings};
use program::Refusal;
use step::cell::CellRuns;

// Checks everything, and then runs the sheet on the lent cells to one named stop. A refusal, of 1 to 3, 12, 4, 5, 13, 8 at 1 or 2, or
// 9, leaves every lent run as it came. The runs stand each by itself, as C lends them.
pub fn execute(
    sheet: &[u8],
    values: &mut [i64],
    labels: &mut [i64],
    clearances: Clearances,
    program: &mut [i64],
    stack: &mut [i64],
    numbers: &mut [i64],
    line_labels: &mut [i64],
    kinds: &mut [i64],
    pages: &mut [i64],
    fuel: u64,
) -> Result<Ran, Refusal>
    ensures { ended result tt
        (memory program.new (lent stack.new (cells values.new labels.new))
        (output numbers.new line_labels.new kinds.new pages.new))
        ≡ plain sheet.now clearances
        (memory program.old (lent stack.old (cells values.old labels.old))
        (output numbers.old line_labels.old kinds.old pages.old))
        fuel }
{
    let given = Given {
        values: values.len(),
        program: program.len(),
        stack: stack.len(),
        fuel,
    };
    let count = engine::start::check(sheet, labels, clearances, given, Own::none())?;
    program::write(sheet, program);
    let surroundings = Surroundings {
        room: engine::room(numbers.len(), line_labels.len(), kinds.len(), pages.len()),
        clearances: &clearances.words,
    };
    let mut cells = CellRuns { values, labels };
    let mut space = Space {
        numbers,
        labels: line_labels,
        kinds,
        pages,
    };
    let ran = run::go(
        count,
        surroundings,
        fuel,
        program,
        stack,
        &mut cells,
        &mut space,
    );
    Ok(ran)
}
