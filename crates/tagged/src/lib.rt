// The tag engine: document 01's machine with its rules as data. Read in tagging/specs/: Consult; then in specs/: Ruling, Start, Tagged.
// What is shown of it is said in tagging/specs/Claim.antt and in claims.
#![tactic(auto)]

mod consult;
mod run;
mod start;

ghost use Rattle.std.specs.Prelude.{◌≡◌};
ghost use Rattle.step.specs.Lent.{cells, lent};
ghost use Rattle.engine.specs.Memory.{output, memory};
ghost use Rattle.tagged.specs.Tagged.{left, ended_by, tagged, Promises};

use engine::start::Given;
use engine::{Clearances, Ran, Space, Surroundings};
use policy::row::Cache;
use program::Refusal;
use step::cell::CellRuns;

// The answer, the rule memory at the end, the commands that did not match and the kernel steps.
#[derive(Clone, Copy, PartialEq, Eq, Debug)]
pub struct Tagged {
    pub answer: Result<Ran, Refusal>,
    pub cache: Cache,
    pub faults: u64,
    pub kernel: u64,
}

// Checks everything, and then runs the sheet on the lent cells to one named stop, under the rules of the table. A refusal, of 1 to 9, 12 or
// 13 with its place, leaves every lent run and the rule memory as they came. The run is that of reading the table directly, by a handler
// that never fails. The runs stand each by itself, as C lends them.
pub fn execute(
    sheet: &[u8],
    values: &mut [i64],
    labels: &mut [i64],
    clearances: Clearances,
    table: &[u8],
    cache: Cache,
    program: &mut [i64],
    stack: &mut [i64],
    handler: &mut [i64],
    numbers: &mut [i64],
    line_labels: &mut [i64],
    kinds: &mut [i64],
    pages: &mut [i64],
    fuel: u64,
) -> Tagged
    ensures left { left (ended_by result
        (memory program.new (lent stack.new (cells values.new labels.new))
        (output numbers.new line_labels.new kinds.new pages.new)))
        handler.new
        ≡ tagged sheet.now table.now cache.words clearances
        (memory program.old (lent stack.old (cells values.old labels.old))
        (output numbers.old line_labels.old kinds.old pages.old))
        handler.old fuel }
    ensures rules { Promises sheet.now table.now clearances
        (memory program.old (lent stack.old (cells values.old labels.old))
        (output numbers.old line_labels.old kinds.old pages.old))
        handler.old fuel
        (left (ended_by result
        (memory program.new (lent stack.new (cells values.new labels.new))
        (output numbers.new line_labels.new kinds.new pages.new)))
        handler.new) }
{
    let rules = start::rules(table, cache, handler.len());
    let given = Given {
        values: values.len(),
        program: program.len(),
        stack: stack.len(),
        fuel,
    };
    let count = match engine::start::check(sheet, labels, clearances, given, rules.own) {
        Ok(count) => count,
        Err(r) => return Tagged {
            answer: Err(r),
            cache,
            faults: 0,
            kernel: 0,
        },
    };
    program::write(sheet, program);
    translator::write(table, handler);
    let surroundings = Surroundings {
        room: engine::room(numbers.len(), line_labels.len(), kinds.len(), pages.len()),
        clearances: &clearances.words,
    };
    let mut cells = CellRuns { values, labels };
    let mut space = Space {
        numbers,
        labels: line_labels,
        kinds,
        pages,
    };
    let end = run::go(
        count,
        surroundings,
        fuel,
        program,
        handler,
        rules.size,
        cache,
        stack,
        &mut cells,
        &mut space,
    );
    Tagged {
        answer: Ok(end.ran),
        cache: end.kept.cache,
        faults: end.kept.faults,
        kernel: end.kept.kernel,
    }
}
