// One loop over the commands. Read engine/specs/Loop.antt first, then specs/Next.antt.
ghost use Rattle.std.specs.Prelude.{◌≡◌, ◌≤◌, ◌<◌, ◌*◌, length};
ghost use Rattle.word.specs.Number.{index_of};
ghost use Rattle.stack.specs.Words.{started};
ghost use Rattle.step.specs.Lent.{cells_of, SameCells, lent};
ghost use Rattle.engine.specs.Runs.{words_of, SameRuns, environment_of};
ghost use Rattle.engine.specs.Loop.{done, loop_of};
ghost use Rattle.plain.specs.Ruler.{standard_ruler};
ghost use Rattle.plain.specs.Next.{ready, next_of};

use crate::command::act;
use engine::{Ran, Space, Surroundings};
use label::Label;
use machine::Stop;
use program::code;
use stack::Machine;
use step::cell::CellRuns;
use word::kind::Pc;

// Where in a program of so few commands a place stands. It is `Pc::index` with one test less, which counts here (measured): so few commands
// have no place above 2^63.
fn place_in(pc: Pc, count: usize) -> Option<usize>
    requires { count ≤ 4096 }
    ensures { result ≡ index_of pc.0 count }
{
    let bits = word::wrap::to_bits(pc.0);
    if bits < count as u64 {
        Some(bits as usize)
    } else {
        None
    }
}

// The command to be carried out next, the run as far as it, and the allowance that is left before it.
#[derive(Clone, Copy)]
struct Chosen {
    machine: Machine,
    word: i64,
    operand: i64,
    left: u64,
}

// The command at an index; and where that is a Push with room, and a command and an allowance for it follow, that one, with the Push done.
#[tactic(auto, unfolding(crate::specs::Next::next_of))]
fn next(count: usize, program: &[i64], i: usize, m: Machine, left: u64, stack: &mut [i64]) -> Chosen
    requires { (i < count) × (count ≤ 4096) × (2 * count ≤ length program.now) }
    ensures { ready result stack.new ≡ next_of count program.now i m left stack.old }
{
    let word = program[2 * i];
    let operand = program[2 * i + 1];
    if m.depth < 256 && word::wrap::to_bits(word) == code::PUSH && 1 < left && i + 1 < count {
        let over = m.push(stack, 0, operand, Label::EMPTY);
        return Chosen {
            machine: over.following(m.label),
            word: program[2 * i + 2],
            operand: program[2 * i + 3],
            left: left - 1,
        };
    }
    Chosen {
        machine: m,
        word,
        operand,
        left,
    }
}

// Runs a loaded program of `count` commands from the start, for at most `fuel` steps. What it needs of the lent runs is tested once more,
// here where the compiler sees it: it then leaves the tests of lengths out of the loop. Not so the count, by which the loop is slower. The allowance is counted down,
// so that the loop carries one value less than with the steps counted up to it: no `for`, since a Push takes two of it with the command after it.
pub(crate) fn go(
    count: usize,
    surroundings: Surroundings<'_>,
    fuel: u64,
    program: &[i64],
    stack: &mut [i64],
    cells: &mut CellRuns<'_>,
    space: &mut Space<'_>,
) -> Ran
    requires { (count ≤ 4096) × (2 * count ≤ length program.now) × (768 ≤ length stack.old)
        × (length cells.old.values.now ≤ 1024) × (length cells.old.values.now ≡ length cells.old.labels.now) }
    ensures same_cells { SameCells cells.new cells.old }
    ensures same_runs { SameRuns space.new space.old }
    ensures done { done result tt (lent stack.new (cells_of cells.new)) (words_of space.new)
        ≡ loop_of standard_ruler count (environment_of surroundings.entry) program.now fuel 0 started tt
        (lent stack.old (cells_of cells.old)) (words_of space.old) }
{
    let mut m = Machine::start();
    let mut left: u64 = fuel;
    if stack.len() < 768 || 1024 < cells.values.len() || cells.values.len() != cells.labels.len() {
        return Ran {
            machine: m,
            stop: Stop::FuelSpent,
            steps: 0,
        };
    }
    // a command may take two of the allowance
    while 0 < left {
        let Some(i) = place_in(m.pc, count) else {
            let w = engine::end_or(m, count, Stop::PcOutside, surroundings, space);
            return Ran {
                machine: w.machine,
                stop: w.stop,
                steps: fuel - left,
            };
        };
        let n = next(count, program, i, m, left, stack);
        left = n.left;
        let r = act(n.word, n.operand, n.machine, stack, cells);
        match engine::emit(n.machine, r, surroundings, space) {
            Ok(machine) => m = machine,
            Err(stop) => {
                return Ran {
                    machine: n.machine,
                    stop,
                    steps: fuel - left,
                };
            }
        }
        left -= 1;
    }
    let w = engine::end_or(m, count, Stop::FuelSpent, surroundings, space);
    Ran {
        machine: w.machine,
        stop: w.stop,
        steps: fuel - left,
    }
}
