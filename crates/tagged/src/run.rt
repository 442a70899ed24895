// One loop over the commands. Read engine/specs/Loop.antt first.
ghost use Rattle.std.specs.Prelude.{◌≡◌, ◌≤◌};
ghost use Rattle.stack.specs.Words.{started};
ghost use Rattle.step.specs.Lent.{cells_of, SameCells, lent, after};
ghost use Rattle.engine.specs.Runs.{words_of, SameRuns, environment_of};
ghost use Rattle.engine.specs.Act.{acted, act_of};
ghost use Rattle.engine.specs.Loop.{ran, done, loop_of};
ghost use Rattle.handler.specs.Space.{handle_space};
ghost use Rattle.tagging.specs.Consult.{tag};
ghost use Rattle.tagged.specs.Ruling.{tag_words, tag_kept};

use crate::consult::{consult, five_words};
use engine::{Ran, Space, Surroundings};
use machine::Stop;
use policy::row::Cache;
use stack::{Machine, Stepped};
use step::cell::CellRuns;
use step::effect::effect;
use step::find::find;
use tables::Allowed;

// What the ruler keeps: the rule memory, the faults and their kernel steps.
#[derive(Clone, Copy)]
pub(crate) struct Kept {
    pub cache: Cache,
    pub faults: u64,
    pub kernel: u64,
}

// A command that was carried out, or its stop, and what the ruler keeps: a fault more with its kernel steps, or none.
#[derive(Clone, Copy)]
struct Acted {
    stepped: Result<Stepped, Stop>,
    kept: Kept,
}

// What a run leaves beside the lent runs.
#[derive(Clone, Copy)]
pub(crate) struct Left {
    pub ran: Ran,
    pub kept: Kept,
}

// One command: what it finds; the rule memory, which is consulted after the address and before 64 bits and room; what it does.
#[tactic(auto, using(crate::proofs::Acting::act_ruled), unfolding(engine::specs::Act::act_of))]
fn act(
    space: &[i64],
    size: usize,
    word: i64,
    operand: i64,
    m: Machine,
    cache: Cache,
    stack: &mut [i64],
    cells: &mut CellRuns<'_>,
) -> Acted
    ensures same_cells { SameCells cells.new cells.old }
    ensures acted { acted (after result.stepped (lent stack.new (cells_of cells.new))) (tag_kept result.kept)
        ≡ act_of (tag_words (handle_space space.now size)) word operand m (tag cache.words 0 0)
        (lent stack.old (cells_of cells.old)) }
{
    let code = word::wrap::to_bits(word);
    let found = match find(code, operand, m, stack, cells.words()) {
        Ok(found) => found,
        Err(stop) => {
            let kept = Kept {
                cache,
                faults: 0,
                kernel: 0,
            };
            return Acted {
                stepped: Err(stop),
                kept,
            };
        }
    };
    let ruling = consult(space, size, five_words(word, m.label, found), cache);
    let kept = ruling.kept;
    let stepped = match ruling.verdict {
        Some(Allowed { place, result }) => effect(place, result, m, code, operand, stack, cells),
        None => Err(Stop::Denial),
    };
    Acted { stepped, kept }
}

// Runs a loaded program of `count` commands from the start, for at most `fuel` steps, with the handler of `size` instructions in `handler`.
pub(crate) fn go(
    count: usize,
    surroundings: Surroundings<'_>,
    fuel: u64,
    program: &[i64],
    handler: &[i64],
    size: usize,
    memory: Cache,
    stack: &mut [i64],
    cells: &mut CellRuns<'_>,
    space: &mut Space<'_>,
) -> Left
    requires { (count ≤ 4096) × (size ≤ 8192) × (fuel ≤ 1000000) }
    ensures same_cells { SameCells cells.new cells.old }
    ensures same_runs { SameRuns space.new space.old }
    ensures done { done result.ran (tag_kept result.kept) (lent stack.new (cells_of cells.new)) (words_of space.new)
        ≡ loop_of (tag_words (handle_space handler.now size)) count (environment_of surroundings.entry) program.now fuel 0 started
        (tag memory.words 0 0)
        (lent stack.old (cells_of cells.old)) (words_of space.old) }
{
    let mut m = Machine::start();
    let mut kept = Kept {
        cache: memory,
        faults: 0,
        kernel: 0,
    };
    let mut steps: u64 = 0;
    // a `while`, as the steps are an answer too, wherever the run ends
    while steps < fuel {
        let Some(i) = m.pc.index(count) else {
            let w = engine::end_or(m, count, Stop::PcOutside, surroundings, space);
            let ran = Ran {
                machine: w.machine,
                stop: w.stop,
                steps,
            };
            return Left { ran, kept };
        };
        let word = word::memory::at(program, 2 * i);
        let operand = word::memory::at(program, 2 * i + 1);
        let acted = act(handler, size, word, operand, m, kept.cache, stack, cells);
        kept = Kept {
            cache: acted.kept.cache,
            faults: kept.faults + acted.kept.faults,
            kernel: kept.kernel + acted.kept.kernel,
        };
        match engine::emit(m, acted.stepped, surroundings, space) {
            Ok(machine) => m = machine,
            Err(stop) => {
                let ran = Ran {
                    machine: m,
                    stop,
                    steps,
                };
                return Left { ran, kept };
            }
        }
        steps += 1;
    }
    let w = engine::end_or(m, count, Stop::FuelSpent, surroundings, space);
    let ran = Ran {
        machine: w.machine,
        stop: w.stop,
        steps,
    };
    Left { ran, kept }
}
