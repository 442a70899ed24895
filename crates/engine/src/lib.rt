// What all engines share: the memory that they are lent, what they refuse, the loop that they go round. Read in specs/: Memory, Layout,
// Start, Act, Loop, Ended; proofs/ shows that the loop on words is the machine's run under the engine's ruler.
#![tactic(auto)]

pub mod start;

ghost use Rattle.std.specs.Prelude.{◌≡◌, min};
ghost use Rattle.word.specs.Number.{natural_of};
ghost use Rattle.engine.specs.Memory.{clearance_of, all_cleared};
ghost use Rattle.engine.specs.Memory.{room as room_of};
ghost use Rattle.engine.specs.Runs.{words_of, read_in, environment_of, SameRuns};
ghost use Rattle.engine.specs.Layout.{kind_word, kind_of, line_in, line_from};
ghost use Rattle.engine.specs.Act.{emitted, write_of, emit_of, closed, is_count, end_or};

use label::Label;
use machine::{Kind, Stop};
use program::Refusal;
use stack::{Machine, Stepped};

// Where a run ended: the machine record, the stop and the steps.
#[derive(Clone, Copy, PartialEq, Eq, Debug)]
pub struct Ran {
    pub machine: Machine,
    pub stop: Stop,
    pub steps: u64,
}

// Request U5: each page's clearance, a set of owners, as sixteen words, page 0's first; and how many words were given, since from outside
// it may be another number, which check 13 refuses.
#[derive(Clone, Copy, PartialEq, Eq, Debug)]
pub struct Clearances {
    pub words: [i64; 16],
    pub count: usize,
}

impl Clearances {
    // Every page is cleared for all owners.
    pub fn all() -> Clearances
        ensures { result ≡ all_cleared }
    {
        Clearances {
            words: [4294967295; 16],
            count: 16,
        }
    }
}

// Where a run ends: the machine and the stop.
#[derive(Clone, Copy, PartialEq, Eq, Debug)]
pub struct Went {
    pub machine: Machine,
    pub stop: Stop,
}

// How many lines fit: the shortest of the four runs.
pub fn room(numbers: usize, labels: usize, kinds: usize, pages: usize) -> usize
    ensures { result ≡ min (min (min numbers labels) kinds) pages }
{
    numbers.min(labels).min(kinds).min(pages)
}

// A line's kind word: 0 for a number, 1 for the end. It is stored in a lent run, so that it is a number there.
fn kind_word(kind: Kind) -> i64
    ensures { result ≡ kind_word kind }
{
    match kind {
        Kind::Number => 0,
        Kind::End => 1,
    }
}

// What a stored kind word says: 0 is a number's, any other the end's.
fn kind_of(word: i64) -> Kind
    ensures { result ≡ kind_of word }
{
    if word == 0 { Kind::Number } else { Kind::End }
}

// A line of the output space.
#[derive(Clone, Copy, PartialEq, Eq, Debug)]
pub struct Line {
    pub page: i64,
    pub kind: Kind,
    pub number: i64,
    pub label: Label,
}

// The lent output space: a run of words for each field of a line, as C lends them.
#[derive(Drop)]
pub struct Space<'a> {
    pub numbers: &'a mut [i64],
    pub labels: &'a mut [i64],
    pub kinds: &'a mut [i64],
    pub pages: &'a mut [i64],
}

// The same four runs, only to be read.
#[derive(Clone, Copy)]
pub struct Lines<'a> {
    pub numbers: &'a [i64],
    pub labels: &'a [i64],
    pub kinds: &'a [i64],
    pub pages: &'a [i64],
}

impl Lines<'_> {
    // How many lines fit.
    pub fn room(self) -> usize
        ensures { result ≡ room_of (read_in self.entry) }
    {
        room(
            self.numbers.len(),
            self.labels.len(),
            self.kinds.len(),
            self.pages.len(),
        )
    }

    // The line at an index; beyond a run's end its word is 0.
    pub fn at(self, i: usize) -> Line
        ensures { line_from result ≡ line_in i (read_in self.entry) }
    {
        Line {
            page: word::memory::at(self.pages, i),
            kind: kind_of(word::memory::at(self.kinds, i)),
            number: word::memory::at(self.numbers, i),
            label: Label::low(word::memory::at(self.labels, i)),
        }
    }
}

// What a run is given beside its program, its cells and its allowance: how many lines fit, and each page's clearance.
#[derive(Clone, Copy)]
pub struct Surroundings<'a> {
    pub room: usize,
    pub clearances: &'a [i64],
}

impl Surroundings<'_> {
    // A page's clearance; what is no page has the empty one.
    fn clearance(self, page: i64) -> Label
        ensures { result.0 ≡ clearance_of self.entry.clearances.now page }
    {
        match word::number::below(page, self.clearances.len()) {
            Some(i) => Label::low(word::memory::at(self.clearances, i)),
            None => Label::EMPTY,
        }
    }
}

// Writes a line after those that are written, and then the run stands at `on`. Where its label does not flow to its page's clearance it is
// stop 10, else without room for it stop 8, and nothing changes.
#[tactic(auto, unfolding(crate::specs::Act::write_of, machine::specs::Environment::barrier))]
fn write(
    m: Machine,
    line: Line,
    on: Machine,
    surroundings: Surroundings<'_>,
    space: &mut Space<'_>,
) -> Result<Machine, Stop>
    ensures same_runs { SameRuns space.new space.old }
    ensures emitted { emitted result (words_of space.new)
        ≡ write_of (environment_of surroundings.entry) m (line_from line) on (words_of space.old) }
{
    let lines = m.lines;
    let cleared_for = surroundings.clearance(line.page);
    if line.label.flows(cleared_for) {
        if lines < surroundings.room {
            let kind = line.kind;
            word::memory::put(space.numbers, lines, line.number);
            word::memory::put(space.labels, lines, i64::from(line.label));
            word::memory::put(space.kinds, lines, kind_word(kind));
            word::memory::put(space.pages, lines, line.page);
            return Ok(on.print(surroundings.room));
        }
        return Err(Stop::OutputFull);
    }
    Err(Stop::NotCleared)
}

// Writes the line that a command handed back.
#[tactic(auto, unfolding(crate::specs::Act::emit_of))]
pub fn emit(
    m: Machine,
    r: Result<Stepped, Stop>,
    surroundings: Surroundings<'_>,
    space: &mut Space<'_>,
) -> Result<Machine, Stop>
    ensures same_runs { SameRuns space.new space.old }
    ensures emitted { emitted result (words_of space.new)
        ≡ emit_of (environment_of surroundings.entry) m r (words_of space.old) }
{
    let stepped = r?;
    let Some(printed) = stepped.line else {
        return Ok(stepped.machine);
    };
    let line = Line {
        page: printed.page,
        kind: Kind::Number,
        number: printed.number,
        label: printed.label,
    };
    write(m, line, stepped.machine, surroundings, space)
}

// Is the place the number of commands?
fn at_end(m: Machine, count: usize) -> bool
    ensures { result ≡ is_count (natural_of m.pc.0) count }
{
    word::number::unsigned(m.pc.0) == Some(count as u64)
}

// At the end the end line, on page 0 and labelled with the place label, and stop 0, or the stop that holds that line back; elsewhere another
// stop.
#[tactic(auto, unfolding(crate::specs::Act::end_or))]
pub fn end_or(
    m: Machine,
    count: usize,
    other: Stop,
    surroundings: Surroundings<'_>,
    space: &mut Space<'_>,
) -> Went
    ensures same_runs { SameRuns space.new space.old }
    ensures closed { closed result (words_of space.new)
        ≡ end_or count (environment_of surroundings.entry) m other (words_of space.old) }
{
    if !at_end(m, count) {
        return Went {
            machine: m,
            stop: other,
        };
    }
    let line = Line {
        page: 0,
        kind: Kind::End,
        number: 0,
        label: m.label,
    };
    match write(m, line, m, surroundings, space) {
        Ok(machine) => Went {
            machine,
            stop: Stop::End,
        },
        Err(stop) => Went { machine: m, stop },
    }
}
