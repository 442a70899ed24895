// The machine record and the lent stack, of which all engines are made. Read specs/Words.antt first.
#![tactic(auto)]

ghost use Rattle.std.specs.Prelude.{◌≡◌, ◌+◌, pos};
ghost use Rattle.stack.specs.Words.{started, pushed, pushed_stack, refilled_stack, dropped, gone, following, printed};
ghost use Rattle.stack.specs.Words.{carried, printing, kind_of, slot_at, Entry, set_entry};
ghost use Rattle.stack.specs.Words.{raised, lifted, inserted_stack};

use label::Label;
use machine::Stop;
use word::kind::Pc;

// The machine record: the place, its label, how many entries the stack has and how many lines are written.
#[derive(Clone, Copy, PartialEq, Eq, Debug)]
pub struct Machine {
    pub pc: Pc,
    pub label: Label,
    pub depth: usize,
    pub lines: usize,
}

impl Machine {
    // A run starts at place 0, label 0, empty stack, no lines.
    pub fn start() -> Machine
        ensures { result ≡ started }
    {
        Machine {
            pc: Pc(0),
            label: Label::EMPTY,
            depth: 0,
            lines: 0,
        }
    }

    // One entry more: its kind word, number and label, bottom first in the lent stack. A full stack stays as it is, and so does a space for
    // less than 256 entries, though the record counts the entry then too. The kind is the word that is stored: it may be any.
    #[tactic(auto, unfolding(crate::specs::Words::pushed, crate::specs::Words::pushed_stack, crate::specs::Words::set_entry))]
    pub fn push(mut self, stack: &mut [i64], kind: i64, number: i64, label: Label) -> Machine
        ensures record { result ≡ pushed self }
        ensures stack { stack.new ≡ pushed_stack self stack.old kind number label.0 }
    {
        let depth = self.depth;
        if depth < 256 {
            if 768 <= stack.len() {
                put(stack, depth, kind, number, label);
            }
            self.depth = depth + 1;
        }
        self
    }

    // An entry in place of the top, but under the values below that, so many of which go one higher in their order. Its kind may be any word.
    #[tactic(auto, unfolding(crate::specs::Words::inserted_stack))]
    pub fn insert(self, below: usize, stack: &mut [i64], kind: i64, number: i64, label: Label)
        ensures { stack.new ≡ inserted_stack self below stack.old kind number label.0 }
    {
        let depth = self.depth;
        if below < depth && depth <= 256 && 768 <= stack.len() {
            let i = depth - below - 1;
            lift(stack, i, below);
            put(stack, i, kind, number, label);
        }
    }

    // An entry more, whose kind stays as the stack has it: one that was just dropped, with another number and label.
    #[tactic(auto, unfolding(crate::specs::Words::pushed, crate::specs::Words::refilled_stack))]
    pub fn refill(mut self, stack: &mut [i64], number: i64, label: Label) -> Machine
        ensures record { result ≡ pushed self }
        ensures stack { stack.new ≡ refilled_stack self stack.old number label.0 }
    {
        let depth = self.depth;
        if depth < 256 {
            if 768 <= stack.len() {
                let at = 3 * depth;
                stack[at + 1] = number;
                stack[at + 2] = i64::from(label);
            }
            self.depth = depth + 1;
        }
        self
    }

    // One entry less. It keeps its content in the lent stack; an empty stack stays empty.
    #[tactic(auto, unfolding(crate::specs::Words::dropped))]
    pub fn drop(mut self) -> Machine
        ensures { result ≡ dropped self }
    {
        self.depth = self.depth.saturating_sub(1);
        self
    }

    // At another place, with a place label.
    #[tactic(auto, unfolding(crate::specs::Words::gone))]
    pub fn goto(mut self, pc: Pc, label: Label) -> Machine
        ensures { result ≡ gone self pc.0 label.0 }
    {
        self.pc = pc;
        self.label = label;
        self
    }

    // At the next place.
    #[tactic(auto, unfolding(crate::specs::Words::following))]
    pub fn following(self, label: Label) -> Machine
        ensures { result ≡ following self label.0 }
    {
        self.goto(self.pc.offset(1), label)
    }

    // One line more, if there is room for it.
    #[tactic(auto, unfolding(crate::specs::Words::printed))]
    pub fn print(mut self, room: usize) -> Machine
        ensures { result ≡ printed self room }
    {
        if self.lines < room {
            self.lines += 1;
        }
        self
    }
}

// An entry, counted from the bottom: its kind word, its number and its label, as the C interface's stack space has them.
#[tactic(auto, unfolding(crate::specs::Words::set_entry))]
fn put(stack: &mut [i64], entry: usize, kind: i64, number: i64, label: Label)
    requires { Entry stack.old entry }
    ensures { stack.new ≡ set_entry stack.old entry kind number label.0 }
{
    let i = 3 * entry;
    stack[i] = kind;
    stack[i + 1] = number;
    stack[i + 2] = i64::from(label);
}

// The value of an entry, stored in the one above it.
#[tactic(auto, unfolding(crate::specs::Words::raised, crate::specs::Words::entry_at))]
fn raise(stack: &mut [i64], entry: usize)
    requires { Entry stack.old (entry + 1) }
    ensures { stack.new ≡ raised stack.old entry }
{
    let i = 3 * entry;
    let number = stack[i + 1];
    let label = Label::low(stack[i + 2]);
    put(stack, entry + 1, 0, number, label);
}

// So many values from an entry on, each one higher, the uppermost first.
#[tactic(auto, using(crate::proofs::Entry::lifted_next, crate::proofs::Entry::lifted_none))]
fn lift(stack: &mut [i64], entry: usize, count: usize)
    requires { Entry stack.old (entry + count) }
    ensures { stack.new ≡ lifted stack.old entry count }
{
    for above in (0..count).rev() {
        raise(stack, entry + above);
    }
}

// A line that a command hands back: its page, its number and its label.
#[derive(Clone, Copy, PartialEq, Eq, Debug)]
pub struct Printed {
    pub page: i64,
    pub number: i64,
    pub label: Label,
}

// A machine after a command that was carried out, and its line, if it has one, which is still to be written. A command that is not carried
// out has its stop in place of it, and changes nothing.
#[derive(Clone, Copy, PartialEq, Eq, Debug)]
pub struct Stepped {
    pub machine: Machine,
    pub line: Option<Printed>,
}

// Carried out; no line.
pub fn carried(machine: Machine) -> Result<Stepped, Stop>
    ensures { result ≡ carried machine }
{
    Ok(Stepped {
        machine,
        line: None,
    })
}

// Carried out, with the line on this page with this number and label.
pub fn printing(machine: Machine, page: i64, number: i64, label: Label) -> Result<Stepped, Stop>
    ensures { result ≡ printing machine page number label.0 }
{
    let printed = Printed {
        page,
        number,
        label,
    };
    Ok(Stepped {
        machine,
        line: Some(printed),
    })
}

// What stands on the stack: a value, a frame that owes no result, a frame that owes one, or nothing.
#[derive(Clone, Copy, PartialEq, Eq, Debug)]
pub enum Kind {
    Value,
    Frame,
    Owing,
    Nothing,
}

// An entry, or nothing with number 0 and the empty label.
#[derive(Clone, Copy, PartialEq, Eq, Debug)]
pub struct Slot {
    pub kind: Kind,
    pub number: i64,
    pub label: Label,
}

impl Slot {
    const NONE: Slot = Slot {
        kind: Kind::Nothing,
        number: 0,
        label: Label::EMPTY,
    };
}

// The kind that a stored word says: a value's is 0, that of a frame that owes a result 2, any other that of one that owes none.
fn kind_of(word: i64) -> Kind
    ensures { result ≡ kind_of word }
{
    match word {
        0 => Kind::Value,
        2 => Kind::Owing,
        _ => Kind::Frame,
    }
}

// One test for the three words: with more than 256 entries, or in a space for less, nothing is found.
#[tactic(auto, unfolding(crate::specs::Words::slot_at, crate::specs::Words::entry_at))]
pub fn look(stack: &[i64], depth: usize, below: usize) -> Slot
    ensures { result ≡ slot_at stack.now depth below }
{
    if depth <= below || 256 < depth || stack.len() < 768 {
        return Slot::NONE;
    }
    let i = 3 * (depth - below - 1);
    Slot {
        kind: kind_of(stack[i]),
        number: stack[i + 1],
        label: Label::low(stack[i + 2]),
    }
}
