// What a command finds: the labels of its inputs, or a stop. Read specs/Find.antt first.
ghost use Rattle.std.specs.Prelude.{◌≡◌};
ghost use Rattle.step.specs.Lent.{cells_in, lent};
ghost use Rattle.stack.specs.Words.{slot_at};
ghost use Rattle.step.specs.Find.{found, value_at, two_values, one_value, call_values, one_frame, value_and_frame};
ghost use Rattle.step.specs.Find.{load_cell, store_cell, find_of};

use crate::cell::CellWords;
use label::Label;
use machine::Stop;
use program::code;
use stack::{Kind, Machine, Slot};
use word::kind::Address;

// How many inputs a command supplies and their labels; those of missing ones are empty.
#[derive(Clone, Copy, PartialEq, Eq, Debug)]
pub struct Inputs {
    pub count: usize,
    pub input1: Label,
    pub input2: Label,
    pub input3: Label,
}

fn found(count: usize, input1: Label, input2: Label, input3: Label) -> Result<Inputs, Stop>
    ensures { result ≡ found count input1.0 input2.0 input3.0 }
{
    Ok(Inputs {
        count,
        input1,
        input2,
        input3,
    })
}

// The value so many below the top, else stop 3.
fn value(stack: &[i64], depth: usize, below: usize) -> Result<Slot, Stop>
    ensures { result ≡ value_at (slot_at stack.now depth below) }
{
    let slot = stack::look(stack, depth, below);
    match slot.kind {
        Kind::Value => Ok(slot),
        _ => Err(Stop::ValueMissing),
    }
}

// Push: nothing is needed.
pub fn none() -> Result<Inputs, Stop>
    ensures { result ≡ found 0 0 0 0 }
{
    found(0, Label::EMPTY, Label::EMPTY, Label::EMPTY)
}

// Pop, Output, Jump, Bnz and OutputTo: a value.
#[tactic(auto, unfolding(crate::specs::Find::one_value))]
pub fn one_value(m: Machine, stack: &[i64]) -> Result<Inputs, Stop>
    ensures { result ≡ one_value m stack.now }
{
    let a = value(stack, m.depth, 0)?;
    found(1, a.label, Label::EMPTY, Label::EMPTY)
}

// Add and Sub: two values. The lower is looked at first: where it is there, so is the upper, and the compiler drops a test.
#[tactic(auto, unfolding(crate::specs::Find::two_values))]
pub fn two_values(m: Machine, stack: &[i64]) -> Result<Inputs, Stop>
    ensures { result ≡ two_values m stack.now }
{
    let b = value(stack, m.depth, 1)?;
    let a = value(stack, m.depth, 0)?;
    found(2, a.label, b.label, Label::EMPTY)
}

// Call and CallN: a target and under it so many arguments, values that no rule asks about.
#[tactic(auto, using(crate::proofs::Values::value_there, crate::proofs::Values::value_missing, crate::proofs::Values::only_top), unfolding(crate::specs::Find::call_values, crate::specs::Find::one_value))]
pub fn call_values(m: Machine, arguments: usize, stack: &[i64]) -> Result<Inputs, Stop>
    ensures { result ≡ call_values m stack.now arguments }
{
    for below in (1..=arguments).rev() {
        value(stack, m.depth, below)?;
    }
    one_value(m, stack)
}

// Ret: a frame, else stop 4, that owes no result, else stop 11.
#[tactic(auto, unfolding(crate::specs::Find::one_frame))]
pub fn one_frame(m: Machine, stack: &[i64]) -> Result<Inputs, Stop>
    ensures { result ≡ one_frame m stack.now }
{
    let a = stack::look(stack, m.depth, 0);
    match a.kind {
        Kind::Frame => found(1, a.label, Label::EMPTY, Label::EMPTY),
        Kind::Owing => Err(Stop::WrongReturn),
        _ => Err(Stop::FrameMissing),
    }
}

// RetV: a value, and under it a frame, else stop 4, that owes a result, else stop 11.
#[tactic(auto, unfolding(crate::specs::Find::value_and_frame))]
pub fn value_and_frame(m: Machine, stack: &[i64]) -> Result<Inputs, Stop>
    ensures { result ≡ value_and_frame m stack.now }
{
    let a = value(stack, m.depth, 0)?;
    let b = stack::look(stack, m.depth, 1);
    match b.kind {
        Kind::Owing => found(2, a.label, b.label, Label::EMPTY),
        Kind::Frame => Err(Stop::WrongReturn),
        _ => Err(Stop::FrameMissing),
    }
}

// Load: an address, and the cell there, else stop 5.
#[tactic(auto, unfolding(crate::specs::Find::load_cell))]
pub fn load_cell(m: Machine, stack: &[i64], cells: CellWords<'_>) -> Result<Inputs, Stop>
    ensures { result ≡ load_cell m (lent stack.now (cells_in cells.entry)) }
{
    let a = value(stack, m.depth, 0)?;
    let Some(label) = cells.label_at(Address(a.number)) else {
        return Err(Stop::AddressOutside);
    };
    found(2, a.label, label, Label::EMPTY)
}

// Store: an address and the value for its cell, and the cell as it is, else stop 5.
#[tactic(auto, unfolding(crate::specs::Find::store_cell))]
pub fn store_cell(m: Machine, stack: &[i64], cells: CellWords<'_>) -> Result<Inputs, Stop>
    ensures { result ≡ store_cell m (lent stack.now (cells_in cells.entry)) }
{
    let b = value(stack, m.depth, 1)?;
    let a = value(stack, m.depth, 0)?;
    let Some(label) = cells.label_at(Address(a.number)) else {
        return Err(Stop::AddressOutside);
    };
    found(3, a.label, b.label, label)
}

// By the command's code, chosen by a tree of tests: a match on it was measured slower.
#[tactic(auto, unfolding(crate::specs::Find::find_of))]
pub fn find(
    code: u64,
    operand: i64,
    m: Machine,
    stack: &[i64],
    cells: CellWords<'_>,
) -> Result<Inputs, Stop>
    ensures { result ≡ find_of code operand m (lent stack.now (cells_in cells.entry)) }
{
    if code <= code::PUSH {
        if code <= code::SUB {
            two_values(m, stack)
        } else if code <= code::OUTPUT {
            one_value(m, stack)
        } else {
            none()
        }
    } else if code <= code::STORE {
        if code == code::LOAD {
            load_cell(m, stack, cells)
        } else {
            store_cell(m, stack, cells)
        }
    } else if code <= code::BNZ {
        one_value(m, stack)
    } else if code <= code::RET {
        if code == code::CALL {
            call_values(m, 1, stack)
        } else {
            one_frame(m, stack)
        }
    } else if code <= code::CALL_N {
        if code == code::OUTPUT_TO {
            one_value(m, stack)
        } else {
            call_values(m, program::arguments_of(operand) as usize, stack)
        }
    } else {
        value_and_frame(m, stack)
    }
}
