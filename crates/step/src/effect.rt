// What a command does, given the new place label and the result label of a ruling. Read specs/Effect.antt first.
ghost use Rattle.std.specs.Prelude.{◌≡◌};
ghost use Rattle.step.specs.Lent.{cells_of, SameCells, lent, after, on_stack, on_cells};
ghost use Rattle.step.specs.Effect.{sum_of, branch_of, arith_effect, pop_effect, output_effect, push_effect};
ghost use Rattle.step.specs.Effect.{load_effect, store_effect, jump_effect, bnz_effect, frame_kind, call_effect, return_effect};
ghost use Rattle.step.specs.Effect.{effect_of};

use crate::cell::{CellRuns, number_at};
use label::Label;
use machine::Stop;
use program::code;
use stack::{Machine, Stepped};
use word::kind::{Address, Pc};

// What Add and Sub make of two values: by the code, which is a word of the sheet, and no closure.
#[tactic(auto, unfolding(crate::specs::Effect::sum_of))]
fn sum(code: u64, a: i64, b: i64) -> Option<i64>
    ensures { result ≡ sum_of code a b }
{
    if code == code::ADD {
        word::exact::add(a, b)
    } else {
        word::exact::sub(a, b)
    }
}

// Where Bnz goes.
#[tactic(auto, using(word::proofs::Signed::zero_test), unfolding(crate::specs::Effect::branch_of))]
fn branch(number: i64, pc: Pc, operand: i64) -> Pc
    ensures { result.0 ≡ branch_of number pc.0 operand }
{
    if number == 0 {
        pc.offset(1)
    } else {
        pc.offset(operand)
    }
}

// Add and Sub: the sum stands in place of the lower value, with the result label. One outside 64 bits is stop 9.
#[tactic(auto, unfolding(crate::specs::Effect::arith_effect))]
pub fn arith(
    place: Label,
    res: Label,
    m: Machine,
    code: u64,
    stack: &mut [i64],
) -> Result<Stepped, Stop>
    ensures { on_stack result stack.new ≡ arith_effect place.0 res.0 m code stack.old }
{
    let b = stack::look(stack, m.depth, 1);
    let a = stack::look(stack, m.depth, 0);
    let Some(number) = sum(code, a.number, b.number) else {
        return Err(Stop::Overflow);
    };
    let over = m.drop().drop().refill(stack, number, res);
    stack::carried(over.following(place))
}

// Pop: one entry less.
#[tactic(auto, unfolding(crate::specs::Effect::pop_effect))]
pub fn pop(place: Label, m: Machine) -> Result<Stepped, Stop>
    ensures { result ≡ pop_effect place.0 m }
{
    stack::carried(m.drop().following(place))
}

// Output and OutputTo: a line on a page with the result label is handed back.
#[tactic(auto, unfolding(crate::specs::Effect::output_effect))]
pub fn output(
    place: Label,
    res: Label,
    m: Machine,
    page: i64,
    stack: &[i64],
) -> Result<Stepped, Stop>
    ensures { result ≡ output_effect place.0 res.0 m page stack.now }
{
    let a = stack::look(stack, m.depth, 0);
    stack::printing(m.drop().following(place), page, a.number, res)
}

// Push: the operand has the result label. A full stack is stop 7.
#[tactic(auto, unfolding(crate::specs::Effect::push_effect))]
pub fn push(
    place: Label,
    res: Label,
    m: Machine,
    operand: i64,
    stack: &mut [i64],
) -> Result<Stepped, Stop>
    ensures { on_stack result stack.new ≡ push_effect place.0 res.0 m operand stack.old }
{
    if m.depth < 256 {
        let over = m.push(stack, 0, operand, res);
        return stack::carried(over.following(place));
    }
    Err(Stop::StackFull)
}

// Load: the cell's value stands in place of its address, with the result label.
#[tactic(auto, unfolding(crate::specs::Effect::load_effect))]
pub fn load(
    place: Label,
    res: Label,
    m: Machine,
    stack: &mut [i64],
    values: &[i64],
) -> Result<Stepped, Stop>
    ensures { on_stack result stack.new ≡ load_effect place.0 res.0 m stack.old values.now }
{
    let a = stack::look(stack, m.depth, 0);
    let Some(number) = number_at(Address(a.number), values) else {
        return Err(Stop::AddressOutside);
    };
    let over = m.drop().refill(stack, number, res);
    stack::carried(over.following(place))
}

// Store: the cell has the result label.
#[tactic(auto, unfolding(crate::specs::Effect::store_effect))]
pub fn store(
    place: Label,
    res: Label,
    m: Machine,
    stack: &[i64],
    cells: &mut CellRuns<'_>,
) -> Result<Stepped, Stop>
    ensures same_cells { SameCells cells.new cells.old }
    ensures stored { on_cells result (cells_of cells.new)
        ≡ store_effect place.0 res.0 m stack.now (cells_of cells.old) }
{
    let b = stack::look(stack, m.depth, 1);
    let a = stack::look(stack, m.depth, 0);
    if cells.write(Address(a.number), b.number, res) {
        stack::carried(m.drop().drop().following(place))
    } else {
        Err(Stop::AddressOutside)
    }
}

// Jump and Ret: to the number on top.
#[tactic(auto, unfolding(crate::specs::Effect::jump_effect))]
pub fn jump(place: Label, m: Machine, stack: &[i64]) -> Result<Stepped, Stop>
    ensures { result ≡ jump_effect place.0 m stack.now }
{
    let a = stack::look(stack, m.depth, 0);
    stack::carried(m.drop().goto(Pc(a.number), place))
}

// Bnz: by the operand where the number on top is not 0, else to the next place.
#[tactic(auto, unfolding(crate::specs::Effect::bnz_effect))]
pub fn bnz(place: Label, m: Machine, operand: i64, stack: &[i64]) -> Result<Stepped, Stop>
    ensures { result ≡ bnz_effect place.0 m operand stack.now }
{
    let a = stack::look(stack, m.depth, 0);
    let target = branch(a.number, m.pc, operand);
    stack::carried(m.drop().goto(target, place))
}

// Call and CallN: a frame of this kind, with the result label, stands under so many arguments, which keep theirs.
#[tactic(auto, unfolding(crate::specs::Effect::call_effect))]
pub fn call(
    place: Label,
    res: Label,
    m: Machine,
    arguments: usize,
    kind: i64,
    stack: &mut [i64],
) -> Result<Stepped, Stop>
    ensures { on_stack result stack.new ≡ call_effect place.0 res.0 m arguments kind stack.old }
{
    let a = stack::look(stack, m.depth, 0);
    let back = m.pc.offset(1);
    m.insert(arguments, stack, kind, back.0, res);
    stack::carried(m.goto(Pc(a.number), place))
}

// The kind word of a frame to which so many results are due.
pub fn frame_kind(results: u64) -> i64
    ensures { result ≡ frame_kind results }
{
    if 0 < results { 2 } else { 1 }
}

// RetV: to the frame's place; the value, with the result label, stands where the frame stood.
#[tactic(auto, unfolding(crate::specs::Effect::return_effect))]
pub fn return_value(
    place: Label,
    res: Label,
    m: Machine,
    stack: &mut [i64],
) -> Result<Stepped, Stop>
    ensures { on_stack result stack.new ≡ return_effect place.0 res.0 m stack.old }
{
    let a = stack::look(stack, m.depth, 0);
    let b = stack::look(stack, m.depth, 1);
    let over = m.drop().drop().push(stack, 0, a.number, res);
    stack::carried(over.goto(Pc(b.number), place))
}

// By the command's code, chosen by a tree of tests of the shape of find's.
#[tactic(auto, unfolding(crate::specs::Effect::effect_of))]
pub fn effect(
    place: Label,
    res: Label,
    m: Machine,
    code: u64,
    operand: i64,
    stack: &mut [i64],
    cells: &mut CellRuns<'_>,
) -> Result<Stepped, Stop>
    ensures same_cells { SameCells cells.new cells.old }
    ensures done { after result (lent stack.new (cells_of cells.new))
        ≡ effect_of place.0 res.0 m code operand (lent stack.old (cells_of cells.old)) }
{
    if code <= code::PUSH {
        if code <= code::SUB {
            arith(place, res, m, code, stack)
        } else if code <= code::OUTPUT {
            if code == code::POP {
                pop(place, m)
            } else {
                output(place, res, m, 0, stack)
            }
        } else {
            push(place, res, m, operand, stack)
        }
    } else if code <= code::STORE {
        if code == code::LOAD {
            load(place, res, m, stack, cells.words().values)
        } else {
            store(place, res, m, stack, cells)
        }
    } else if code <= code::BNZ {
        if code == code::JUMP {
            jump(place, m, stack)
        } else {
            bnz(place, m, operand, stack)
        }
    } else if code <= code::RET {
        if code == code::CALL {
            call(place, res, m, 1, 1, stack)
        } else {
            jump(place, m, stack)
        }
    } else if code <= code::CALL_N {
        if code == code::OUTPUT_TO {
            output(place, res, m, operand, stack)
        } else {
            let arguments = program::arguments_of(operand) as usize;
            let kind = frame_kind(program::results_of(operand));
            call(place, res, m, arguments, kind, stack)
        }
    } else {
        return_value(place, res, m, stack)
    }
}
