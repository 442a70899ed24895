// The commands under the standard rules: what a command finds, its rule, what it does, with no choice between. Read specs/Ruler.antt first.
ghost use Rattle.std.specs.Prelude.{◌≡◌, ◌<◌, ℤ};
ghost use Rattle.word.specs.Wrap.{residue};
ghost use Rattle.step.specs.Lent.{Cells, cells_of, SameCells, lent, after};
ghost use Rattle.engine.specs.Act.{act_of};
ghost use Rattle.plain.specs.Ruler.{standard_ruler, PrintsTo, CallsWith};

use label::Label;
use machine::Stop;
use program::code;
use stack::{Machine, Stepped};
use step::cell::CellRuns;
use step::{effect, find};

// Add and Sub: P; L1+L2.
#[tactic(auto, unfolding(engine::specs::Act::act_of, step::specs::Find::find_of, step::specs::Effect::effect_of, crate::specs::Ruler::standard_by))]
fn arith(code: u64, m: Machine, stack: &mut [i64]) -> Result<Stepped, Stop>
    requires { code < 3 }
    ensures { (word operand : ℤ) (c : Cells) → residue 64 word ≡ code → after result (lent stack.new c)
        ≡ (act_of standard_ruler word operand m tt (lent stack.old c)).after }
{
    let found = find::two_values(m, stack)?;
    effect::arith(m.label, found.input1.join(found.input2), m, code, stack)
}

// Pop: P; nothing.
#[tactic(auto, unfolding(engine::specs::Act::act_of, step::specs::Find::find_of, step::specs::Effect::effect_of, crate::specs::Ruler::standard_by))]
fn pop(m: Machine, stack: &[i64]) -> Result<Stepped, Stop>
    ensures { (word operand : ℤ) (c : Cells) → residue 64 word ≡ 3 → after result (lent stack.now c)
        ≡ (act_of standard_ruler word operand m tt (lent stack.now c)).after }
{
    let found = find::one_value(m, stack)?;
    effect::pop(m.label, m)
}

// Output and OutputTo: P; L1+P labels the line on a page.
#[tactic(auto, unfolding(engine::specs::Act::act_of, step::specs::Find::find_of, step::specs::Effect::effect_of, crate::specs::Ruler::standard_by))]
fn output(page: i64, m: Machine, stack: &[i64]) -> Result<Stepped, Stop>
    ensures { (word operand : ℤ) (c : Cells) → PrintsTo (residue 64 word) operand page → after result (lent stack.now c)
        ≡ (act_of standard_ruler word operand m tt (lent stack.now c)).after }
{
    let found = find::one_value(m, stack)?;
    effect::output(m.label, found.input1.join(m.label), m, page, stack)
}

// Push: P; the empty label.
#[tactic(auto, unfolding(engine::specs::Act::act_of, step::specs::Find::find_of, step::specs::Effect::effect_of, crate::specs::Ruler::standard_by))]
fn push(operand: i64, m: Machine, stack: &mut [i64]) -> Result<Stepped, Stop>
    ensures { (word : ℤ) (c : Cells) → residue 64 word ≡ 5 → after result (lent stack.new c)
        ≡ (act_of standard_ruler word operand m tt (lent stack.old c)).after }
{
    effect::push(m.label, Label::EMPTY, m, operand, stack)
}

// Load: P; L1+L2.
#[tactic(auto, unfolding(engine::specs::Act::act_of, step::specs::Find::find_of, step::specs::Effect::effect_of, crate::specs::Ruler::standard_by))]
fn load(m: Machine, stack: &mut [i64], cells: &CellRuns<'_>) -> Result<Stepped, Stop>
    ensures { (word operand : ℤ) → residue 64 word ≡ 6
        → after result (lent stack.new (cells_of cells.now))
        ≡ (act_of standard_ruler word operand m tt (lent stack.old (cells_of cells.now))).after }
{
    let words = cells.words();
    let found = find::load_cell(m, stack, words)?;
    effect::load(
        m.label,
        found.input1.join(found.input2),
        m,
        stack,
        words.values,
    )
}

// Store: allowed if L1+P flows to L3; P; L1+L2+P labels the cell.
#[tactic(auto, unfolding(engine::specs::Act::act_of, step::specs::Find::find_of, step::specs::Effect::effect_of, crate::specs::Ruler::standard_by))]
fn store(m: Machine, stack: &[i64], cells: &mut CellRuns<'_>) -> Result<Stepped, Stop>
    ensures same_cells { SameCells cells.new cells.old }
    ensures done { (word operand : ℤ) → residue 64 word ≡ 7
        → after result (lent stack.now (cells_of cells.new))
        ≡ (act_of standard_ruler word operand m tt (lent stack.now (cells_of cells.old))).after }
{
    let found = find::store_cell(m, stack, cells.words())?;
    if !found.input1.join(m.label).flows(found.input3) {
        return Err(Stop::Denial);
    }
    let result = found.input1.join(found.input2).join(m.label);
    effect::store(m.label, result, m, stack, cells)
}

// Jump: L1+P.
#[tactic(auto, unfolding(engine::specs::Act::act_of, step::specs::Find::find_of, step::specs::Effect::effect_of, crate::specs::Ruler::standard_by))]
fn jump(m: Machine, stack: &[i64]) -> Result<Stepped, Stop>
    ensures { (word operand : ℤ) (c : Cells) → residue 64 word ≡ 8 → after result (lent stack.now c)
        ≡ (act_of standard_ruler word operand m tt (lent stack.now c)).after }
{
    let found = find::one_value(m, stack)?;
    effect::jump(found.input1.join(m.label), m, stack)
}

// Bnz: L1+P.
#[tactic(auto, unfolding(engine::specs::Act::act_of, step::specs::Find::find_of, step::specs::Effect::effect_of, crate::specs::Ruler::standard_by))]
fn bnz(operand: i64, m: Machine, stack: &[i64]) -> Result<Stepped, Stop>
    ensures { (word : ℤ) (c : Cells) → residue 64 word ≡ 9 → after result (lent stack.now c)
        ≡ (act_of standard_ruler word operand m tt (lent stack.now c)).after }
{
    let found = find::one_value(m, stack)?;
    effect::bnz(found.input1.join(m.label), m, operand, stack)
}

// Call and CallN: L1+P; P labels the frame.
#[tactic(auto, unfolding(engine::specs::Act::act_of, step::specs::Find::find_of, step::specs::Effect::effect_of, crate::specs::Ruler::standard_by))]
fn call(arguments: usize, kind: i64, m: Machine, stack: &mut [i64]) -> Result<Stepped, Stop>
    ensures { (word operand : ℤ) (c : Cells) → CallsWith (residue 64 word) operand arguments kind
        → after result (lent stack.new c)
        ≡ (act_of standard_ruler word operand m tt (lent stack.old c)).after }
{
    let found = find::call_values(m, arguments, stack)?;
    effect::call(
        found.input1.join(m.label),
        m.label,
        m,
        arguments,
        kind,
        stack,
    )
}

// Ret: L1, the frame's.
#[tactic(auto, unfolding(engine::specs::Act::act_of, step::specs::Find::find_of, step::specs::Effect::effect_of, crate::specs::Ruler::standard_by))]
fn ret(m: Machine, stack: &[i64]) -> Result<Stepped, Stop>
    ensures { (word operand : ℤ) (c : Cells) → residue 64 word ≡ 11 → after result (lent stack.now c)
        ≡ (act_of standard_ruler word operand m tt (lent stack.now c)).after }
{
    let found = find::one_frame(m, stack)?;
    effect::jump(found.input1, m, stack)
}

// CallN: the counts of its operand.
fn call_n(operand: i64, m: Machine, stack: &mut [i64]) -> Result<Stepped, Stop>
    ensures { (word : ℤ) (c : Cells) → residue 64 word ≡ 13 → after result (lent stack.new c)
        ≡ (act_of standard_ruler word operand m tt (lent stack.old c)).after }
{
    let arguments = program::arguments_of(operand) as usize;
    let kind = effect::frame_kind(program::results_of(operand));
    call(arguments, kind, m, stack)
}

// RetV: L2, the frame's; L1+P labels the value.
#[tactic(auto, unfolding(engine::specs::Act::act_of, step::specs::Find::find_of, step::specs::Effect::effect_of, crate::specs::Ruler::standard_by))]
fn ret_v(m: Machine, stack: &mut [i64]) -> Result<Stepped, Stop>
    ensures { (word operand : ℤ) (c : Cells) → 13 < residue 64 word → after result (lent stack.new c)
        ≡ (act_of standard_ruler word operand m tt (lent stack.old c)).after }
{
    let found = find::value_and_frame(m, stack)?;
    effect::return_value(found.input2, found.input1.join(m.label), m, stack)
}

// By the command's code word, chosen by a tree of tests: a match on it was measured up to 10 % slower on a random mix of commands.
pub(crate) fn act(
    word: i64,
    operand: i64,
    m: Machine,
    stack: &mut [i64],
    cells: &mut CellRuns<'_>,
) -> Result<Stepped, Stop>
    ensures same_cells { SameCells cells.new cells.old }
    ensures done { after result (lent stack.new (cells_of cells.new))
        ≡ (act_of standard_ruler word operand m tt (lent stack.old (cells_of cells.old))).after }
{
    let code = word::wrap::to_bits(word);
    if code <= code::PUSH {
        if code <= code::SUB {
            arith(code, m, stack)
        } else if code <= code::OUTPUT {
            if code == code::POP {
                pop(m, stack)
            } else {
                output(0, m, stack)
            }
        } else {
            push(operand, m, stack)
        }
    } else if code <= code::STORE {
        if code == code::LOAD {
            load(m, stack, cells)
        } else {
            store(m, stack, cells)
        }
    } else if code::BNZ < code {
        if code <= code::RET {
            if code == code::CALL {
                call(1, 1, m, stack)
            } else {
                ret(m, stack)
            }
        } else if code <= code::CALL_N {
            if code == code::OUTPUT_TO {
                output(operand, m, stack)
            } else {
                call_n(operand, m, stack)
            }
        } else {
            ret_v(m, stack)
        }
    } else if code == code::JUMP {
        jump(m, stack)
    } else {
        bnz(operand, m, stack)
    }
}
