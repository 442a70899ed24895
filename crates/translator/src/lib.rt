// The translator: from a rule table's bytes into the handler space. Read handler/specs/Translate.antt first; in specs/ Emit says what the
// code stores.
#![tactic(auto)]

ghost use Rattle.std.specs.Prelude.{◌≡◌, ◌+◌, ◌*◌, ◌≤◌, ◌^◌, ◌/◌, length};
ghost use Rattle.program.specs.Command.{opcodes};
ghost use Rattle.policy.specs.Read.{read_table};
ghost use Rattle.policy.specs.Token.{token_at};
ghost use Rattle.tables.specs.Value.{at_offset};
ghost use Rattle.word.specs.Lay.{laid};
ghost use Rattle.handler.specs.Space.{kernel_words};
ghost use Rattle.handler.specs.Translate.{handler_of};
ghost use Rattle.handler.specs.Claim.{Handles};
ghost use Rattle.translator.specs.Emit.{part_of, two_pieces, flows_code, label_code, condition_code};
ghost use Rattle.translator.specs.Emit.{answer_code, guarded_code, rule_code, table_code, put_all, put_code, Emitted};
ghost use Rattle.translator.specs.Emit.{first_slot, slots_to, Ahead};

use handler::code;
use policy::Token;
use program::shape_of;
use tables::expression::{Read, Test, test_at, token_at};
use tables::{DEPTH_LIMIT, check_table};
use word::memory::put;

// The codes of the kernel's instructions, as words of the handler space: numbers, as they are what is stored there.
const ADD: i64 = code::ADD as i64;

const SUB: i64 = code::SUB as i64;

const PUSH: i64 = code::PUSH as i64;

const LOAD: i64 = code::LOAD as i64;

const STORE: i64 = code::STORE as i64;

const JUMP: i64 = code::JUMP as i64;

const BNZ: i64 = code::BNZ as i64;

const RET: i64 = code::RET as i64;

const OR: i64 = code::OR as i64;

const DUP: i64 = code::DUP as i64;

// A slot for each code, up to RetV's, behind the six instructions of the computed jump; the first rule's body stands behind them.
const CODES: usize = program::code::RET_V as usize;

const FIRST: usize = 6 + CODES;

const RULES: usize = policy::RULES as usize;

// Where a translation stands: the offset of the next byte, and the place of the next instruction.
#[derive(Clone, Copy)]
struct Mark {
    next: usize,
    position: usize,
}

impl Mark {
    // Behind so many instructions.
    fn after(self, count: usize) -> Mark
        requires { (self.position ≤ 2 ^ 20) × (count ≤ 2 ^ 10) }
        ensures { result ≡ record self { position = self.position + count } }
    {
        Mark {
            position: self.position + count,
            ..self
        }
    }
}

// What a byte starts where a label expression is to stand: the empty label, a word of the row, or a join of two.
#[derive(Clone, Copy)]
enum Part {
    Empty,
    Word(usize),
    Join,
}

fn part_of(token: Token) -> Option<Part>
    ensures { result ≡ part_of token }
{
    match token {
        Token::Empty => Some(Part::Empty),
        Token::Place => Some(Part::Word(1)),
        Token::Input1 => Some(Part::Word(2)),
        Token::Input2 => Some(Part::Word(3)),
        Token::Input3 => Some(Part::Word(4)),
        Token::Join => Some(Part::Join),
        _ => None,
    }
}

// What starts a label expression at an offset, and the offset after it.
fn part_at(bytes: &[u8], at: usize) -> Read<Part>
    ensures { result ≡ at_offset (part_of (token_at bytes.now at)) at }
{
    let part = part_of(token_at(bytes, at)).ok_or(at)?;
    Ok((part, at + 1))
}

// Instructions from a place on: for each its code, and its operand or 0.
fn store(space: &mut [i64], position: usize, words: &[i64])
    requires { (position ≤ 2 ^ 20) × (length words.now ≤ 2 ^ 10) }
    ensures { space.new ≡ put_all (2 * position) words.now space.old }
{
    for (i, &word) in words.iter().enumerate() {
        put(space, 2 * position + i, word);
    }
}

// Instructions from a mark on, and the mark behind them.
fn emit(space: &mut [i64], mark: Mark, words: &[i64]) -> Mark
    requires { (mark.position ≤ 2 ^ 20) × (length words.now ≤ 2 ^ 10) }
    ensures behind { result ≡ record mark { position = mark.position + length words.now / 2 } }
    ensures stored { space.new ≡ put_all (2 * mark.position) words.now space.old }
{
    store(space, mark.position, words);
    mark.after(words.len() / 2)
}

// ════════════════════════════════════════════════════════════════════════════════════════════
// Expressions
// ════════════════════════════════════════════════════════════════════════════════════════════

// The offset after a label expression.
fn skip_label(bytes: &[u8], at: usize, depth: usize) -> usize
    ensures { result ≡ (label_code depth bytes.now at).next }
{
    if depth == 0 {
        return at;
    }
    let Ok((part, next)) = part_at(bytes, at) else {
        return at;
    };
    match part {
        Part::Empty | Part::Word(_) => next,
        Part::Join => {
            let second = skip_label(bytes, next, depth - 1);
            skip_label(bytes, second, depth - 1)
        }
    }
}

// A label on the stack.
fn emit_label(bytes: &[u8], mark: Mark, depth: usize, space: &mut [i64]) -> Mark
    requires { mark.position + 3 * 2 ^ depth ≤ 2 ^ 20 }
    ensures { Emitted (label_code depth bytes.now) mark space.old result space.new }
{
    if depth == 0 {
        return mark;
    }
    let Ok((part, next)) = part_at(bytes, mark.next) else {
        return mark;
    };
    let inner = Mark { next, ..mark };
    match part {
        Part::Empty => emit(space, inner, &[PUSH, 0]),
        Part::Word(address) => emit(space, inner, &[PUSH, address as i64, LOAD, 0]),
        Part::Join => {
            let first = emit_label(bytes, inner, depth - 1, space);
            let second = emit_label(bytes, first, depth - 1, space);
            emit(space, second, &[OR, 0])
        }
    }
}

// Whether a label flows to a second, which comes first on the stack: their join less the second.
fn emit_flows(bytes: &[u8], mark: Mark, depth: usize, space: &mut [i64]) -> Mark
    requires { mark.position + 6 * 2 ^ depth + 3 ≤ 2 ^ 20 }
    ensures { Emitted (two_pieces flows_code (label_code depth bytes.now))
        mark space.old result space.new }
{
    let second = Mark {
        next: skip_label(bytes, mark.next, depth),
        ..mark
    };
    let target = emit_label(bytes, second, depth, space);
    let behind = emit(space, target, &[DUP, 0]);
    let first = Mark {
        next: mark.next,
        ..behind
    };
    let source = emit_label(bytes, first, depth, space);
    let end = emit(space, source, &[OR, 0, SUB, 0]);
    Mark {
        next: target.next,
        ..end
    }
}

// A number on the stack that is 0 where a yes/no expression holds. Both hold where the two numbers have no bit; where the first of either
// holds 0 stays, and the second is passed over: the branch over it is stored when its length is known.
fn emit_condition(bytes: &[u8], mark: Mark, depth: usize, space: &mut [i64]) -> Mark
    requires { mark.position + 8 * 2 ^ depth ≤ 2 ^ 20 }
    ensures { Emitted (condition_code depth bytes.now) mark space.old result space.new }
{
    if depth == 0 {
        return mark;
    }
    let Ok((test, next)) = test_at(bytes, mark.next) else {
        return mark;
    };
    let inner = Mark { next, ..mark };
    match test {
        Test::True => emit(space, inner, &[PUSH, 0]),
        Test::Flows => emit_flows(bytes, inner, depth - 1, space),
        Test::And => {
            let first = emit_condition(bytes, inner, depth - 1, space);
            let second = emit_condition(bytes, first, depth - 1, space);
            emit(space, second, &[OR, 0])
        }
        Test::Or => {
            let first = emit_condition(bytes, inner, depth - 1, space);
            let second = emit_condition(bytes, first.after(4), depth - 1, space);
            let over = second.position - first.position - 3;
            emit(space, first, &[BNZ, 4, PUSH, 0, PUSH, 1, BNZ, over as i64]);
            second
        }
    }
}

// ════════════════════════════════════════════════════════════════════════════════════════════
// Rules
// ════════════════════════════════════════════════════════════════════════════════════════════

// Both labels of a rule, stored into the words 6 and 5 of the row.
fn emit_answer(bytes: &[u8], mark: Mark, space: &mut [i64]) -> Mark
    requires { mark.position + 2048 ≤ 2 ^ 20 }
    ensures { Emitted (answer_code bytes.now) mark space.old result space.new }
{
    let place = emit_label(bytes, mark, DEPTH_LIMIT, space);
    let result = emit_label(bytes, place, DEPTH_LIMIT, space);
    let stores = [PUSH, 6, STORE, 0, PUSH, 5, STORE, 0, RET, 0];
    emit(space, result, &stores)
}

// A rule with a condition: where it does not hold, the answer is passed over to the jump to -1.
fn emit_guarded(bytes: &[u8], mark: Mark, space: &mut [i64]) -> Mark
    requires { mark.position + 8192 ≤ 2 ^ 20 }
    ensures { Emitted (guarded_code bytes.now) mark space.old result space.new }
{
    let condition = emit_condition(bytes, mark, DEPTH_LIMIT, space);
    let answer = emit_answer(bytes, condition.after(1), space);
    let over = answer.position - condition.position;
    emit(space, condition, &[BNZ, over as i64]);
    emit(space, answer, &[PUSH, -1, JUMP, 0])
}

// A rule; one that always allows tests nothing.
fn emit_rule(bytes: &[u8], mark: Mark, space: &mut [i64]) -> Mark
    requires { mark.position + 8192 ≤ 2 ^ 20 }
    ensures { Emitted (rule_code bytes.now) mark space.old result space.new }
{
    let Ok((test, next)) = test_at(bytes, mark.next) else {
        return mark;
    };
    match test {
        Test::True => emit_answer(bytes, Mark { next, ..mark }, space),
        Test::Flows | Test::And | Test::Or => emit_guarded(bytes, mark, space),
    }
}

// ════════════════════════════════════════════════════════════════════════════════════════════
// Tables
// ════════════════════════════════════════════════════════════════════════════════════════════

// A slot for each code, which branches to where the body of its command's rule starts; none of these codes is unknown.
fn emit_slots(starts: &[usize; RULES], space: &mut [i64])
    requires { Ahead starts.now }
    ensures { space.new ≡ put_code first_slot (slots_to first_slot starts.now opcodes) space.old }
{
    for i in 0..CODES {
        let Some(shape) = shape_of(i as u64 + 1) else {
            return;
        };
        let slot = 6 + i;
        let ahead = starts[shape.rule] - slot;
        store(space, slot, &[BNZ, ahead as i64]);
    }
}

// A whole handler; it has so many instructions. First the computed jump, then the rules' bodies; the slots are stored when it is known
// where each body starts.
fn emit_table(bytes: &[u8], space: &mut [i64]) -> usize
    ensures count { result ≡ length (table_code bytes.now) }
    ensures written { space.new ≡ put_code 0 (table_code bytes.now) space.old }
{
    let dispatch = [PUSH, 0, LOAD, 0, DUP, 0, PUSH, 5, ADD, 0, JUMP, 0];
    store(space, 0, &dispatch);
    let mut starts = [0; RULES];
    let mut mark = Mark {
        next: 0,
        position: FIRST,
    };
    for start in starts.iter_mut() {
        *start = mark.position;
        mark = emit_rule(bytes, mark, space);
    }
    emit_slots(&starts, space);
    mark.position
}

// How many instructions `write` stores of bytes where there is room, whatever the bytes: what a space of no words is given. Of a table they
// are its handler's.
pub fn instructions(bytes: &[u8]) -> usize
    ensures count { result ≡ length (table_code bytes.now) }
    ensures handler { Handles (read_table bytes.now) (λ t code. result ≡ length code) }
{
    emit_table(bytes, &mut [])
}

// Stores the handler of a table's bytes without a check: as far as there is room, whatever the bytes. Where the bytes are a table and there
// is room for its handler, that lies at the start of the space.
pub fn write(bytes: &[u8], space: &mut [i64])
    ensures written { space.new ≡ put_code 0 (table_code bytes.now) space.old }
    ensures handler { Handles (read_table bytes.now) (λ t code. 2 * length code ≤ length space.old
        → space.new ≡ laid (kernel_words code) space.old) }
{
    emit_table(bytes, space);
}

// How many instructions the handler of a table has; bytes that are no table have none.
pub fn count(bytes: &[u8]) -> usize
    ensures count { result ≡ length (handler_of (read_table bytes.now)) }
    ensures handler { Handles (read_table bytes.now) (λ t code. result ≡ length code) }
{
    if check_table(bytes).is_ok() {
        instructions(bytes)
    } else {
        0
    }
}
