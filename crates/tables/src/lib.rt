// Rule tables in code: check 6, what a table says when it is asked, and check 7. Read the definitions of `policy` first; in specs/ Value,
// Ask and RowCode say what the code reads of a table and of a row.
#![tactic(auto)]

pub mod expression;
pub mod row;

ghost use Rattle.std.specs.Prelude.{◌≡◌, ◌<◌};
ghost use Rattle.program.specs.Command.{opcode_of};
ghost use Rattle.program.specs.Decode.{refusal};
ghost use Rattle.policy.specs.Read.{rule_count, read_table};
ghost use Rattle.tables.specs.Value.{ResultAt};
ghost use Rattle.tables.specs.Ask.{RuleAt, CodeAt, check_answer, Readable, RuleSays};

use expression::{Read, read_condition, read_label};
use label::Label;
use policy::{RULES, owner};
use program::{Refusal, shape_of};

// The largest number of bytes of a table.
const TABLE_LIMIT: usize = 512;

// An expression may hold expressions, at most so deep; a lone byte is 1 deep.
pub const DEPTH_LIMIT: usize = 8;

// The labels that a rule is asked with: P, and L1 to L3, of which those that the command does not supply do not count.
#[derive(Clone, Copy, PartialEq, Eq)]
pub struct Labels {
    pub place: Label,
    pub input1: Label,
    pub input2: Label,
    pub input3: Label,
}

// How many inputs the command supplies that a rule is asked for, and the labels.
#[derive(Clone, Copy)]
pub(crate) struct Asked {
    pub supplied: usize,
    pub labels: Labels,
}

// What a rule says where it allows: the new place label and the result label.
#[derive(Clone, Copy, PartialEq, Eq)]
pub struct Allowed {
    pub place: Label,
    pub result: Label,
}

// What a rule says; None: not allowed.
pub type Verdict = Option<Allowed>;

// The result of a rule: where the command has none, it must be the byte 10.
fn read_result(bytes: &[u8], at: usize, has: bool, asked: Asked) -> Read<Label>
    ensures { ResultAt has asked bytes.now at result }
{
    if has {
        return read_label(bytes, at, DEPTH_LIMIT, asked);
    }
    match bytes.get(at) {
        Some(0x10) => Ok((Label::EMPTY, at + 1)),
        _ => Err(at),
    }
}

// A rule of a command of a shape: three expressions (allowed, place, result).
fn read_rule_with(bytes: &[u8], at: usize, has: bool, asked: Asked) -> Read<Verdict>
    ensures { RuleAt asked has bytes.now at result }
{
    let (allowed, at) = read_condition(bytes, at, DEPTH_LIMIT, asked)?;
    let (place, at) = read_label(bytes, at, DEPTH_LIMIT, asked)?;
    let (result, end) = read_result(bytes, at, has, asked)?;
    Ok((allowed.then_some(Allowed { place, result }), end))
}

// The rule of the command with a code.
fn read_rule(bytes: &[u8], at: usize, code: u64, labels: Labels) -> Read<Verdict>
    ensures { CodeAt (opcode_of code) labels bytes.now at result }
{
    let shape = shape_of(code).ok_or(at)?;
    let asked = Asked {
        supplied: shape.inputs,
        labels,
    };
    read_rule_with(bytes, at, shape.result, asked)
}

// Check 6 refuses bytes at a position.
fn refused(position: usize) -> Refusal
    ensures { result ≡ refusal 6 position }
{
    Refusal { code: 6, position }
}

// Check 6 of document 01 over any bytes. Any labels do, as the verdicts are not looked at.
pub fn check_table(bytes: &[u8]) -> Result<(), Refusal>
    ensures { result ≡ check_answer (read_table bytes.now) }
{
    if TABLE_LIMIT < bytes.len() {
        return Err(refused(TABLE_LIMIT));
    }
    let labels = Labels {
        place: Label::EMPTY,
        input1: Label::EMPTY,
        input2: Label::EMPTY,
        input3: Label::EMPTY,
    };
    let mut at = 0;
    for i in 0..RULES {
        (_, at) = read_rule(bytes, at, owner(i), labels).map_err(refused)?;
    }
    if at < bytes.len() {
        Err(refused(at))
    } else {
        Ok(())
    }
}

// The rule with a number in bytes that are a table: the rules before it are passed over.
fn rule_of(bytes: &[u8], number: u64, labels: Labels) -> Verdict
    requires { Readable (read_table bytes.now) × (number < rule_count) }
    ensures { RuleSays (read_table bytes.now) number labels result }
{
    let mut at = 0;
    for i in 0..number {
        (_, at) = read_rule(bytes, at, owner(i), labels).ok()?;
    }
    let (verdict, _) = read_rule(bytes, at, owner(number), labels).ok()?;
    verdict
}
