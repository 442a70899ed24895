// Expressions of rule tables, read from their bytes with their value at given labels. Read specs/Value.antt first.
ghost use Rattle.std.specs.Prelude.{◌≡◌};
ghost use Rattle.policy.specs.Token.{token_at};
ghost use Rattle.tables.specs.Value.{LabelAt, ConditionAt, leaf_of, test_of, at_offset};

use crate::Asked;
use label::Label;
use policy::{Token, token_of};

// What was read at an offset and the offset after it, or the offset of the byte at fault.
pub type Read<T> = Result<(T, usize), usize>;

// What a byte starts where a label expression is to stand: an expression by itself, or a join of two.
#[derive(Clone, Copy)]
enum Leaf {
    Is(Label),
    Join,
}

// What a byte starts where a yes/no expression is to stand.
#[derive(Clone, Copy, PartialEq, Eq, Debug)]
pub enum Test {
    True,
    Flows,
    And,
    Or,
}

// What the byte at an offset stands for; a missing one for nothing.
pub fn token_at(bytes: &[u8], at: usize) -> Token
    ensures { result ≡ token_at bytes.now at }
{
    bytes.get(at).map_or(Token::Nothing, |byte| token_of(*byte))
}

// An input may be named only where the command supplies it.
fn leaf_of(token: Token, asked: Asked) -> Option<Leaf>
    ensures { result ≡ leaf_of token asked }
{
    let Asked { supplied, labels } = asked;
    match token {
        Token::Empty => Some(Leaf::Is(Label::EMPTY)),
        Token::Place => Some(Leaf::Is(labels.place)),
        Token::Input1 => (1 <= supplied).then_some(Leaf::Is(labels.input1)),
        Token::Input2 => (2 <= supplied).then_some(Leaf::Is(labels.input2)),
        Token::Input3 => (3 <= supplied).then_some(Leaf::Is(labels.input3)),
        Token::Join => Some(Leaf::Join),
        _ => None,
    }
}

// What a token starts where a condition is to stand.
pub fn test_of(token: Token) -> Option<Test>
    ensures { result ≡ test_of token }
{
    match token {
        Token::True => Some(Test::True),
        Token::Flows => Some(Test::Flows),
        Token::And => Some(Test::And),
        Token::Or => Some(Test::Or),
        _ => None,
    }
}

// What starts a label expression at an offset, and the offset after it.
fn leaf_at(bytes: &[u8], at: usize, asked: Asked) -> Read<Leaf>
    ensures { result ≡ at_offset (leaf_of (token_at bytes.now at) asked) at }
{
    let leaf = leaf_of(token_at(bytes, at), asked).ok_or(at)?;
    Ok((leaf, at + 1))
}

// What starts a yes/no expression at an offset, and the offset after it.
pub fn test_at(bytes: &[u8], at: usize) -> Read<Test>
    ensures { result ≡ at_offset (test_of (token_at bytes.now at)) at }
{
    let test = test_of(token_at(bytes, at)).ok_or(at)?;
    Ok((test, at + 1))
}

// The label expression at an offset, at most so deep. Here and below two are read in place: one function for both kinds would take a
// closure in a cycle of calls, which is longer.
pub(crate) fn read_label(bytes: &[u8], at: usize, depth: usize, asked: Asked) -> Read<Label>
    ensures { LabelAt depth asked bytes.now at result }
{
    if depth == 0 {
        return Err(at);
    }
    let (leaf, next) = leaf_at(bytes, at, asked)?;
    match leaf {
        Leaf::Is(label) => Ok((label, next)),
        Leaf::Join => {
            let (a, between) = read_label(bytes, next, depth - 1, asked)?;
            let (b, end) = read_label(bytes, between, depth - 1, asked)?;
            Ok((a.join(b), end))
        }
    }
}

// The yes/no expression at an offset, at most so deep.
pub(crate) fn read_condition(bytes: &[u8], at: usize, depth: usize, asked: Asked) -> Read<bool>
    ensures { ConditionAt depth asked bytes.now at result }
{
    if depth == 0 {
        return Err(at);
    }
    let (test, next) = test_at(bytes, at)?;
    match test {
        Test::True => Ok((true, next)),
        Test::Flows => {
            let (a, between) = read_label(bytes, next, depth - 1, asked)?;
            let (b, end) = read_label(bytes, between, depth - 1, asked)?;
            Ok((a.flows(b), end))
        }
        Test::And => {
            let (a, between) = read_condition(bytes, next, depth - 1, asked)?;
            let (b, end) = read_condition(bytes, between, depth - 1, asked)?;
            Ok((a && b, end))
        }
        Test::Or => {
            let (a, between) = read_condition(bytes, next, depth - 1, asked)?;
            let (b, end) = read_condition(bytes, between, depth - 1, asked)?;
            Ok((a || b, end))
        }
    }
}
