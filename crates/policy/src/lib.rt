// Rule tables, as definitions and theorems; of code it has what a byte stands for, the standard table and the rule memory. Read in specs/:
// Expression, Evaluate; Token, Read for their bytes, Write for the way back; Standard; Row for the rule memory.
#![tactic(auto)]

pub mod row;
pub mod standard_table;

ghost use Rattle.std.specs.Prelude.{◌≡◌};
ghost use Rattle.policy.specs.Token.{token_of};
ghost use Rattle.policy.specs.Read.{owner_code};

use program::code;

// How many rules a table has: one for each command but OutputTo, which is under Output's, and CallN, which is under Call's.
pub const RULES: u64 = 12;

// What a byte of a rule table stands for: an expression or an operator, or nothing, which is a token too in the definitions that read one
// (specs/Token.antt, specs/Read.antt).
#[derive(Clone, Copy, PartialEq, Eq, Debug)]
pub enum Token {
    Empty,
    Place,
    Input1,
    Input2,
    Input3,
    Join,
    Flows,
    True,
    And,
    Or,
    Nothing,
}

// What a byte of a rule table stands for.
#[tactic(auto, unfolding(crate::specs::Token::token_of))]
pub fn token_of(byte: u8) -> Token
    ensures { result ≡ token_of byte }
{
    match byte {
        0x10 => Token::Empty,
        0x11 => Token::Place,
        0x12 => Token::Input1,
        0x13 => Token::Input2,
        0x14 => Token::Input3,
        0x15 => Token::Join,
        0x16 => Token::Flows,
        0x17 => Token::True,
        0x18 => Token::And,
        0x19 => Token::Or,
        _ => Token::Nothing,
    }
}

// The code of the command that has the rule with a number: the first rules are those of the codes up to Ret's, the last is RetV's.
#[tactic(auto, unfolding(crate::specs::Read::owner_code))]
pub fn owner(rule: u64) -> u64
    ensures { result ≡ owner_code rule }
{
    if rule < code::RET {
        rule + 1
    } else {
        code::RET_V
    }
}
