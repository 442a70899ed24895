// Words of 64 bits and what is read from them and written of them. Read in specs/: Wrap, Exact, Number, Digits, Field, Text.
#![tactic(auto)]

pub mod exact;
pub mod field;
pub mod kind;
pub mod memory;
pub mod number;
pub mod numeral;
pub mod part;
pub mod text;
pub mod wrap;
