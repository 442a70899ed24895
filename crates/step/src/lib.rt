// What a command finds on lent words and what it does there under the two labels of a ruling; who rules is the engine's.
// Read in specs/: Lent, Cell, Find, Effect.
#![tactic(auto)]

pub mod cell;
pub mod effect;
pub mod find;
