// The codes of the kernel's instructions, `code_of` of specs/Space.antt: those that sheets have, then three past all codes of sheets. Numbers,
// and no enum: they are parts of words in a lent space.
pub use program::code::{ADD, BNZ, JUMP, LOAD, PUSH, RET, STORE, SUB};

pub const OR: u64 = 0x11;

pub const DUP: u64 = 0x12;

pub const SWAP: u64 = 0x13;
