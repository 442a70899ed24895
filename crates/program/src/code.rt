// The codes of the commands: those of `description` in specs/Command.antt. No enum: they are the bytes of sheets and of the C interface.
pub const ADD: u64 = 0x01;

pub const SUB: u64 = 0x02;

pub const POP: u64 = 0x03;

pub const OUTPUT: u64 = 0x04;

pub const PUSH: u64 = 0x05;

pub const LOAD: u64 = 0x06;

pub const STORE: u64 = 0x07;

pub const JUMP: u64 = 0x08;

pub const BNZ: u64 = 0x09;

pub const CALL: u64 = 0x0a;

pub const RET: u64 = 0x0b;

pub const OUTPUT_TO: u64 = 0x0c;

pub const CALL_N: u64 = 0x0d;

pub const RET_V: u64 = 0x0e;
