// The names of the commands as words (`Name`): those of `description` in specs/Command.antt. At the end, how their codes are guessed.
// Add
pub const ADD: u64 = 0x416464;

// Sub
pub const SUB: u64 = 0x537562;

// Pop
pub const POP: u64 = 0x506f70;

// Output
pub const OUTPUT: u64 = 0x4f7574707574;

// Push
pub const PUSH: u64 = 0x50757368;

// Load
pub const LOAD: u64 = 0x4c6f6164;

// Store
pub const STORE: u64 = 0x53746f7265;

// Jump
pub const JUMP: u64 = 0x4a756d70;

// Bnz
pub const BNZ: u64 = 0x426e7a;

// Call
pub const CALL: u64 = 0x43616c6c;

// Ret
pub const RET: u64 = 0x526574;

// OutputTo
pub const OUTPUT_TO: u64 = 0x4f7574707574546f;

// CallN
pub const CALL_N: u64 = 0x43616c6c4e;

// RetV
pub const RET_V: u64 = 0x52657456;

// For each remainder modulo 32 of w / 2^8 + w / 2^15, the code of the one command whose name's word w has it, or 0.
pub const GUESSES: [u64; 32] = [
    0, 0, 0, 0, 13, 0, 1, 0, 0, 11, 0, 0, 0, 0, 10, 3, 7, 0, 9, 0, 0, 4, 0, 8, 0, 0, 0, 2, 12, 5,
    14, 6,
];
