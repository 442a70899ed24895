// The tag engine's fault handler, as definitions and theorems; of code it has only the codes of its instructions. Read in specs/: Kernel,
// Translate, Row; then Claim; Space for the words that hold a handler, Reading for the kernel steps that the standard table takes.
#![tactic(auto)]

pub mod code;
