// What is shown of the engines as they are called, and of the pages; it has no code. Read in specs/: Refusals (demand 1), Both (demand 2,
// between the engines), Privacy (demand 3), Pages (demand 3 for pages), Reading (document 01's starred readings).
#![tactic(auto)]
