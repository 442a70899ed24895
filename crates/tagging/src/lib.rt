// The tag engine as definitions: the rule memory in front of the fault handler is a ruler of the machine; it has no code, which is in
// tagged. Read in specs/: Consult; then Claim for what is shown of it.
#![tactic(auto)]
