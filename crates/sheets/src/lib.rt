// The sheets to check by: cases and one theorem, no code.
#![tactic(auto)]
