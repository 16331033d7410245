// What holds of every entry point's promise: theorems alone, no code.
#![tactic(auto)]
