// The definitions and laws of structure: the sort, components, the closure.
#![tactic(auto)]
