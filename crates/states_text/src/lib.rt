// The definitions and laws of the states as a text.
#![tactic(auto)]
