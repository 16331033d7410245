// What it is for a promise to determine a result; and that those of what is read and found in a table do: no code.
#![tactic(auto)]
