// Lists in which no vertex stands twice in a row. It has no code of its own.
#![tactic(auto)]
