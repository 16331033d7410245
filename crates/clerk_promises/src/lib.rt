// Theorems alone: the promises of the program for the bench determine what its functions give.
#![tactic(auto)]
