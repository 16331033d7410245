// That the promises of the inner functions determine what they give: theorems alone, no code.
#![tactic(auto)]
