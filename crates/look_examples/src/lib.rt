// The sheets of looks, computed: theorems alone.
#![tactic(auto)]
