// Passes over a list of offers, as definitions and theorems: no code.
#![tactic(auto)]
