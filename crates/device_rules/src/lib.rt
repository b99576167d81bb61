// The device's calls over any rules on versions, and where two sets of rules answer the same, as definitions and theorems: no code.
#![tactic(auto)]
