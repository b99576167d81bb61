// The calls from C together, as statements and theorems: what one builds another reads, and what they leave in literal bytes. No code.
#![tactic(auto)]
