// What the updater does with the bundles of the writer, as statements and theorems (document 02, A3, with demand 3 of document 01). No code.
#![tactic(auto)]
