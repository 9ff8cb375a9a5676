// What a least plan is: grid, routes, union, intersection graph. Definitions (specs/) and laws (proofs/) only.
#![tactic(auto)]
