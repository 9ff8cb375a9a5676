// Trenches off the survey lines: paths of unit steps, and why they save no digging. Definitions (specs/) and laws (proofs/) only.
#![tactic(auto)]
