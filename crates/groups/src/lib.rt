// Groups of runs that chains of meetings join, and their centres. Definitions and laws only.
#![tactic(auto)]
