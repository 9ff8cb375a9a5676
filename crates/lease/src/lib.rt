// Several stars on one lease: why what is best for each group is best for all. Definitions and laws only.
#![tactic(auto)]
