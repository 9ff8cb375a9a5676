// The most that a star's routes can share: the table's rules, the walk traced in it, and the routes of the leaves.
#![tactic(auto)]
