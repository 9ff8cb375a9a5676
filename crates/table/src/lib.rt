// What a centre can share with the leaves of its group: owners of edges, the table of best sharing, and the walk traced in it.
#![tactic(auto)]

pub mod fill;
pub mod frame;
pub mod side;
pub mod trace;
