// Where an access goes, up and down the tree, and what it leaves in the status registers: the cycle of the steps of `route_bus` and
// `route_bridge`.
#![tactic(auto)]

pub mod route;
