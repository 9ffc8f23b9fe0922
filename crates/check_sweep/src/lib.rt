// The check of a rack: bus by bus, the agents decoded once, the addresses swept stretch by stretch.
#![tactic(auto)]

pub mod agents;
pub mod buses;
pub mod sweep;
