// What the open calls do over the table of a rack: their refusals, and the calls that run something; `call_node` has those that name a node,
// `call_open` all of them over a decoded rack, `muzgante` from C.
#![tactic(auto)]

pub mod refusal;
pub mod runs;
