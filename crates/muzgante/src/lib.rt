// The calls from C: over the bytes of a rack's records, two lent images and eight numbers; those of files over a buffer or a whole file; that
// of the arbiter over its state alone.
#![tactic(auto)]

pub mod check;
pub mod file;
pub mod run;
pub mod screen;
pub mod share;
