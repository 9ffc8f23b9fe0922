// Secondary bus reset: who is held in reset, the images that agree with it, and the register write that resets what is below.
#![tactic(auto)]

pub mod agreement;
pub mod held;
pub mod store;
