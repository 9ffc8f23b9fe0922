// callrun: makes the calls over a decoded rack that a script asks for (tests/CALLS.md, operations 1 to 7, 12 and 13) and writes what each gives.
#![tactic(auto)]

mod asked;
mod made;
mod script;

use std::io::Lock;

// A proved loop has to end, and nothing says that a script does: no script has so many calls.
fn main(rt: HostRuntime) {
    let mut input = rt.stdin().lock();
    let output = rt.stdout();
    for _ in 0..u64::MAX {
        if script::one_call(&mut input, &output).is_none() {
            return;
        }
    }
}
