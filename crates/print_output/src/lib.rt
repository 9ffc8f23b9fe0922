// The output of any rack file, refused or not, in parts: what is left of it at first, and its next part into a lent buffer.
#![tactic(auto)]

use print_file::Cursor;

pub mod left;
pub mod part;

// What is left of a file's output: the one line of a refused file, the lines of an accepted one from an event on, or nothing.
#[derive(Clone, Copy)]
pub enum Rest {
    Refused { number: u8, offset: u32 },
    Events(Cursor),
    Nothing,
}

// The bytes that were put, and what is left after them.
#[derive(Clone, Copy)]
pub struct Put {
    pub len: usize,
    pub rest: Rest,
}
