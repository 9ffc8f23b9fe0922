// The output of a rack file, in parts: whole lines into a lent buffer.
#![tactic(auto)]

pub mod fill;
mod line;
pub mod refused;
pub mod start;

// The next event of a file: its offset, its number, which counts from 1, and the seat that acts.
#[derive(Clone, Copy)]
pub struct Cursor {
    pub offset: usize,
    pub number: u32,
    pub seat: u8,
}

// The bytes that were written, and the cursor after them.
#[derive(Clone, Copy)]
pub struct Filled {
    pub len: usize,
    pub next: Cursor,
}
