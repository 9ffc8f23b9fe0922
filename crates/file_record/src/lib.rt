// Rack files: records from bytes, and events one at a time. `file_load` walks a file up to its first faulty record.
#![tactic(auto)]

use rack::refusal::Refusal;
use rack::table::Table;
use seat::table::GrantTable;

pub mod events;
pub mod number;
pub mod record;

// An event as its record gives it: fields are bytes as in the file, so that what refusal 13 refuses can be said.
#[derive(Clone, Copy)]
pub enum Event {
    Write {
        bus: u8,
        devfn: u8,
        register: u8,
        enables: u8,
        put: u32,
    },
    Read {
        bus: u8,
        devfn: u8,
        register: u8,
    },
    Memory {
        initiator: u8,
        direction: u8,
        address: u64,
    },
    Io {
        initiator: u8,
        direction: u8,
        address: u32,
    },
    Check,
    Seat {
        seat: u8,
    },
}

// What the records of a kind are. Unknown comes first: the library reads an element past an array's end as the first variant.
#[derive(Clone, Copy, PartialEq, Eq)]
pub enum Class {
    Unknown,
    Host,
    Node,
    Seat,
    Registers,
    Event,
}

// What is known in front of a record, beside the tables of the rack and of its grants: the record's offset, where the register records
// and where the events begin (0 before the first, as the definitions and the answer of `rack_open` have it, so no `Option`), and the least
// node that a register record may name.
#[derive(Clone, Copy, Default)]
pub struct Walk {
    pub offset: usize,
    pub registers: usize,
    pub events: usize,
    pub least: usize,
}

// What was read: the offset at which the events begin, that at which the register records begin, or else the events, the table of the rack
// and that of its grants.
#[derive(Clone, Copy)]
pub struct Loaded {
    pub offset: usize,
    pub registers: usize,
    pub table: Table,
    pub grants: GrantTable,
}

// Why a file is refused, and the offset of the record that it is refused for.
#[derive(Clone, Copy)]
pub struct Refused {
    pub refusal: Refusal,
    pub offset: usize,
}
