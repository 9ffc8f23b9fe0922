// What a call of the script asks for.
ghost use Rattle.std.specs.Prelude.{◌<◌};

use file_record::number::{dword_in, qword_in, word_in};
use file_record::record::node_in;
use rack::{Grant, Node, Rack};
use register_header::register::byte_at;

// The head of a call.
#[derive(Clone, Copy)]
pub struct Asked {
    pub operation: u8,
    pub rack: u32,
    pub event: u16,
    pub bridges: u16,
    pub devices: u16,
    pub node: u8,
    pub index: u8,
    pub enables: u8,
    pub put: u32,
}

pub fn asked_in(head: &[u8]) -> Asked {
    Asked {
        operation: byte_at(head, 0),
        rack: dword_in(head, 1),
        event: word_in(head, 5),
        bridges: word_in(head, 7),
        devices: word_in(head, 9),
        node: byte_at(head, 11),
        index: byte_at(head, 12),
        enables: byte_at(head, 13),
        put: dword_in(head, 14),
    }
}

// Its 96 nodes, each laid out as a device's record.
fn nodes_in(bytes: &[u8]) -> [Node; 96] {
    let mut nodes = [node_in(bytes, 17); 96];
    for i in 0..96 {
        nodes[i] = node_in(bytes, 17 + 13 * i);
    }
    nodes
}

fn grant_in(bytes: &[u8], o: usize) -> Grant
    requires { o < 65536 }
{
    Grant {
        named: byte_at(bytes, o) == 1,
        mask: word_in(bytes, o + 1),
    }
}

// The grants of seats 1 to 15, 96 for each, after the nodes.
fn grants_in(bytes: &[u8]) -> [Grant; 1440] {
    let mut grants = [grant_in(bytes, 1265); 1440];
    for k in 0..1440 {
        grants[k] = grant_in(bytes, 1265 + 3 * k);
    }
    grants
}

// A decoded rack.
pub fn rack_in(bytes: &[u8]) -> Rack {
    Rack {
        first: qword_in(bytes, 0),
        last: qword_in(bytes, 8),
        count: byte_at(bytes, 16),
        nodes: nodes_in(bytes),
        grants: grants_in(bytes),
    }
}
