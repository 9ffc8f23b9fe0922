// The forms of records; the host's memory and a node from their records.
ghost use Rattle.std.specs.Prelude.{◌≡◌, not, ◌+◌, ◌≤◌, ◌<◌, length};
ghost use Rattle.file_record.specs.definitions.Record.{form_of, size_of, class_in, is_rack, is_known, cut_short, host_in, region_from, node_in, seat_in, registers_in};

use crate::Class;
use crate::number::{qword_in, word_in};
use rack::{Kind, Node, Range, Region};
use register_header::register::byte_at;
use seat::SeatRecord;

// The class of each kind, and the length of its body.
const CLASSES: [Class; 14] = [
    Class::Unknown,
    Class::Host,
    Class::Node,
    Class::Node,
    Class::Event,
    Class::Event,
    Class::Event,
    Class::Event,
    Class::Event,
    Class::Seat,
    Class::Event,
    Class::Registers,
    Class::Unknown,
    Class::Node,
];

const BODIES: [u8; 14] = [0, 16, 6, 12, 8, 3, 10, 6, 0, 4, 1, 65, 0, 6];

fn class_of(kind: u8) -> Class
    ensures { result ≡ (form_of kind).class }
{
    CLASSES
        .get(kind as usize)
        .copied()
        .unwrap_or(Class::Unknown)
}

pub fn class_in(file: &[u8], o: usize) -> Class
    ensures { result ≡ class_in file.now o }
{
    class_of(byte_at(file, o))
}

// A record's bytes, its kind too.
pub fn size_of(kind: u8) -> usize
    ensures { (result ≡ size_of kind) × (1 ≤ result) × (result ≤ 66) }
{
    let body = BODIES.get(kind as usize).copied().unwrap_or(0);
    body as usize + 1
}

pub fn is_rack(c: Class) -> bool
    ensures { result ≡ is_rack c }
{
    matches!(c, Class::Host | Class::Node | Class::Seat)
}

// Refusal 2: the kind is none that may be read; `whole` says whether register records and events are.
pub fn no_kind(whole: bool, c: Class) -> bool
    ensures { result ≡ not (is_known whole c) }
{
    let rack = is_rack(c);
    let registers = c == Class::Registers;
    let event = c == Class::Event;
    !(rack | (whole & (registers | event)))
}

// Refusal 3: the body is cut short.
pub fn cut_short(file: &[u8], o: usize) -> bool
    requires { o ≤ 65536 }
    ensures { result ≡ cut_short file.now o }
{
    let end = o + size_of(byte_at(file, o));
    file.len() < end
}

pub fn host_in(file: &[u8], o: usize) -> Range
    requires { o ≤ 65536 }
    ensures { result ≡ host_in file.now o }
{
    Range {
        first: qword_in(file, o + 1),
        last: qword_in(file, o + 9),
    }
}

fn region_from(file: &[u8], o: usize) -> Region
    requires { o < 131072 }
    ensures { result ≡ region_from file.now o }
{
    Region {
        kind: byte_at(file, o),
        exponent: byte_at(file, o + 1),
    }
}

pub fn node_in(file: &[u8], o: usize) -> Node
    requires { o ≤ 65536 }
    ensures { result ≡ node_in file.now o }
{
    let kind = Kind::from(byte_at(file, o));
    let none = Region {
        kind: 0,
        exponent: 0,
    };
    let regions = if kind.is_bridge() {
        [none; 3]
    } else {
        [
            region_from(file, o + 7),
            region_from(file, o + 9),
            region_from(file, o + 11),
        ]
    };
    Node {
        kind,
        parent: byte_at(file, o + 1),
        device: byte_at(file, o + 2),
        vendor_id: word_in(file, o + 3),
        device_id: word_in(file, o + 5),
        regions,
    }
}

// The 64 register bytes of a register record.
pub fn registers_in(file: &[u8], o: usize) -> &[u8]
    requires { o + 66 ≤ length file.now }
    ensures { (result.now ≡ registers_in file.now o) × (length result.now ≡ 64) }
{
    &file[o + 2..o + 66]
}

pub fn seat_in(file: &[u8], o: usize) -> SeatRecord
    requires { o ≤ 65536 }
    ensures { result ≡ seat_in file.now o }
{
    SeatRecord {
        seat: byte_at(file, o + 1),
        node: byte_at(file, o + 2),
        mask: word_in(file, o + 3),
    }
}
