// A rack: the host's memory and a tree of bridges and devices, as document 01's rack records give it.
#![tactic(auto)]

ghost use Rattle.std.specs.Prelude.{◌≡◌};
ghost use Rattle.rack.specs.definitions.Node.{kind_number, kind_from, is_bridge};

pub mod grow;
pub mod refusal;
pub mod table;

// What a node is; one number each, as the rack file has it (`u8::from`). An older bridge is one of specification revision 1.1.
#[derive(Clone, Copy, PartialEq, Eq)]
pub enum Kind {
    Device,
    Bridge,
    OlderBridge,
}

impl Kind {
    pub fn is_bridge(self) -> bool
        ensures { result ≡ is_bridge self }
    {
        match self {
            Kind::Device => false,
            Kind::Bridge | Kind::OlderBridge => true,
        }
    }
}

impl From<Kind> for u8 {
    ghost from_gives = { λ kind number. number ≡ kind_number kind };

    fn from(kind: Kind) -> u8 {
        match kind {
            Kind::Device => 3,
            Kind::Bridge => 2,
            Kind::OlderBridge => 13,
        }
    }
}

// The kind that has a number.
impl From<u8> for Kind {
    ghost from_gives = { λ number kind. kind ≡ kind_from number };

    fn from(number: u8) -> Kind {
        match number {
            2 => Kind::Bridge,
            13 => Kind::OlderBridge,
            _ => Kind::Device,
        }
    }
}

// A base address region: kind 0 none, 1 I/O, 2 32-bit memory, 3 64-bit memory; it has 2 to the exponent bytes.
// The kind is a byte and no enum: a rack may hand in any, and refusal 10 judges it.
#[derive(Clone, Copy)]
pub struct Region {
    pub kind: u8,
    pub exponent: u8,
}

// A bridge, of either kind, or a device. The regions of a bridge are ignored.
#[derive(Clone, Copy)]
pub struct Node {
    pub kind: Kind,
    pub parent: u8,
    pub device: u8,
    pub vendor_id: u16,
    pub device_id: u16,
    pub regions: [Region; 3],
}

// Addresses from first to last, both in; none where first is above last.
#[derive(Clone, Copy)]
pub struct Range {
    pub first: u64,
    pub last: u64,
}

// What a seat may write of a node: whether a seat record names the two together, and its mask, bit i for dword i.
// No `Option` of a mask: a decoded rack may say a mask of a pair that no record names, which the definitions over `Rack` leave unread.
#[derive(Clone, Copy)]
pub struct Grant {
    pub named: bool,
    pub mask: u16,
}

// A decoded rack: first and last address of host memory, `count` nodes in file order, and the grants of seats 1 to 15, 96 for each.
// It may hold anything; crates `rack_refusals` and `seat` say whether it is a rack.
#[derive(Clone, Copy)]
pub struct Rack {
    pub first: u64,
    pub last: u64,
    pub count: u8,
    pub nodes: [Node; 96],
    pub grants: [Grant; 1440],
}
