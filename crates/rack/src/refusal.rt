// Why a file, a rack or a call is refused. The numbers (`u8::from`) are those of document 01, and of document 02 after 13.
ghost use Rattle.std.specs.Prelude.{◌≡◌};
ghost use Rattle.rack.specs.definitions.Refused.{refusal_number};

#[derive(Clone, Copy, PartialEq, Eq)]
pub enum Refusal {
    // A file of more than 65,536 bytes.
    TooLong,
    // A record of no kind that there is.
    UnknownKind,
    // A record that ends before its body does.
    CutShort,
    // No host record in front, or another after it.
    HostMisplaced,
    // A rack record after an event, or a node or seat record after a register record.
    Misordered,
    // A 33rd bridge, of either kind, or a 65th device.
    TooManyNodes,
    // A parent that is neither the root bus nor an earlier bridge.
    BadParent,
    // A device number above 15.
    HighDevice,
    // A device number that an earlier node has on that bus.
    TakenDevice,
    // A region whose kind or exponent is out of range.
    BadRegion,
    // An image of the wrong length, or a buffer too short for a saved rack.
    WrongLength,
    // An image with a fixed bit changed.
    FixedBit,
    // A field of an event or a call that is out of range.
    BadField,
    // A seat record of no earlier node, of no seat 1 to 15, or of a pair that is named twice.
    BadSeatRecord,
    // A seat that acts without a record.
    UnknownSeat,
    // A register record whose node is missing or not above the one before.
    MisplacedRegisters,
    // A register record that equals reset or changes a fixed bit.
    BadRegisters,
    // Registers not at reset of a node below a bridge that resets its bus.
    HeldRegisters,
    // An arbiter's bit above 9, or its state with a place that its ring lacks.
    BadArbitration,
}

impl From<Refusal> for u8 {
    ghost from_gives = { λ refusal number. number ≡ refusal_number refusal };

    fn from(refusal: Refusal) -> u8 {
        match refusal {
            Refusal::TooLong => 1,
            Refusal::UnknownKind => 2,
            Refusal::CutShort => 3,
            Refusal::HostMisplaced => 4,
            Refusal::Misordered => 5,
            Refusal::TooManyNodes => 6,
            Refusal::BadParent => 7,
            Refusal::HighDevice => 8,
            Refusal::TakenDevice => 9,
            Refusal::BadRegion => 10,
            Refusal::WrongLength => 11,
            Refusal::FixedBit => 12,
            Refusal::BadField => 13,
            Refusal::BadSeatRecord => 14,
            Refusal::UnknownSeat => 15,
            Refusal::MisplacedRegisters => 16,
            Refusal::BadRegisters => 17,
            Refusal::HeldRegisters => 18,
            Refusal::BadArbitration => 20,
        }
    }
}
