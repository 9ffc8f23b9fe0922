// An event from its record, who acts after it, and refusals 13 and 15.
ghost use Rattle.std.specs.Prelude.{◌≡◌, ◌≤◌};
ghost use Rattle.rack.specs.definitions.Table.{tree_of};
ghost use Rattle.rack.specs.definitions.Refused.{number_of};
ghost use Rattle.seat.specs.definitions.Table.{grants_of};
ghost use Rattle.file_record.specs.definitions.Record.{size_of, class_in};
ghost use Rattle.file_record.specs.definitions.Events.{event_in, initiates, register_wrong, write_wrong, access_wrong, event_wrong, seat_after, event_unknown, event_bytes};

use crate::number::{dword_in, qword_in};
use crate::record::{class_in, size_of};
use crate::{Class, Event};
use rack::refusal::Refusal;
use rack::table::{Table, count_of, is_bridge_at};
use register_header::register::byte_at;
use seat::table::{GrantTable, unknown_seat};

// The event whose record stands at an offset.
pub fn event_in(file: &[u8], o: usize) -> Event
    requires { o ≤ 65536 }
    ensures { result ≡ event_in file.now o }
{
    let kind = byte_at(file, o);
    let a = byte_at(file, o + 1);
    let b = byte_at(file, o + 2);
    let c = byte_at(file, o + 3);
    match kind {
        4 => Event::Write {
            bus: a,
            devfn: b,
            register: c,
            enables: byte_at(file, o + 4),
            put: dword_in(file, o + 5),
        },
        5 => Event::Read {
            bus: a,
            devfn: b,
            register: c,
        },
        6 => Event::Memory {
            initiator: a,
            direction: b,
            address: qword_in(file, o + 3),
        },
        7 => Event::Io {
            initiator: a,
            direction: b,
            address: dword_in(file, o + 3),
        },
        10 => Event::Seat { seat: a },
        _ => Event::Check,
    }
}

// Whether a number names the host or a device.
fn initiates_at(table: &Table, i: u8) -> bool
    ensures { result ≡ initiates (tree_of table.now) i }
{
    let count = count_of(table);
    let bridge = is_bridge_at(table, i);
    (i == 255) | ((i < count) & !bridge)
}

fn access_wrong(table: &Table, initiator: u8, direction: u8) -> bool
    ensures { result ≡ access_wrong (tree_of table.now) initiator direction }
{
    let is = initiates_at(table, initiator);
    (1 < direction) | !is
}

fn register_wrong(register: u8) -> bool
    ensures { result ≡ register_wrong register }
{
    !(register % 4 == 0)
}

fn write_wrong(register: u8, enables: u8) -> bool
    ensures { result ≡ write_wrong register enables }
{
    register_wrong(register) | (15 < enables)
}

// Refusal 13, of an event.
pub fn event_wrong(table: &Table, e: Event) -> bool
    ensures { result ≡ event_wrong (tree_of table.now) e }
{
    match e {
        Event::Write {
            register,
            enables,
            ..
        } => write_wrong(register, enables),
        Event::Read { register, .. } => register_wrong(register),
        Event::Memory {
            initiator,
            direction,
            ..
        }
        | Event::Io {
            initiator,
            direction,
            ..
        } => access_wrong(table, initiator, direction),
        Event::Check | Event::Seat { .. } => false,
    }
}

// Who acts after an event.
pub fn seat_after(seat: u8, e: Event) -> u8
    ensures { result ≡ seat_after seat e }
{
    match e {
        Event::Seat { seat: next } => next,
        _ => seat,
    }
}

// Refusal 15, of an event.
pub fn event_unknown(grants: &GrantTable, e: Event) -> bool
    ensures { result ≡ event_unknown (grants_of grants.now) e }
{
    unknown_seat(grants, seat_after(0, e))
}

// Refusal 2 or 3, of the bytes of one event.
pub fn event_bytes(bytes: &[u8]) -> Result<(), Refusal>
    ensures { number_of result ≡ event_bytes bytes.now }
{
    if class_in(bytes, 0) != Class::Event {
        return Err(Refusal::UnknownKind);
    }
    if bytes.len() != size_of(byte_at(bytes, 0)) {
        return Err(Refusal::CutShort);
    }
    Ok(())
}
