// The walk of a file from record to record, up to the first faulty one.
#![tactic(auto)]

ghost use Rattle.std.specs.Prelude.{◌≡◌, ◌+◌, ◌≤◌, length, OnOk};
ghost use Rattle.rack.specs.definitions.Table.{tree_of};
ghost use Rattle.rack.specs.definitions.First.{◌when◌};
ghost use Rattle.rack.specs.definitions.Grow.{grown};
ghost use Rattle.rack.specs.definitions.Refusal.{rack_refusal};
ghost use Rattle.rack.specs.definitions.Refused.{number_of};
ghost use Rattle.seat.specs.definitions.Grants.{seated};
ghost use Rattle.seat.specs.definitions.Table.{grants_of};
ghost use Rattle.file_record.specs.definitions.Number.{byte_in};
ghost use Rattle.file_record.specs.definitions.Record.{size_of, class_in, node_in, seat_in};
ghost use Rattle.file_record.specs.definitions.Load.{host_wrong, follows_later, shape_fault, node_fault, seat_fault, event_fault, register_fault, record_fault, taken, at_start, read_from, read_in, file_in, rack_alone};
ghost use Rattle.file_record.specs.definitions.Loads.{reading_of, Steps, Loads};

use file_record::events::{event_in, event_unknown, event_wrong};
use file_record::record::{
    class_in, cut_short, host_in, is_rack, no_kind, node_in, seat_in, size_of,
};
use file_record::{Class, Loaded, Refused, Walk};
use file_registers::{begin, register_fault};
use rack::Range;
use rack::grow::{add_node, no_table};
use rack::refusal::Refusal;
use rack::table::{Table, count_of};
use rack_refusals::node_refusal;
use register_header::register::byte_at;
use seat::grow::{add_grant, no_grants, note_wrong, seat_wrong};
use seat::table::GrantTable;

// Refusal 4: the first record is no host, or a later one is.
fn host_wrong(c: Class, o: usize) -> bool
    ensures { result ≡ host_wrong c o }
{
    let host = c == Class::Host;
    if o == 0 { !host } else { host }
}

// Refusal 5: a record of the rack itself follows a register record or an event, or a register record an event.
fn follows_later(c: Class, registers: usize, events: usize) -> bool
    ensures { result ≡ follows_later c registers events }
{
    let rack = is_rack(c);
    let holds = c == Class::Registers;
    (rack & !((registers == 0) & (events == 0))) | (holds & !(events == 0))
}

// Refusals 2 to 5, of a record's kind, length and place; `whole` says whether this is a whole file, with registers and events.
fn shape_fault(
    file: &[u8],
    whole: bool,
    c: Class,
    o: usize,
    registers: usize,
    events: usize,
) -> Result<(), Refusal>
    requires { o ≤ 65536 }
    ensures { number_of result ≡ shape_fault whole file.now c o registers events }
{
    if no_kind(whole, c) {
        return Err(Refusal::UnknownKind);
    }
    if cut_short(file, o) {
        return Err(Refusal::CutShort);
    }
    if host_wrong(c, o) {
        return Err(Refusal::HostMisplaced);
    }
    if follows_later(c, registers, events) {
        return Err(Refusal::Misordered);
    }
    Ok(())
}

// The offset after a record.
fn past(file: &[u8], o: usize) -> usize
    requires { o ≤ 65536 }
    ensures { result ≡ o + size_of (byte_in file.now o) }
{
    o + size_of(byte_at(file, o))
}

// 6 to 10 of the node at an offset; where there is none, the node then stands after the others.
fn take_node(file: &[u8], o: usize, table: &mut Table) -> Result<(), Refusal>
    requires { (o ≤ 65536) × (rack_refusal (tree_of table.old) ≡ 0) }
    ensures fault { number_of result ≡ node_fault file.now o (tree_of table.old) }
    ensures taken { OnOk result (tree_of table.new ≡ grown (tree_of table.old) (node_in file.now o)) }
{
    let count = count_of(table);
    if 96 <= count {
        return Err(Refusal::TooManyNodes);
    }
    let n = node_in(file, o);
    add_node(table, n);
    node_refusal(table, count as usize)
}

fn past_node(file: &[u8], table: &mut Table, grants: &GrantTable, w: Walk) -> Result<Walk, Refusal>
    requires { (w.offset ≤ 65536) × (class_in file.now w.offset ≡ Class.Node) × (rack_refusal (tree_of table.old) ≡ 0) }
    ensures { Steps result table.new grants.now (node_fault file.now w.offset (tree_of table.old)) (taken file.now (reading_of w table.old grants.now)) }
{
    take_node(file, w.offset, table)?;
    Ok(Walk {
        offset: past(file, w.offset),
        ..w
    })
}

// 14 of the seat record at an offset, which stops a whole file; elsewhere it is noted. Where nothing stops, the record is then in.
fn take_seat(
    file: &[u8],
    whole: bool,
    o: usize,
    table: &Table,
    grants: &mut GrantTable,
) -> Result<(), Refusal>
    requires { (o ≤ 65536) × (rack_refusal (tree_of table.now) ≡ 0) }
    ensures fault { number_of result ≡ seat_fault file.now o (tree_of table.now) (grants_of grants.old) when whole }
    ensures taken { OnOk result (grants_of grants.new ≡ seated (tree_of table.now).count (grants_of grants.old) (seat_in file.now o)) }
{
    let count = count_of(table);
    let r = seat_in(file, o);
    if seat_wrong(grants, count, r) {
        if whole {
            return Err(Refusal::BadSeatRecord);
        }
        note_wrong(grants);
        return Ok(());
    }
    add_grant(grants, count, r);
    Ok(())
}

fn past_seat(
    file: &[u8],
    whole: bool,
    table: &Table,
    grants: &mut GrantTable,
    w: Walk,
) -> Result<Walk, Refusal>
    requires { (w.offset ≤ 65536) × (class_in file.now w.offset ≡ Class.Seat) × (rack_refusal (tree_of table.now) ≡ 0) }
    ensures { Steps result table.now grants.new (seat_fault file.now w.offset (tree_of table.now) (grants_of grants.old) when whole) (taken file.now (reading_of w table.now grants.old)) }
{
    take_seat(file, whole, w.offset, table, grants)?;
    Ok(Walk {
        offset: past(file, w.offset),
        ..w
    })
}

fn past_event(file: &[u8], table: &Table, grants: &GrantTable, w: Walk) -> Result<Walk, Refusal>
    requires { (w.offset ≤ 65536) × (class_in file.now w.offset ≡ Class.Event) }
    ensures { Steps result table.now grants.now (event_fault file.now w.offset (tree_of table.now) (grants_of grants.now)) (taken file.now (reading_of w table.now grants.now)) }
{
    let e = event_in(file, w.offset);
    if event_wrong(table, e) {
        return Err(Refusal::BadField);
    }
    if event_unknown(grants, e) {
        return Err(Refusal::UnknownSeat);
    }
    Ok(Walk {
        offset: past(file, w.offset),
        events: begin(w.events, w.offset),
        ..w
    })
}

fn past_registers(file: &[u8], table: &Table, grants: &GrantTable, w: Walk) -> Result<Walk, Refusal>
    requires { (w.registers ≤ w.offset) × (w.offset ≤ 65536) × (w.offset + 66 ≤ length file.now) × (class_in file.now w.offset ≡ Class.Registers) }
    ensures { Steps result table.now grants.now (register_fault file.now w.offset (tree_of table.now) w.registers w.least) (taken file.now (reading_of w table.now grants.now)) }
{
    register_fault(file, w.offset, table, w.registers, w.least)?;
    let node = byte_at(file, w.offset + 1);
    Ok(Walk {
        offset: past(file, w.offset),
        registers: begin(w.registers, w.offset),
        least: node as usize + 1,
        ..w
    })
}

fn past_host(file: &[u8], table: &mut Table, grants: &GrantTable, w: Walk) -> Walk
    requires { (w.offset ≤ 65536) × (class_in file.now w.offset ≡ Class.Host) }
    ensures { reading_of result table.new grants.now ≡ taken file.now (reading_of w table.old grants.now) }
{
    *table = no_table(host_in(file, w.offset));
    Walk {
        offset: past(file, w.offset),
        ..w
    }
}

// The fault of the record in front of which a walk stands; where there is none, the walk after it.
fn step(
    file: &[u8],
    whole: bool,
    table: &mut Table,
    grants: &mut GrantTable,
    w: Walk,
) -> Result<Walk, Refusal>
    requires { (w.registers ≤ w.offset) × (w.offset ≤ 65536) × (rack_refusal (tree_of table.old) ≡ 0) }
    ensures { Steps result table.new grants.new (record_fault whole file.now (reading_of w table.old grants.old)) (taken file.now (reading_of w table.old grants.old)) }
{
    let class = class_in(file, w.offset);
    shape_fault(file, whole, class, w.offset, w.registers, w.events)?;
    match class {
        Class::Node => past_node(file, table, grants, w),
        Class::Event => past_event(file, table, grants, w),
        Class::Seat => past_seat(file, whole, table, grants, w),
        Class::Registers => past_registers(file, table, grants, w),
        Class::Host => Ok(past_host(file, table, grants, w)),
        Class::Unknown => unreachable!(),
    }
}

// Record by record, up to the first faulty one.
fn read(file: &[u8], whole: bool) -> Result<Loaded, Refused>
    requires { length file.now ≤ 65536 }
    ensures { Loads result (read_from (length file.now) whole file.now at_start) }
{
    let mut table = no_table(Range { first: 1, last: 0 });
    let mut grants = no_grants();
    let mut w = Walk::default();
    // A walk goes from record to record: there is no index to count.
    while w.offset < file.len() {
        match step(file, whole, &mut table, &mut grants, w) {
            Ok(next) => w = next,
            Err(refusal) => {
                return Err(Refused {
                    refusal,
                    offset: w.offset,
                });
            }
        }
    }
    let offset = begin(w.events, w.offset);
    Ok(Loaded {
        offset,
        registers: begin(w.registers, offset),
        table,
        grants,
    })
}

fn load(file: &[u8], whole: bool) -> Result<Loaded, Refused>
    ensures { Loads result (read_in whole file.now) }
{
    if 65536 < file.len() {
        return Err(Refused {
            refusal: Refusal::TooLong,
            offset: 65536,
        });
    }
    if file.is_empty() {
        return Err(Refused {
            refusal: Refusal::HostMisplaced,
            offset: 0,
        });
    }
    read(file, whole)
}

// A whole file.
pub fn load_file(file: &[u8]) -> Result<Loaded, Refused>
    ensures { Loads result (file_in file.now) }
{
    load(file, true)
}

// The rack bytes of a C call: kind 11 and event kinds are 2, and a faulty seat record does not stop the reading.
pub fn load_alone(file: &[u8]) -> Result<Loaded, Refused>
    ensures { Loads result (rack_alone file.now) }
{
    load(file, false)
}
