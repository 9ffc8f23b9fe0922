// Refusals 16 to 18 of a register record in a file. `file_load` asks for them as it walks.
#![tactic(auto)]

ghost use Rattle.std.specs.Prelude.{◌≡◌, ◌+◌, ◌≤◌, length};
ghost use Rattle.rack.specs.definitions.Table.{tree_of};
ghost use Rattle.rack.specs.definitions.First.{◌or◌};
ghost use Rattle.rack.specs.definitions.Refused.{number_of};
ghost use Rattle.file_record.specs.definitions.Number.{byte_in};
ghost use Rattle.file_record.specs.definitions.Record.{registers_in};
ghost use Rattle.file_record.specs.definitions.Load.{misplaced, unsound, resets_at, record_resets, record_held, register_fault};

use bus_reset::held::any_above;
use file_record::record::registers_in;
use rack::refusal::Refusal;
use rack::table::{Table, count_of, node_at, parent_at};
use register_header::pci_regs::{BRIDGE_CONTROL, BRIDGE_CTL_BUS_RESET};
use register_header::register::{bit_at, byte_at};
use register_image::fixed::part_wrong;
use register_image::reset::is_changed;

// Where records of a class begin, once there is one at o.
pub fn begin(first: usize, o: usize) -> usize
    ensures { result ≡ first or o }
{
    if first == 0 { o } else { first }
}

// 16 of a register record: its node is missing, or not above the one before.
fn misplaced(file: &[u8], o: usize, table: &Table, least: usize) -> bool
    requires { o ≤ 65536 }
    ensures { result ≡ misplaced file.now o (tree_of table.now) least }
{
    let node = byte_at(file, o + 1);
    let count = count_of(table);
    (count <= node) | ((node as usize) < least)
}

// 17 of a register record: its bytes are those at reset, or change a fixed bit.
fn unsound(file: &[u8], o: usize, table: &Table) -> bool
    requires { (o ≤ 65536) × (o + 66 ≤ length file.now) }
    ensures { result ≡ unsound ((tree_of table.now).node (byte_in file.now (o + 1))) (registers_in file.now o) }
{
    let n = node_at(table, byte_at(file, o + 1) as usize);
    let part = registers_in(file, o);
    let changed = is_changed(n, part);
    let wrong = part_wrong(n, part);
    !changed | wrong
}

// Whether the register record at an offset is bridge g's, and has bit 6 of bridge control set.
fn resets_at(file: &[u8], o: usize, g: u8) -> bool
    requires { (o ≤ 65536) × (o + 66 ≤ length file.now) }
    ensures { result ≡ resets_at file.now o g }
{
    let node = byte_at(file, o + 1);
    let control = byte_at(registers_in(file, o), BRIDGE_CONTROL);
    let set = bit_at(control, BRIDGE_CTL_BUS_RESET);
    (node == g) & set
}

// Whether one of those from an offset up to `end` is.
fn record_resets(file: &[u8], end: usize, start: usize, g: u8) -> bool
    requires { (start ≤ end) × (end ≤ 65536) × (end ≤ length file.now) }
    ensures { result ≡ record_resets (length file.now) file.now end start g }
{
    (0..(end - start) / 66).any(|i| resets_at(file, start + 66 * i, g))
}

// 18 of a register record: a bridge above its node has bit 6 set in one of those before it, which stand from `start` on.
fn record_held(file: &[u8], o: usize, table: &Table, start: usize) -> bool
    requires { (start ≤ o) × (o ≤ 65536) × (o ≤ length file.now) }
    ensures { result ≡ record_held file.now o (tree_of table.now) start }
{
    let bus = parent_at(table, byte_at(file, o + 1));
    any_above(table, bus, |bridge| record_resets(file, o, start, bridge))
}

// 16 to 18 of the register record at an offset; those before it begin at `registers`, which is 0 where there is none.
pub fn register_fault(
    file: &[u8],
    o: usize,
    table: &Table,
    registers: usize,
    least: usize,
) -> Result<(), Refusal>
    requires { (registers ≤ o) × (o ≤ 65536) × (o + 66 ≤ length file.now) }
    ensures { number_of result ≡ register_fault file.now o (tree_of table.now) registers least }
{
    if misplaced(file, o, table, least) {
        return Err(Refusal::MisplacedRegisters);
    }
    let wrong = unsound(file, o, table);
    let held = record_held(file, o, table, begin(registers, o));
    if wrong {
        return Err(Refusal::BadRegisters);
    }
    if held {
        return Err(Refusal::HeldRegisters);
    }
    Ok(())
}
