// The two register images of a rack: the part of a node in them, their lengths and fixed bits, reset, sizing.
#![tactic(auto)]

pub mod fixed;
pub mod image;
pub mod reset;
pub mod set;
pub mod sizing;

ghost use Rattle.std.specs.Prelude.{◌≡◌};

use rack::table::Table;

// The registers of a rack, lent to be read: its table and both images. The table has a lifetime of its own, since a part that is handed back
// outlives a table that was made for the call.
#[derive(Clone, Copy)]
pub struct Registers<'t, 'a> {
    pub table: &'t Table,
    pub bridges: &'a [u8],
    pub devices: &'a [u8],
}

// Lent to be changed.
#[derive(Drop)]
pub struct RegistersMut<'a> {
    pub table: &'a Table,
    pub bridges: &'a mut [u8],
    pub devices: &'a mut [u8],
}

impl RegistersMut<'_> {
    // The same registers, to be read.
    pub fn lent(&self) -> Registers<'_, '_>
        ensures table { result.table.now ≡ self.now.table.now }
        ensures bridges { result.bridges.now ≡ self.now.bridges.now }
        ensures devices { result.devices.now ≡ self.now.devices.now }
    {
        Registers {
            table: self.table,
            bridges: self.bridges,
            devices: self.devices,
        }
    }
}
