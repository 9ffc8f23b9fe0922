// The writer as a call: a rack with its registers, as a file in a lent buffer. It asks nothing of its caller.
#![tactic(auto)]

ghost use Rattle.register_image.specs.definitions.Lent.{tree_in, images_in};
ghost use Rattle.std.specs.Prelude.{◌≡◌, ◌++◌, ◌≤◌, length, take, drop};
ghost use Rattle.rack.specs.definitions.Grow.{tree};
ghost use Rattle.seat.specs.definitions.Grants.{grants};
ghost use Rattle.seat.specs.definitions.Table.{grants_of};
ghost use Rattle.register_image.specs.definitions.Image.{images};
ghost use Rattle.call_table.specs.definitions.Call.{numbered};
ghost use Rattle.call_save.specs.definitions.Save.{save_in, buffer_in};

use call_table::refusal::refused_by;
use file_save::save::save;
use rack::Rack;
use rack::refusal::Refusal;
use rack::table::table_of;
use register_image::Registers;
use seat::grow::grants_of;
use seat::table::GrantTable;

// Room for the longest file: nothing is written to the lent buffer before it is known to have room.
fn longest() -> [u8; 14609]
    ensures { 14609 ≡ length result }
{
    [0; 14609]
}

// The first n bytes of a file over the start of a buffer.
fn copy_start(file: &[u8], n: usize, out: &mut [u8])
    requires { (n ≤ length file.now) × (n ≤ length out.old) }
    ensures { out.new ≡ take n file.now ++ drop n out.old }
{
    out[..n].copy_from_slice(&file[..n]);
}

// The file's length, or the refusal.
pub fn save_on(registers: &Registers, grants: &GrantTable, out: &mut [u8]) -> Result<u64, Refusal>
    ensures { (numbered result ≡ save_in (tree_in registers.now) (grants_of grants.now) (images_in registers.now) (length out.old)) × (out.new ≡ buffer_in (tree_in registers.now) (grants_of grants.now) (images_in registers.now) out.old) }
{
    refused_by(registers, grants, Ok(()), Ok(()))?;
    let mut space = longest();
    let file: &mut [u8] = &mut space;
    let n = save(registers, grants, file);
    if out.len() < n {
        return Err(Refusal::WrongLength);
    }
    copy_start(file, n, out);
    Ok(n as u64)
}

// The same over a decoded rack.
pub fn save_rack<'a>(
    rack: Rack,
    bridges: &'a [u8],
    devices: &'a [u8],
    out: &mut [u8],
) -> Result<u64, Refusal>
    ensures { (numbered result ≡ save_in (tree rack) (grants rack) (images bridges.now devices.now) (length out.old)) × (out.new ≡ buffer_in (tree rack) (grants rack) (images bridges.now devices.now) out.old) }
{
    let table = table_of(rack);
    let grants = grants_of(rack);
    let registers = Registers {
        table: &table,
        bridges,
        devices,
    };
    save_on(&registers, &grants, out)
}
