// The calls from C that write and open rack files; `muzgante` exports them.
#![tactic(auto)]

ghost use Rattle.std.specs.Prelude.{◌≡◌};
ghost use Rattle.rack.specs.definitions.Table.{tree_of};
ghost use Rattle.register_image.specs.definitions.Image.{images};
ghost use Rattle.call_numbers.specs.definitions.Called.{called};
ghost use Rattle.call_file.specs.definitions.Filed.{filed, rack_save, sizes, rack_open};

use call_numbers::{put_three, put_value, refuse};
use call_save::save_on;
use call_table::refusal::numbered;
use file_load::{load_alone, load_file};
use file_start::start_images;
use rack::refusal::Refusal;
use rack::table::{Table, bridges_below, count_of};
use register_image::{Registers, RegistersMut};

// The rack's file into the buffer. 0, or the refusal's number with `answer` all 0 and the buffer untouched.
pub fn save_bytes<'a>(
    rack: &[u8],
    bridges: &'a [u8],
    devices: &'a [u8],
    buffer: &mut [u8],
    answer: &mut [u64; 8],
) -> u8
    ensures { filed result answer.new buffer.new ≡ rack_save rack.now (images bridges.now devices.now) buffer.old }
{
    let loaded = load_alone(rack);
    let l = match &loaded {
        Ok(l) => l,
        Err(r) => return refuse(answer, u8::from(r.refusal)),
    };
    let registers = Registers {
        table: &l.table,
        bridges,
        devices,
    };
    let saved = save_on(&registers, &l.grants, buffer);
    put_value(answer, numbered(saved))
}

// A number, the count of bridges and that of devices.
fn put_sizes(answer: &mut [u64; 8], before: usize, table: &Table)
    ensures { answer.new ≡ sizes before (tree_of table.now) }
{
    let count = count_of(table) as usize;
    let bridges = bridges_below(table, count);
    put_three(
        answer,
        before as u64,
        bridges as u64,
        (count - bridges) as u64,
    );
}

// The registers that a run of the file starts from, into both images. 0, or the refusal's number with both images untouched.
pub fn open_file(file: &[u8], bridges: &mut [u8], devices: &mut [u8], answer: &mut [u64; 8]) -> u8
    ensures { called result answer.new bridges.new devices.new ≡ rack_open file.now (images bridges.old devices.old) }
{
    let loaded = load_file(file);
    let l = match &loaded {
        Ok(l) => l,
        Err(r) => return refuse(answer, u8::from(r.refusal)),
    };
    let lent = Registers {
        table: &l.table,
        bridges,
        devices,
    };
    if lent.lengths_wrong() {
        put_sizes(answer, 0, &l.table);
        return u8::from(Refusal::WrongLength);
    }
    put_sizes(answer, l.registers, &l.table);
    let mut registers = RegistersMut {
        table: &l.table,
        bridges,
        devices,
    };
    start_images(file, &mut registers, l.registers, l.offset);
    0
}
