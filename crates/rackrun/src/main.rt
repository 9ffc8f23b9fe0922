// rackrun: reads a rack file from standard input, checks all of it, runs it from the registers that it holds, else from reset, and prints a
// line an event.
#![tactic(auto)]

ghost use Rattle.register_image.specs.definitions.LentMut.{tree_at, images_at, Same};
ghost use Rattle.std.specs.Prelude.{◌≡◌, false, ◌+◌, ◌*◌, ◌≤◌, length, take, replicate, IfOk};
ghost use Rattle.rack.specs.definitions.Table.{tree_of};
ghost use Rattle.rack.specs.definitions.Tree.{bridge_count, device_count};
ghost use Rattle.rack.specs.definitions.Refusal.{rack_refusal};
ghost use Rattle.seat.specs.definitions.Table.{grants_of};
ghost use Rattle.register_image.specs.definitions.Image.{images};
ghost use Rattle.file_record.specs.definitions.Load.{file_in};
ghost use Rattle.file_record.specs.definitions.Loads.{Loads};
ghost use Rattle.print_file.specs.definitions.Output.{blank, output_of};
ghost use Rattle.print_output.specs.definitions.Rest.{is_done, end_from};
ghost use Rattle.print_output.specs.definitions.Piece.{piece_of};
ghost use Rattle.rackrun.specs.definitions.Input.{Within};
ghost use Rattle.rackrun.specs.definitions.Run.{run_end, Prints, PrintsPiece};
ghost use Rattle.rackrun.specs.definitions.Written.{IsNext, Stands, Writes, WritesPart, WritesAll};

use file_load::load_file;
use file_record::{Loaded, Refused};
use print_output::Rest;
use print_output::left::{first_rest, is_done};
use print_output::part::put_part;
use rack::Range;
use rack::grow::no_table;
use rack::table::{Table, bridges_below, count_of};
use register_image::RegistersMut;
use seat::grow::no_grants;
use seat::table::GrantTable;
use std::io;
use std::io::{Lock, Print, Read, StdinLock, Stdout};

// How many bytes of a file's output are written, and what is left of it.
#[derive(Clone, Copy)]
struct Progress {
    done: usize,
    rest: Rest,
}

// Writes the next n bytes of a file's output, of which `done` are written; `rest` is left then. It takes the file so that its contract can
// say that it is given no other bytes. That it writes them no contract can say.
fn write_next(
    output: &Stdout,
    file: &[u8],
    done: usize,
    bytes: &[u8],
    n: usize,
    rest: Rest,
) -> io::Result<Progress>
    requires { (n ≤ length bytes.now) × IsNext (output_of file.now) done (take n bytes.now) × (done + n ≤ 4294967296) }
    ensures { Writes result (done + n) rest }
{
    output.write_all(&bytes[..n])?;
    Ok(Progress {
        done: done + n,
        rest,
    })
}

// Room for a part of the output.
fn part_room() -> [u8; 65536]
    ensures { 65536 ≡ length result }
{
    [0; 65536]
}

// The next part of the output.
fn print_part(
    output: &Stdout,
    file: &[u8],
    registers: &mut RegistersMut,
    grants: &GrantTable,
    p: Progress,
) -> io::Result<Progress>
    requires { Stands file.now (tree_at registers.old) (grants_of grants.now) p (images_at registers.old) × (is_done file.now p.rest ≡ false) }
    ensures prints_piece { PrintsPiece result (images_at registers.new) p.done (piece_of (tree_at registers.old) (grants_of grants.now) file.now 65536 p.rest (images_at registers.old)) }
    ensures writes_part { WritesPart file.now (tree_at registers.old) (grants_of grants.now) p (images_at registers.old) result (images_at registers.new) }
    ensures same { Same registers.old registers.new }
{
    let mut space = part_room();
    let out: &mut [u8] = &mut space;
    let put = put_part(file, registers, grants, p.rest, out);
    write_next(output, file, p.done, out, put.len, put.rest)
}

// All of what is left, part by part.
fn print_rest(
    output: &Stdout,
    file: &[u8],
    registers: &mut RegistersMut,
    grants: &GrantTable,
    first: Rest,
) -> io::Result<Progress>
    requires { Stands file.now (tree_at registers.old) (grants_of grants.now) (record { done = 0; rest = first }) (images_at registers.old) }
    ensures leaves { Prints result (images_at registers.new) (length (output_of file.now)) (end_from (tree_at registers.old) (grants_of grants.now) file.now first (images_at registers.old)) }
    ensures same { Same registers.old registers.new }
{
    let mut p = Progress {
        done: 0,
        rest: first,
    };
    while !is_done(file, p.rest) {
        p = print_part(output, file, registers, grants, p)?;
    }
    Ok(p)
}

// The whole output of a file that was loaded, refused or not; both images are as long as its rack's registers, and zero.
fn print_loaded(
    output: &Stdout,
    file: &[u8],
    loaded: Result<Loaded, Refused>,
    bridges: &mut [u8],
    devices: &mut [u8],
) -> io::Result<Progress>
    requires { Loads loaded (file_in file.now) × IfOk loaded (λ l. images bridges.old devices.old ≡ blank (tree_of l.table)) }
    ensures { Prints result (images bridges.new devices.new) (length (output_of file.now)) (run_end file.now (images bridges.old devices.old)) }
{
    let first = first_rest(file, loaded, bridges, devices);
    match loaded {
        Ok(l) => {
            let mut registers = RegistersMut {
                table: &l.table,
                bridges,
                devices,
            };
            print_rest(output, file, &mut registers, &l.grants, first)
        }
        Err(_) => {
            // A refused file has no rack, and nothing of it is run.
            let table = no_table(Range { first: 1, last: 0 });
            let mut registers = RegistersMut {
                table: &table,
                bridges,
                devices,
            };
            print_rest(output, file, &mut registers, &no_grants(), first)
        }
    }
}

// How many bytes the registers of a rack's bridges take, and those of its devices.
#[derive(Clone, Copy)]
struct Room {
    bridges: usize,
    devices: usize,
}

fn room_in(table: &Table) -> Room
    requires { rack_refusal (tree_of table.now) ≡ 0 }
    ensures { (result.bridges ≤ 2048) × (result.devices ≤ 4096) × (result.bridges ≡ 64 * bridge_count (tree_of table.now)) × (result.devices ≡ 64 * device_count (tree_of table.now)) }
{
    let count = count_of(table) as usize;
    let b = bridges_below(table, count);
    let d = count - b;
    Room {
        bridges: 64 * b,
        devices: 64 * d,
    }
}

// Of the rack that was loaded; a refused file has none.
fn room_of(loaded: Result<Loaded, Refused>) -> Room
    requires { IfOk loaded (λ l. rack_refusal (tree_of l.table) ≡ 0) }
    ensures fits { (result.bridges ≤ 2048) × (result.devices ≤ 4096) }
    ensures exact { IfOk loaded (λ l. (result.bridges ≡ 64 * bridge_count (tree_of l.table)) × (result.devices ≡ 64 * device_count (tree_of l.table))) }
{
    match loaded {
        Ok(l) => room_in(&l.table),
        Err(_) => Room {
            bridges: 0,
            devices: 0,
        },
    }
}

// Room for the registers of 32 bridges, and of 64 devices.
fn bridges_image() -> [u8; 2048]
    ensures { result ≡ replicate 2048 0 }
{
    [0; 2048]
}

fn devices_image() -> [u8; 4096]
    ensures { result ≡ replicate 4096 0 }
{
    [0; 4096]
}

// Checks a file and prints its output.
fn run(output: &Stdout, file: &[u8]) -> io::Result<Progress>
    ensures { WritesAll result (output_of file.now) }
{
    let loaded = load_file(file);
    let room = room_of(loaded);
    let b = room.bridges;
    let d = room.devices;
    let mut bridges = bridges_image();
    let mut devices = devices_image();
    print_loaded(output, file, loaded, &mut bridges[..b], &mut devices[..d])
}

// One byte more than the longest file, so that an overlong one is seen.
fn input_room() -> [u8; 65537]
    ensures { 65537 ≡ length result }
{
    [0; 65537]
}

// Reads until the buffer is full or the input ends; a read may give less than there is room for.
fn read_input(input: &mut StdinLock, buffer: &mut [u8]) -> io::Result<usize>
    ensures { Within result buffer.new }
{
    let mut done: usize = 0;
    while done < buffer.len() {
        let more = input.read(&mut buffer[done..])?;
        if more == 0 {
            break;
        }
        done += more;
    }
    Ok(done)
}

// Words for standard error; nobody is left to be told where they cannot be written.
fn say(rt: &HostRuntime, words: &[u8]) {
    let _ = rt.stderr().write_all(words);
}

fn main(rt: HostRuntime) {
    let mut input = rt.stdin().lock();
    let mut buffer = input_room();
    let Ok(n) = read_input(&mut input, &mut buffer) else {
        say(&rt, b"rackrun: the input could not be read\n");
        return;
    };
    if run(&rt.stdout(), &buffer[..n]).is_err() {
        say(&rt, b"rackrun: the output could not be written\n");
    }
}
