// A script: one call after another is read, made and answered.
ghost use Rattle.std.specs.Prelude.{◌≡◌, length};

use crate::asked::{Asked, asked_in, rack_in};
use crate::made::make;
use call_numbers::put_value;
use call_open::view;
use call_save::save_rack;
use call_table::refusal::numbered;
use rack::Rack;
use std::io::{Print, Read, StdinLock, Stdout};

// Room for any image of a script.
fn image() -> [u8; 4160]
    ensures { 4160 ≡ length result }
{
    [0; 4160]
}

// A decoded rack: always 5,585 bytes.
fn rack_bytes() -> [u8; 5585]
    ensures { 5585 ≡ length result }
{
    [0; 5585]
}

// The next n bytes of the script; none where it ends before, or there is no room for them.
fn fill_from(input: &mut StdinLock, buf: &mut [u8], n: usize) -> Option<()> {
    if buf.len() < n {
        return None;
    }
    input.read_exact(&mut buf[..n]).ok()
}

// The code, the eight numbers, and the length of the part that is shown. All are tried: what cannot be written keeps back nothing after it.
fn write_numbers(output: &Stdout, code: u8, answer: [u64; 8], shown: u16) -> Option<()> {
    let mut told = output.write_all(&[code]).ok();
    for number in answer {
        let next = output.write_all(&number.to_le_bytes()).ok();
        told = told.and(next);
    }
    let last = output.write_all(&shown.to_le_bytes()).ok();
    told.and(last)
}

// The part that is shown, or none, and both images; all are tried here too.
fn write_rest(output: &Stdout, part: &[u8], bridges: &[u8], devices: &[u8]) -> Option<()> {
    let first = output.write_all(part).ok();
    let second = output.write_all(bridges).ok();
    let third = output.write_all(devices).ok();
    first.and(second).and(third)
}

fn answer_view<'a>(
    output: &Stdout,
    a: Asked,
    rack: Rack,
    bridges: &'a [u8],
    devices: &'a [u8],
) -> Option<()> {
    let part = view(rack, bridges, devices, a.node);
    let shown = if part.len() == 64 { 64 } else { 0 };
    write_numbers(output, 0, [0; 8], shown)?;
    write_rest(output, part, bridges, devices)
}

// Room for any buffer of a script.
fn buffer() -> [u8; 16384]
    ensures { 16384 ≡ length result }
{
    [0; 16384]
}

// The enables are what fills the buffer before.
fn answer_into<'a>(
    output: &Stdout,
    a: Asked,
    rack: Rack,
    out: &mut [u8],
    bridges: &'a [u8],
    devices: &'a [u8],
) -> Option<()> {
    out.fill(a.enables);
    let mut answer = [0u64; 8];
    let code = put_value(
        &mut answer,
        numbered(save_rack(rack, bridges, devices, out)),
    );
    write_numbers(output, code, answer, (a.put % 65536) as u16)?;
    write_rest(output, out, bridges, devices)
}

// Operation 13: the data is the buffer's length.
fn answer_save<'a>(
    output: &Stdout,
    a: Asked,
    rack: Rack,
    bridges: &'a [u8],
    devices: &'a [u8],
) -> Option<()> {
    let mut space = buffer();
    let all: &mut [u8] = &mut space;
    let n = a.put as usize;
    if all.len() < n {
        return None;
    }
    answer_into(output, a, rack, &mut all[..n], bridges, devices)
}

fn answer_call(
    output: &Stdout,
    a: Asked,
    rack: Rack,
    event: &[u8],
    bridges: &mut [u8],
    devices: &mut [u8],
) -> Option<()> {
    match a.operation {
        3 => answer_view(output, a, rack, bridges, devices),
        13 => answer_save(output, a, rack, bridges, devices),
        _ => {
            let mut answer = [0u64; 8];
            let code = make(a, rack, event, bridges, devices, &mut answer);
            write_numbers(output, code, answer, 0)?;
            write_rest(output, &event[..0], bridges, devices)
        }
    }
}

// The call with images as long as the script gives them.
fn answer_parts(
    output: &Stdout,
    a: Asked,
    rack: Rack,
    event: &[u8],
    bridges: &mut [u8],
    devices: &mut [u8],
) -> Option<()> {
    let b = a.bridges as usize;
    let d = a.devices as usize;
    if bridges.len() < b {
        return None;
    }
    if devices.len() < d {
        return None;
    }
    answer_call(output, a, rack, event, &mut bridges[..b], &mut devices[..d])
}

// One call; none where the script has ended or asks for more than it may, or the output could not be written.
pub fn one_call(input: &mut StdinLock, output: &Stdout) -> Option<()> {
    let mut head = [0u8; 18];
    fill_from(input, &mut head, 18)?;
    let a = asked_in(&head);
    let mut rack = rack_bytes();
    fill_from(input, &mut rack, a.rack as usize)?;
    let mut event = [0u8; 16];
    fill_from(input, &mut event, a.event as usize)?;
    let mut bridges = image();
    fill_from(input, &mut bridges, a.bridges as usize)?;
    let mut devices = image();
    fill_from(input, &mut devices, a.devices as usize)?;
    answer_parts(
        output,
        a,
        rack_in(&rack),
        &event,
        &mut bridges,
        &mut devices,
    )
}
