// The addresses of a device's region from its registers.
ghost use Rattle.std.specs.Prelude.{◌≡◌, ◌/◌, ◌^◌, ◌<◌};
ghost use Rattle.claim_window.specs.definitions.Range.{window};
ghost use Rattle.claim_window.specs.definitions.Area.{region_value, area_of};

use crate::decode::window_of;
use claim_window::Area;
use rack::Range;
use register_header::pci_regs::BASE_ADDRESS;
use register_header::register::{qword_of, read_register};

// The granule of 2 to the e addresses that holds an address.
fn granule_of(value: u64, e: u8) -> Range
    requires { e < 32 }
    ensures { result ≡ window e (value / 2 ^ e) (value / 2 ^ e) }
{
    let at = value >> e;
    window_of(e, at, at)
}

fn region_value(part: &[u8], kind: u8, register: u8) -> u64
    requires { register < 60 }
    ensures { result ≡ region_value part.now kind register }
{
    let low = read_register(part, register);
    if kind == 3 {
        qword_of(low, read_register(part, register + 4))
    } else {
        low as u64
    }
}

// The area of region r of a device.
pub fn area_of(part: &[u8], kind: u8, e: u8, r: u8) -> Area
    requires { r < 3 }
    ensures { result ≡ area_of part.now kind e r }
{
    let range = if (kind == 0) | (31 < e) {
        Range { first: 1, last: 0 }
    } else {
        granule_of(region_value(part, kind, BASE_ADDRESS + 8 * r), e)
    };
    Area {
        io: kind == 1,
        range,
    }
}
