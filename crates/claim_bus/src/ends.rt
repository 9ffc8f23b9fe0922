// Both ends of a window or of a region.
ghost use Rattle.register_image.specs.definitions.Lent.{tree_in, images_in};
ghost use Rattle.std.specs.Prelude.{◌≡◌};
ghost use Rattle.claim_agent.specs.definitions.WindowEnds.{window_in, window_ends};

use crate::decode::area_in;
use claim_window::Windows;
use rack::Range;
use rack::table::node_at;
use register_header::edition::options_of;
use register_image::Registers;

fn window_in(w: Windows, k: u8) -> Range
    ensures { result ≡ window_in w k }
{
    match k {
        0 => w.memory,
        1 => w.prefetchable,
        2 => w.io,
        _ => Range { first: 1, last: 0 },
    }
}

// The ends of window k of a bridge (0 memory, 1 prefetchable, 2 I/O), or of region k of a device.
pub fn window_ends(registers: &Registers, i: u8, k: u8) -> Range
    ensures { result ≡ window_ends (tree_in registers.now) (images_in registers.now) i k }
{
    if k < 3 {
        let n = node_at(registers.table, i as usize);
        let part = registers.view(i);
        if n.kind.is_bridge() {
            let w = claim_decode::decode::windows_of(options_of(n.kind), part);
            return window_in(w, k);
        }
        return area_in(n, part, k).range;
    }
    Range { first: 1, last: 0 }
}
