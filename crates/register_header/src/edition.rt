// The edition of a bridge: the options that it has. `tables` has the rest of it.
ghost use Rattle.std.specs.Prelude.{◌≡◌};
ghost use Rattle.register_header.specs.definitions.Options.{options_of};

use crate::Options;
use rack::Kind;

pub fn options_of(kind: Kind) -> Options
    ensures { result ≡ options_of kind }
{
    match kind {
        Kind::Bridge => Options {
            io32: true,
            prefetchable64: true,
            vga16: true,
        },
        Kind::OlderBridge | Kind::Device => Options {
            io32: false,
            prefetchable64: false,
            vga16: false,
        },
    }
}
