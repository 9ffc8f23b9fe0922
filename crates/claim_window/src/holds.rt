// Whether a device's region holds an address.
ghost use Rattle.std.specs.Prelude.{◌≡◌};
ghost use Rattle.claim_window.specs.definitions.Area.{holds};

use crate::Area;
use crate::cut::within_range;

impl Area {
    pub fn holds_address(self, io: bool, a: u64) -> bool
        ensures { result ≡ holds self io a }
    {
        (io == self.io) & within_range(self.range, a)
    }
}
