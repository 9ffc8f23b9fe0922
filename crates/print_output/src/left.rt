// What is left of a file's output.
ghost use Rattle.std.specs.Prelude.{◌≡◌};
ghost use Rattle.register_image.specs.definitions.Image.{images};
ghost use Rattle.file_record.specs.definitions.Load.{file_in};
ghost use Rattle.file_record.specs.definitions.Loads.{Loads};
ghost use Rattle.print_output.specs.definitions.Rest.{standing, first_of, is_done};

use crate::Rest;
use file_record::{Loaded, Refused};
use print_file::start::start;
use register_image::RegistersMut;

// All of it, of the file that was loaded. Both images are then those that its run starts from; a refused file leaves them alone.
pub fn first_rest(
    file: &[u8],
    loaded: Result<Loaded, Refused>,
    bridges: &mut [u8],
    devices: &mut [u8],
) -> Rest
    requires { Loads loaded (file_in file.now) }
    ensures { standing result (images bridges.new devices.new) ≡ first_of file.now (images bridges.old devices.old) }
{
    match loaded {
        Ok(l) => {
            let mut registers = RegistersMut {
                table: &l.table,
                bridges,
                devices,
            };
            Rest::Events(start(file, &mut registers, l.registers, l.offset))
        }
        Err(r) => Rest::Refused {
            number: u8::from(r.refusal),
            offset: r.offset as u32,
        },
    }
}

// Whether all of it is printed.
pub fn is_done(file: &[u8], rest: Rest) -> bool
    ensures { result ≡ is_done file.now rest }
{
    match rest {
        Rest::Refused { .. } => false,
        Rest::Events(next) => file.len() <= next.offset,
        Rest::Nothing => true,
    }
}
