// An agent of a bus from its registers.
ghost use Rattle.register_image.specs.definitions.Lent.{tree_in, images_in};
ghost use Rattle.std.specs.Prelude.{◌≡◌, ◌<◌};
ghost use Rattle.register_header.specs.definitions.Options.{options_of};
ghost use Rattle.claim_window.specs.definitions.Range.{range};
ghost use Rattle.claim_agent.specs.definitions.Claim.{claims_of};
ghost use Rattle.claim_agent.specs.definitions.Agent.{bridge_of, area_in, device_of, agent_of};

use claim_agent::answer::host_claims;
use claim_agent::{Agent, BridgeClaims, DeviceClaims, Space};
use claim_window::Area;
use rack::table::{host_memory, node_at};
use rack::{Kind, Node, Range};
use register_header::edition::options_of;
use register_header::pci_regs::{
    COMMAND, COMMAND_IO, COMMAND_MASTER, COMMAND_MEMORY, SECONDARY_BUS, SUBORDINATE_BUS,
};
use register_header::register::{bit_at, byte_at};
use register_image::Registers;

fn bus_range(secondary: u8, subordinate: u8) -> Range
    ensures { result ≡ range secondary subordinate }
{
    Range {
        first: secondary as u64,
        last: subordinate as u64,
    }
}

fn bridge_of(kind: Kind, part: &[u8]) -> BridgeClaims
    ensures { result ≡ bridge_of (options_of kind) part.now }
{
    let command = byte_at(part, COMMAND);
    let windows = claim_decode::decode::windows_of(options_of(kind), part);
    let buses = bus_range(byte_at(part, SECONDARY_BUS), byte_at(part, SUBORDINATE_BUS));
    BridgeClaims {
        io: bit_at(command, COMMAND_IO),
        memory: bit_at(command, COMMAND_MEMORY),
        master: bit_at(command, COMMAND_MASTER),
        windows,
        buses,
    }
}

// The area of region r of a device.
pub fn area_in(n: Node, part: &[u8], r: u8) -> Area
    requires { r < 3 }
    ensures { result ≡ area_in n part.now r }
{
    let region = n.regions[r as usize];
    claim_decode::region::area_of(part, region.kind, region.exponent, r)
}

// A device's claims from its registers.
pub fn device_of(n: Node, part: &[u8]) -> DeviceClaims
    ensures { result ≡ device_of n part.now }
{
    let command = byte_at(part, COMMAND);
    DeviceClaims {
        io: bit_at(command, COMMAND_IO),
        memory: bit_at(command, COMMAND_MEMORY),
        areas: [
            area_in(n, part, 0),
            area_in(n, part, 1),
            area_in(n, part, 2),
        ],
    }
}

// Agent g of a bus.
pub fn agent_at(registers: &Registers, bus: u8, g: u8) -> Agent
    ensures { result ≡ agent_of (tree_in registers.now) (images_in registers.now) bus g }
{
    if g == 255 {
        return Agent::Host(host_memory(registers.table));
    }
    let n = node_at(registers.table, g as usize);
    let part = registers.view(g);
    if n.kind.is_bridge() {
        let b = bridge_of(n.kind, part);
        if g == bus {
            return Agent::Secondary(b);
        }
        return Agent::Primary(b);
    }
    Agent::Device(device_of(n, part))
}

// Whether agent g of a bus claims an address. The same agent as above, asked at once: handed on by value it would be copied.
pub fn agent_claims(registers: &Registers, bus: u8, g: u8, space: Space, a: u64) -> bool
    ensures { result ≡ claims_of (agent_of (tree_in registers.now) (images_in registers.now) bus g) space a }
{
    if g == 255 {
        return host_claims(host_memory(registers.table), space, a);
    }
    let n = node_at(registers.table, g as usize);
    let part = registers.view(g);
    if n.kind.is_bridge() {
        let b = bridge_of(n.kind, part);
        if g == bus {
            return b.claims_secondary(space, a);
        }
        return b.claims_primary(space, a);
    }
    device_of(n, part).claims_device(space, a)
}
