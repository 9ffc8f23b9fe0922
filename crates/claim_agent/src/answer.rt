// The one question, does this agent claim this address, and how far upwards the answer stays the same.
ghost use Rattle.std.specs.Prelude.{◌≡◌};
ghost use Rattle.claim_agent.specs.definitions.Claim.{in_regions, primary_claims, secondary_claims, device_claims, host_claims, claims_of, windows_until, regions_until, until_of, region_number, offset_number, reached, offset_in};

use crate::{Agent, BridgeClaims, DeviceClaims, Reached, Space, Verdict};
use claim_window::cut::{cut_range, within_range};
use rack::Range;

impl BridgeClaims {
    // On its primary bus: inside the windows, under command bits 0 and 1. Bus numbers ask no command bit.
    pub fn claims_primary(self, space: Space, a: u64) -> bool
        ensures { result ≡ primary_claims self space a }
    {
        match space {
            Space::Memory => self.memory & self.windows.inside_memory(a),
            Space::Io => self.io & self.windows.inside_io(a),
            Space::Configuration => within_range(self.buses, a),
        }
    }

    // On its secondary bus: outside the windows, under command bit 2 alone.
    pub fn claims_secondary(self, space: Space, a: u64) -> bool
        ensures { result ≡ secondary_claims self space a }
    {
        match space {
            Space::Memory => self.master & !self.windows.inside_memory(a),
            Space::Io => self.master & !self.windows.inside_io(a),
            Space::Configuration => false,
        }
    }

    fn windows_until(self, space: Space, a: u64, e: u64) -> u64
        ensures { result ≡ windows_until self space a e }
    {
        match space {
            Space::Memory => self.windows.memory_until(a, e),
            Space::Io => self.windows.io_until(a, e),
            Space::Configuration => cut_range(self.buses, a, e),
        }
    }
}

impl DeviceClaims {
    fn in_regions(self, io: bool, a: u64) -> bool
        ensures { result ≡ in_regions self io a }
    {
        self.areas.iter().any(|r| r.holds_address(io, a))
    }

    pub fn claims_device(self, space: Space, a: u64) -> bool
        ensures { result ≡ device_claims self space a }
    {
        match space {
            Space::Memory => self.memory & self.in_regions(false, a),
            Space::Io => self.io & self.in_regions(true, a),
            Space::Configuration => false,
        }
    }

    fn regions_until(self, a: u64, e: u64) -> u64
        ensures { result ≡ regions_until self a e }
    {
        self.areas.iter().fold(e, |e, r| cut_range(r.range, a, e))
    }

    // The lowest-numbered region that holds an address, and the offset in it.
    pub fn reached_region(self, io: bool, a: u64) -> Option<Reached>
        ensures { (region_number result ≡ reached self io a) × (offset_number result ≡ offset_in self io a) }
    {
        let region = self.areas.iter().position(|r| r.holds_address(io, a))?;
        Some(Reached {
            region: region as u8,
            offset: a - self.areas[region].range.first,
        })
    }
}

// 01: 'The host claims its memory', and no I/O.
pub fn host_claims(host: Range, space: Space, a: u64) -> bool
    ensures { result ≡ host_claims host space a }
{
    (space == Space::Memory) & within_range(host, a)
}

impl Agent {
    pub fn claims(self, space: Space, a: u64) -> bool
        ensures { result ≡ claims_of self space a }
    {
        match self {
            Agent::Primary(b) => b.claims_primary(space, a),
            Agent::Secondary(b) => b.claims_secondary(space, a),
            Agent::Device(d) => d.claims_device(space, a),
            Agent::Host(h) => host_claims(h, space, a),
        }
    }

    fn until_at(self, space: Space, a: u64, e: u64) -> u64
        ensures { result ≡ until_of self space a e }
    {
        match self {
            Agent::Primary(b) | Agent::Secondary(b) => b.windows_until(space, a, e),
            Agent::Device(d) => d.regions_until(a, e),
            Agent::Host(h) => cut_range(h, a, e),
        }
    }

    // The verdict at an address, and an end, at most e, up to which it stays the same.
    pub fn verdict(self, space: Space, a: u64, e: u64) -> Verdict
        ensures { (result.claims ≡ claims_of self space a) × (result.until ≡ until_of self space a e) }
    {
        Verdict {
            claims: self.claims(space, a),
            until: self.until_at(space, a, e),
        }
    }
}
