// Grants as a table of numbers, which is lent to whatever runs an event.
ghost use Rattle.std.specs.Prelude.{◌≡◌, ◌≤◌, ◌<◌};
ghost use Rattle.seat.specs.definitions.Grants.{acting, has_dword, may_write, unknown_seat, slot};
ghost use Rattle.seat.specs.definitions.Table.{number_at, grants_of};

use rack::Grant;

// A number for each pair of seats 1 to 15 and 96 nodes, then 1 where a seat record is faulty.
// An array and no struct: the theorems say what any numbers hold (`grants_of`), so nothing is asked of one that is lent.
pub type GrantTable = [u32; 1441];

// The place of a pair.
pub(crate) fn slot(seat: u8, node: u8) -> usize
    requires { (1 ≤ seat) × (seat ≤ 15) × (node < 96) }
    ensures { (result ≡ slot seat node) × (result < 1440) }
{
    96 * (seat as usize - 1) + node as usize
}

// The number of a pair, 0 where there is none, as the table has it. No `Option`: the definitions name the table's own 0.
fn number_at(grants: &GrantTable, seat: u8, node: u8) -> u32
    ensures { result ≡ number_at grants.now seat node }
{
    if (1 <= seat) & (seat <= 15) & (node < 96) {
        grants[slot(seat, node)]
    } else {
        0
    }
}

// Whether a seat record names the two together.
pub fn is_named(grants: &GrantTable, seat: u8, node: u8) -> bool
    ensures { result ≡ ((grants_of grants.now).grant seat node).named }
{
    65536 <= number_at(grants, seat, node)
}

// What a seat may write of a node.
pub fn grant_at(grants: &GrantTable, seat: u8, node: u8) -> Grant
    ensures { result ≡ (grants_of grants.now).grant seat node }
{
    let number = number_at(grants, seat, node);
    Grant {
        named: 65536 <= number,
        mask: (number % 65536) as u16,
    }
}

fn has_dword(mask: u32, i: u8) -> bool
    requires { i < 16 }
    ensures { result ≡ has_dword mask i }
{
    (mask >> i) % 2 == 1
}

// Whether the acting seat may write a register of a node.
pub fn may_write(grants: &GrantTable, seat: u8, node: u8, register: u8) -> bool
    ensures { result ≡ may_write (acting (grants_of grants.now) seat) node register }
{
    if 64 <= register {
        return true;
    }
    let number = number_at(grants, seat, node);
    (seat == 0) | ((65536 <= number) & has_dword(number % 65536, register / 4))
}

// Refusal 15: a seat other than 0 without a record.
pub fn unknown_seat(grants: &GrantTable, seat: u8) -> bool
    ensures { result ≡ unknown_seat (grants_of grants.now) seat }
{
    seat != 0 && !(0..96).any(|node| is_named(grants, seat, node))
}

// Refusal 14: a seat record is faulty.
pub fn is_wrong(grants: &GrantTable) -> bool
    ensures { result ≡ (grants_of grants.now).wrong }
{
    grants[1440] != 0
}
