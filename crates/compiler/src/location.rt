// One location: of a port in its function, and of a callee's result seen from its caller. It is a number, an input below `PORT_LIMIT`
// and an offset from there on, as it stands in `u16` arrays of fixed size that are lent.
ghost use Rattle.std.specs.Prelude.{◌≡◌, ◌+◌, ◌<◌, ◌≤◌};
ghost use Rattle.base.specs.Limits.{reference_limit, address_limit};
ghost use Rattle.compiler.specs.Locating.{port_code, rebased_code};
ghost use Rattle.compiler.specs.Units.{unit_bound};

use super::NODE_PORT_LIMIT;
use base::{ADDRESS_LIMIT, NODE_LIMIT, PORT_LIMIT, REFERENCE_LIMIT};

// The location of a port of the node with the index v, or of the inputs.
pub fn location_of(allocated: &[u16; NODE_PORT_LIMIT], v: usize, port: usize) -> u16
    ensures { result ≡ port_code allocated.now v port }
{
    if PORT_LIMIT <= port {
        return 0;
    }
    if v < NODE_LIMIT {
        allocated[PORT_LIMIT * v + port]
    } else {
        port as u16
    }
}

// A callee's location seen from its caller.
pub fn rebase(locations: &[u16; REFERENCE_LIMIT], cell: usize, n: usize, d: usize, e: usize) -> u16
    requires { (cell + n ≤ reference_limit) × (d ≤ unit_bound) × (e < address_limit) }
    ensures { result ≡ rebased_code locations.now cell n d e }
{
    if e < PORT_LIMIT {
        if e < n { locations[cell + e] } else { 0 }
    } else {
        ((e + d) % ADDRESS_LIMIT) as u16
    }
}
