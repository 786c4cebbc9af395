// What the results of functions and nodes take: words in version 1, names in version 2.
ghost use Rattle.std.specs.Prelude.{◌≡◌, ◌≤◌, ◌^◌, ◌<◌, leb};
ghost use Rattle.sums.specs.Capped.{plain_sums};
ghost use Rattle.compiler.specs.Units.{units_in, unit_limit};

use super::NAME_STEP;
use base::{OPERATION_LIMIT, WORD_LIMIT};
use bytecode::Version;
use ports::Ports;
use sums::Sums;

// Whether a function of these sums is within the limit. Names are not multiplied here, so that any number may stand above it.
pub fn fits(version: Version, sums: Sums) -> bool
    ensures { result ≡ leb (units_in version sums) (unit_limit version) }
{
    match version {
        Version::V1 => sums.words <= WORD_LIMIT,
        Version::V2 => sums.instructions <= OPERATION_LIMIT,
    }
}

// What a function of these sums takes, which is within the limit.
pub fn units(version: Version, sums: Sums) -> usize
    requires { units_in version sums ≤ unit_limit version }
    ensures { result ≡ units_in version sums }
{
    match version {
        Version::V1 => sums.words,
        Version::V2 => NAME_STEP * sums.instructions,
    }
}

// What the results of a node that is no call take, by its kind's row.
pub fn taken(version: Version, row: Ports, ty: u8) -> usize
    ensures value { result ≡ units_in version (plain_sums row ty) }
    ensures bounded { result < 2 ^ 32 }
{
    match version {
        Version::V1 => row.result_words(ty),
        Version::V2 => NAME_STEP,
    }
}
