// By the kind byte: which instruction stands there. Kinds are bytes, as in `ports`, and here they are matched as they stand in the code:
// an enum would be made and taken apart at each instruction.
ghost use Rattle.std.specs.Prelude.{◌≡◌};
ghost use Rattle.executor.specs.Execution.{Executable, Executed};

use super::operators::carry_out;
use super::{Extent, plain};
use value::{
    Absolute, Add, Clamp, Divide, Maximum, Minimum, Multiply, Remainder, Select, Shape, Subtract,
};

pub fn execute_plain(k: u8, code: &[u8], at: usize, res: usize, work: &mut [u64]) -> Extent
    requires { Executable k 0 code.now at res work.old }
    ensures { Executed k 0 code.now at res work.old work.new result }
{
    match k {
        5 => plain::constant(code, at, res, work),
        6 => plain::constvec(code, at, res, work),
        7 => plain::constmat(code, at, res, work),
        8 => plain::compose_vector(code, at, res, work),
        9 => plain::vector_from_scalar(code, at, res, work),
        10 => plain::decompose_vector(code, at, res, work),
        11 => plain::compose_matrix(code, at, res, work),
        12 => plain::matrix_from_columns(code, at, res, work),
        13 => plain::matrix_from_rows(code, at, res, work),
        14 => plain::dot(code, at, res, work),
        15 => plain::cross(code, at, res, work),
        16 => plain::matvec(code, at, res, work),
        _ => plain::transpose(code, at, res, work),
    }
}

// Kinds with T, where T is S.
pub fn execute_typed<S: Shape>(
    k: u8,
    code: &[u8],
    at: usize,
    res: usize,
    work: &mut [u64],
) -> Extent
    requires { Executable k S.type_byte code.now at res work.old }
    ensures { Executed k S.type_byte code.now at res work.old work.new result }
{
    match k {
        1 => carry_out::<S, Add>(code, at, res, work),
        2 => carry_out::<S, Subtract>(code, at, res, work),
        3 => carry_out::<S, Multiply>(code, at, res, work),
        4 => carry_out::<S, Divide>(code, at, res, work),
        18 => carry_out::<S, Minimum>(code, at, res, work),
        19 => carry_out::<S, Maximum>(code, at, res, work),
        20 => carry_out::<S, Absolute>(code, at, res, work),
        21 => carry_out::<S, Remainder>(code, at, res, work),
        22 => carry_out::<S, Select>(code, at, res, work),
        _ => carry_out::<S, Clamp>(code, at, res, work),
    }
}
