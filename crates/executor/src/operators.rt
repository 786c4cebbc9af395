// Kinds with T: one operator on operands of one type, component by component. Each type and each operator has code of its own,
// so the back end knows both.
ghost use Rattle.std.specs.Prelude.{◌≡◌};
ghost use Rattle.value.specs.Results.{operand};
ghost use Rattle.executor.specs.Execution.{kind_for, operands_given, Operands, Ready, Executed};

use super::Extent;
use super::operands::operand_at;
use value::{Shape, Step};

// The operand of this number; zeros where the operator has fewer.
fn operand<S: Shape, T: Step>(code: &[u8], at: usize, i: usize, work: &[u64]) -> S
    requires { Operands T.operator S.type_byte code.now at work.now }
    ensures { result ≡ S.of (operand (operands_given T.operator S.type_byte code.now at work.now) i) }
{
    if i < T::OPERANDS {
        operand_at::<S>(code, at + 2 * i, work)
    } else {
        S::zeros()
    }
}

pub fn carry_out<S: Shape, T: Step>(code: &[u8], at: usize, res: usize, work: &mut [u64]) -> Extent
    requires { Ready (kind_for T.operator) S.type_byte code.now at res work.old }
    ensures { Executed (kind_for T.operator) S.type_byte code.now at res work.old work.new result }
{
    let a = operand::<S, T>(code, at, 0, work);
    let b = operand::<S, T>(code, at, 1, work);
    let c = operand::<S, T>(code, at, 2, work);
    let d = operand::<S, T>(code, at, 3, work);
    a.step::<T>(b, c, d).value().put(work, res);
    Extent {
        bytes: 2 * T::OPERANDS,
        words: S::WORDS,
    }
}
