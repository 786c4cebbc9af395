// Kinds without T.
#![tactic(auto, unfolding(bytecode::specs::Run::execute, value::specs::Results::results))]

ghost use Rattle.std.specs.Prelude.{◌≡◌, ◌+◌, ◌≤◌, length};
ghost use Rattle.executor.specs.Execution.{constant_row, scalars_row, Ready, Executed, ScalarsReady};

use super::Extent;
use super::operands::{apart_at, constant_at, operand_at};
use value::{Mat4, Row, Value, Vec3};

pub fn constant(code: &[u8], at: usize, res: usize, work: &mut [u64]) -> Extent
    requires { Ready 5 0 code.now at res work.old }
    ensures { Executed 5 0 code.now at res work.old work.new result }
{
    Value::Scalar(constant_at(code, at)).put(work, res);
    Extent { bytes: 8, words: 1 }
}

pub fn constvec(code: &[u8], at: usize, res: usize, work: &mut [u64]) -> Extent
    requires { Ready 6 0 code.now at res work.old }
    ensures { Executed 6 0 code.now at res work.old work.new result }
{
    let v = Vec3 {
        x: constant_at(code, at),
        y: constant_at(code, at + 8),
        z: constant_at(code, at + 16),
    };
    Value::Vector(v).put(work, res);
    Extent {
        bytes: 24,
        words: 3,
    }
}

fn constant_row(code: &[u8], at: usize) -> Row
    requires { at + 32 ≤ length code.now }
    ensures { result ≡ constant_row code.now at }
{
    Row {
        c0: constant_at(code, at),
        c1: constant_at(code, at + 8),
        c2: constant_at(code, at + 16),
        c3: constant_at(code, at + 24),
    }
}

pub fn constmat(code: &[u8], at: usize, res: usize, work: &mut [u64]) -> Extent
    requires { Ready 7 0 code.now at res work.old }
    ensures { Executed 7 0 code.now at res work.old work.new result }
{
    let m = Mat4 {
        r0: constant_row(code, at),
        r1: constant_row(code, at + 32),
        r2: constant_row(code, at + 64),
        r3: constant_row(code, at + 96),
    };
    Value::Matrix(m).put(work, res);
    Extent {
        bytes: 128,
        words: 16,
    }
}

pub fn compose_vector(code: &[u8], at: usize, res: usize, work: &mut [u64]) -> Extent
    requires { Ready 8 0 code.now at res work.old }
    ensures { Executed 8 0 code.now at res work.old work.new result }
{
    let a = operand_at::<f64>(code, at, work);
    let b = operand_at::<f64>(code, at + 2, work);
    let c = operand_at::<f64>(code, at + 4, work);
    Value::Vector(value::compose_vector(a, b, c)).put(work, res);
    Extent { bytes: 6, words: 3 }
}

pub fn vector_from_scalar(code: &[u8], at: usize, res: usize, work: &mut [u64]) -> Extent
    requires { Ready 9 0 code.now at res work.old }
    ensures { Executed 9 0 code.now at res work.old work.new result }
{
    let a = operand_at::<f64>(code, at, work);
    Value::Vector(value::vector_from_scalar(a)).put(work, res);
    Extent { bytes: 2, words: 3 }
}

// Its three results are scalars.
pub fn decompose_vector(code: &[u8], at: usize, res: usize, work: &mut [u64]) -> Extent
    requires { Ready 10 0 code.now at res work.old }
    ensures { Executed 10 0 code.now at res work.old work.new result }
{
    let v = operand_at::<Vec3>(code, at, work);
    Value::Scalar(v.x).put(work, res);
    Value::Scalar(v.y).put(work, res + 1);
    Value::Scalar(v.z).put(work, res + 2);
    Extent { bytes: 2, words: 3 }
}

// From address to address, as the definition goes: the check finds the proof so, here and in `compose_matrix`.
fn scalars_row(code: &[u8], at: usize, work: &[u64]) -> Row
    requires { ScalarsReady code.now at work.now }
    ensures { result ≡ scalars_row work.now code.now at }
{
    let p = at + 2;
    let q = p + 2;
    let r = q + 2;
    Row {
        c0: operand_at::<f64>(code, at, work),
        c1: operand_at::<f64>(code, p, work),
        c2: operand_at::<f64>(code, q, work),
        c3: operand_at::<f64>(code, r, work),
    }
}

pub fn compose_matrix(code: &[u8], at: usize, res: usize, work: &mut [u64]) -> Extent
    requires { Ready 11 0 code.now at res work.old }
    ensures { Executed 11 0 code.now at res work.old work.new result }
{
    let p = at + 2 + 2 + 2 + 2;
    let q = p + 2 + 2 + 2 + 2;
    let r = q + 2 + 2 + 2 + 2;
    let m = Mat4 {
        r0: scalars_row(code, at, work),
        r1: scalars_row(code, p, work),
        r2: scalars_row(code, q, work),
        r3: scalars_row(code, r, work),
    };
    Value::Matrix(m).put(work, res);
    Extent {
        bytes: 32,
        words: 16,
    }
}

// This and `matrix_from_rows`, and `dot` and `cross`, differ in what is made of the same operands: a function over both would ask for a law of its closure.
pub fn matrix_from_columns(code: &[u8], at: usize, res: usize, work: &mut [u64]) -> Extent
    requires { Ready 12 0 code.now at res work.old }
    ensures { Executed 12 0 code.now at res work.old work.new result }
{
    let a = operand_at::<Vec3>(code, at, work);
    let b = operand_at::<Vec3>(code, at + 2, work);
    let c = operand_at::<Vec3>(code, at + 4, work);
    let d = operand_at::<Vec3>(code, at + 6, work);
    Value::Matrix(value::from_columns(a, b, c, d)).put(work, res);
    Extent {
        bytes: 8,
        words: 16,
    }
}

pub fn matrix_from_rows(code: &[u8], at: usize, res: usize, work: &mut [u64]) -> Extent
    requires { Ready 13 0 code.now at res work.old }
    ensures { Executed 13 0 code.now at res work.old work.new result }
{
    let a = operand_at::<Vec3>(code, at, work);
    let b = operand_at::<Vec3>(code, at + 2, work);
    let c = operand_at::<Vec3>(code, at + 4, work);
    let d = operand_at::<Vec3>(code, at + 6, work);
    Value::Matrix(value::from_rows(a, b, c, d)).put(work, res);
    Extent {
        bytes: 8,
        words: 16,
    }
}

pub fn dot(code: &[u8], at: usize, res: usize, work: &mut [u64]) -> Extent
    requires { Ready 14 0 code.now at res work.old }
    ensures { Executed 14 0 code.now at res work.old work.new result }
{
    let a = apart_at(code, at, work);
    let b = apart_at(code, at + 2, work);
    Value::Scalar(value::dot(a, b)).put(work, res);
    Extent { bytes: 4, words: 1 }
}

pub fn cross(code: &[u8], at: usize, res: usize, work: &mut [u64]) -> Extent
    requires { Ready 15 0 code.now at res work.old }
    ensures { Executed 15 0 code.now at res work.old work.new result }
{
    let a = apart_at(code, at, work);
    let b = apart_at(code, at + 2, work);
    Value::Vector(value::cross(a, b)).put(work, res);
    Extent { bytes: 4, words: 3 }
}

pub fn matvec(code: &[u8], at: usize, res: usize, work: &mut [u64]) -> Extent
    requires { Ready 16 0 code.now at res work.old }
    ensures { Executed 16 0 code.now at res work.old work.new result }
{
    let a = operand_at::<Mat4>(code, at, work);
    let b = apart_at(code, at + 2, work);
    Value::Vector(value::matvec(a, b)).put(work, res);
    Extent { bytes: 4, words: 3 }
}

pub fn transpose(code: &[u8], at: usize, res: usize, work: &mut [u64]) -> Extent
    requires { Ready 17 0 code.now at res work.old }
    ensures { Executed 17 0 code.now at res work.old work.new result }
{
    let a = operand_at::<Mat4>(code, at, work);
    Value::Matrix(value::transpose(a)).put(work, res);
    Extent {
        bytes: 2,
        words: 16,
    }
}
