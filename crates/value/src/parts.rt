// Products, and vectors and matrices made of parts.
ghost use Rattle.std.specs.Prelude.{◌≡◌};
ghost use Rattle.value.specs.Values.{vec};
ghost use Rattle.value.specs.Steps.{dot_product, cross_product, row_times, matrix_times, from_columns, from_rows, transposed};

use super::{Mat4, Row, Vec3};

// ---- products

pub fn dot(a: Vec3, b: Vec3) -> f64
    ensures { result ≡ dot_product a b }
{
    (a.x * b.x + a.y * b.y) + a.z * b.z
}

pub fn cross(a: Vec3, b: Vec3) -> Vec3
    ensures { result ≡ cross_product a b }
{
    Vec3 {
        x: a.y * b.z - a.z * b.y,
        y: a.z * b.x - a.x * b.z,
        z: a.x * b.y - a.y * b.x,
    }
}

fn row_times(r: Row, v: Vec3) -> f64
    ensures { result ≡ row_times r v }
{
    ((r.c0 * v.x + r.c1 * v.y) + r.c2 * v.z) + r.c3
}

pub fn matvec(m: Mat4, v: Vec3) -> Vec3
    ensures { result ≡ matrix_times m v }
{
    Vec3 {
        x: row_times(m.r0, v),
        y: row_times(m.r1, v),
        z: row_times(m.r2, v),
    }
}

// ---- vectors and matrices of parts

pub fn compose_vector(a: f64, b: f64, c: f64) -> Vec3
    ensures { result ≡ vec a b c }
{
    Vec3 { x: a, y: b, z: c }
}

pub fn vector_from_scalar(a: f64) -> Vec3
    ensures { result ≡ vec a a a }
{
    Vec3 { x: a, y: a, z: a }
}

pub fn transpose(m: Mat4) -> Mat4
    ensures { result ≡ transposed m }
{
    Mat4 {
        r0: Row {
            c0: m.r0.c0,
            c1: m.r1.c0,
            c2: m.r2.c0,
            c3: m.r3.c0,
        },
        r1: Row {
            c0: m.r0.c1,
            c1: m.r1.c1,
            c2: m.r2.c1,
            c3: m.r3.c1,
        },
        r2: Row {
            c0: m.r0.c2,
            c1: m.r1.c2,
            c2: m.r2.c2,
            c3: m.r3.c2,
        },
        r3: Row {
            c0: m.r0.c3,
            c1: m.r1.c3,
            c2: m.r2.c3,
            c3: m.r3.c3,
        },
    }
}

// The columns of a matrix, and the fourth row 0, 0, 0, 1.
pub fn from_columns(a: Vec3, b: Vec3, c: Vec3, d: Vec3) -> Mat4
    ensures { result ≡ from_columns a b c d }
{
    Mat4 {
        r0: Row {
            c0: a.x,
            c1: b.x,
            c2: c.x,
            c3: d.x,
        },
        r1: Row {
            c0: a.y,
            c1: b.y,
            c2: c.y,
            c3: d.y,
        },
        r2: Row {
            c0: a.z,
            c1: b.z,
            c2: c.z,
            c3: d.z,
        },
        r3: Row {
            c0: 0.0,
            c1: 0.0,
            c2: 0.0,
            c3: 1.0,
        },
    }
}

// The rows of a matrix, and the fourth column 0, 0, 0, 1.
pub fn from_rows(a: Vec3, b: Vec3, c: Vec3, d: Vec3) -> Mat4
    ensures { result ≡ from_rows a b c d }
{
    transpose(from_columns(a, b, c, d))
}
