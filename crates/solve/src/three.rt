// A row of width 3, that of the usual windows of 1, 3 and 3 coefficients, without loops. Its own row is at a, its right side at x, the two factored rows before
// it at f, and their values at v.
ghost use Rattle.std.specs.Prelude.{◌≡◌, ◌+◌, ◌<◌, ◌≤◌, length};
ghost use Rattle.region.specs.Inner.Passes.{Spaced};
ghost use Rattle.solve.specs.Inner.Standing.{row_done, value_back};
ghost use Rattle.solve.specs.Inner.Three.{pivot_three, second_three, forward_three};

use region::Places;

// Its pivot.
fn pivot_three(m: &[f64], a: usize, f: usize) -> f64
    requires { (f + 6 ≤ length m.now) × (a < length m.now) }
    ensures { result ≡ pivot_three m.now a f }
{
    let q = m[f + 4];
    let r = m[f + 2];
    m[a] - q * q * m[f + 3] - r * r * m[f]
}

// The number behind it, which the pivot divides.
fn second_three(m: &[f64], a: usize, f: usize) -> f64
    requires { (f + 6 ≤ length m.now) × (a + 1 < length m.now) }
    ensures { result ≡ second_three m.now a f }
{
    m[a + 1] - m[f + 4] * m[f + 5] * m[f + 3]
}

// Its value put forward.
fn forward_three(m: &[f64], x: usize, f: usize, v: usize) -> f64
    requires { (x < length m.now) × (f + 6 ≤ length m.now) × (v + 2 ≤ length m.now) }
    ensures { result ≡ forward_three m.now x f v }
{
    m[x] - m[f + 4] * m[v + 1] - m[f + 2] * m[v]
}

// Row t + 2 of one component: its right side is put forward, and the row factored.
pub(crate) fn eliminate_three(m: &mut [f64], p: Places, n: usize, t: usize)
    requires { (t + 2 < n) × Spaced p n 3 (length m.old) }
    ensures { m.new ≡ row_done p 3 (t + 2) m.old }
{
    let a = p.rows + t * 3 + 6;
    let f = p.factors + t * 3;
    let v = p.values + t;
    let d = pivot_three(m, a, f);
    let y = second_three(m, a, f) / d;
    let z = m[a + 2] / d;
    let g = forward_three(m, p.right + t + 2, f, v);
    m[f + 6] = d;
    m[f + 7] = y;
    m[f + 8] = z;
    m[v + 2] = g;
}

// The value at t of one component is put backward, in place, from the two behind it.
pub(crate) fn backward_three(m: &mut [f64], p: Places, n: usize, t: usize)
    requires { (t + 2 < n) × Spaced p n 3 (length m.old) }
    ensures { m.new ≡ value_back p n 3 t m.old }
{
    let e = p.factors + t * 3;
    let v = p.values + t;
    let x = m[v] / m[e] - m[e + 1] * m[v + 1] - m[e + 2] * m[v + 2];
    m[v] = x;
}
