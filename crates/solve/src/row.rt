// One row of `MlpgMatrix` over flat lists: its factors, and the substitutions.
#![tactic(auto, using(lists::proofs::Rows::row_in), unfolding(crate::specs::Sums::less))]

ghost use Rattle.std.specs.Prelude.{◌≡◌, ◌+◌, ◌*◌, ◌<◌, ◌≤◌, length, drop};
ghost use Rattle.region.specs.Rows.{elem};
ghost use Rattle.solve.specs.Solve.{reduced, forward_at, backward_at};

// x, entry i of row t, less what the t factored rows before it account for.
pub(crate) fn reduced_at(x: f64, f: &[f64], w: usize, t: usize, i: usize) -> f64
    requires { (i < w) × (t * w ≤ length f.now) }
    ensures { result ≡ reduced w x f.now t i }
{
    let m = (w - i - 1).min(t);
    let mut r = x;
    for k in 1..m + 1 {
        let row = (t - k) * w;
        r -= f[row + k] * f[row + i + k] * f[row];
    }
    r
}

// The value at t of forward substitution: x is the right side there, g the values before it.
pub(crate) fn forward_at(f: &[f64], x: f64, g: &[f64], w: usize, t: usize) -> f64
    requires { (0 < w) × (t * w ≤ length f.now) × (t ≤ length g.now) }
    ensures { result ≡ forward_at w f.now x g.now t }
{
    let m = (w - 1).min(t);
    let mut r = x;
    for k in 1..m + 1 {
        let p = t - k;
        r -= f[p * w + k] * g[p];
    }
    r
}

// The value at t of backward substitution, from g's value there and the solved ones after it.
pub(crate) fn backward_at(f: &[f64], g: &[f64], w: usize, t: usize) -> f64
    requires { (0 < w) × (t < length g.now) × (t * w + w ≤ length f.now) }
    ensures { result ≡ backward_at w f.now (elem g.now t) (drop (t + 1) g.now) t }
{
    let row = t * w;
    let m = (w - 1).min(g.len() - (t + 1));
    let mut r = g[t] / f[row];
    for k in 1..m + 1 {
        r -= f[row + k] * g[t + k];
    }
    r
}
