// The terms of the objective, and their weight.
ghost use Rattle.std.specs.Prelude.{◌≡◌, ◌≤◌};
ghost use Rattle.gv.specs.Gv.{weight_of, hmm_term, gv_obj};

pub(crate) const W1: f64 = 1.0;

pub(crate) const W2: f64 = 1.0;

// 1 / (number of windows × frames)
pub(crate) fn weight_of(windows: usize, n: usize) -> f64
    requires { (windows ≤ 4) × (n ≤ 65536) }
    ensures { result ≡ weight_of windows n }
{
    1.0 / ((windows * n) as f64)
}

pub(crate) fn hmm_term(weight: f64, m: f64, g: f64, p: f64) -> f64
    ensures { result ≡ hmm_term weight m g p }
{
    W1 * weight * p * (m - 0.5 * g)
}

pub(crate) fn gv_obj(gv_mean: f64, gv_vari: f64, vari: f64) -> f64
    ensures { result ≡ gv_obj gv_mean gv_vari vari }
{
    -0.5 * W2 * vari * gv_vari * (vari - 2.0 * gv_mean)
}
