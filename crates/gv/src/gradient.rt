// The matrix before factoring times the values, row by row; with each row goes its term of the objective.
#![tactic(auto, using(lists::proofs::Rows::row_in))]

ghost use Rattle.std.specs.Prelude.{◌≡◌, List, ℕ, ◌+◌, ◌-◌, ◌*◌, ◌<◌, ◌≤◌, ◌^◌, length, set, Float};
ghost use denote.Ref.{Bor};
ghost use Rattle.std.specs.Float.{binary64};
ghost use Rattle.std.specs.Float.Ieee.{add, mul};
ghost use Rattle.region.specs.Rows.{elem};
ghost use Rattle.region.specs.Region.{region_at};
ghost use Rattle.region.specs.Inner.Passes.{Spaced};
ghost use Rattle.gv.specs.Gv.{plus_right, plus_left, gradient_at, hmm_term};
ghost use Rattle.gv.specs.Inner.Turns.{Graded};

use super::objective::hmm_term;
use region::Places;

// The matrix's entry i to the right of row t's diagonal, times its value.
fn add_ahead(wuw: &[f64], par: &[f64], w: usize, t: usize, i: usize, g: f64) -> f64
    requires { (i < w) × (t < length par.now) × (length par.now * w ≤ length wuw.now) × (w < 2 ^ 32) }
    ensures { result ≡ plus_right w wuw.now par.now t i g }
{
    if t + i < par.len() {
        return g + wuw[t * w + i] * par[t + i];
    }
    g
}

// The one to the left, which stands in the row that it mirrors.
fn add_behind(wuw: &[f64], par: &[f64], w: usize, t: usize, i: usize, g: f64) -> f64
    requires { (i < w) × (t < length par.now) × (length par.now * w ≤ length wuw.now) }
    ensures { result ≡ plus_left w wuw.now par.now t i g }
{
    if i <= t {
        let p = t - i;
        return g + wuw[p * w + i] * par[p];
    }
    g
}

// Row t of the matrix times the values, an entry to each side at a time.
fn gradient_by_entries(wuw: &[f64], par: &[f64], w: usize, t: usize) -> f64
    requires { (0 < w) × (t < length par.now) × (length par.now * w ≤ length wuw.now) × (w < 2 ^ 32) }
    ensures { result ≡ gradient_at w wuw.now par.now t }
{
    let mut g = wuw[t * w] * par[t];
    for i in 1..w {
        g = add_behind(wuw, par, w, t, i, add_ahead(wuw, par, w, t, i, g));
    }
    g
}

// Row t of a region, by its entries.
pub(crate) fn gradient_at(m: &[f64], p: Places, n: usize, w: usize, t: usize) -> f64
    requires { (0 < w) × (w < 2 ^ 32) × (t < n) × Spaced p n w (length m.now) }
    ensures { result ≡ gradient_at w (region_at p n w m.now).matrix (region_at p n w m.now).values t }
{
    let rows = p.rows;
    let rows_end = rows + n * w;
    let values = p.values;
    let values_end = values + n;
    gradient_by_entries(&m[rows..rows_end], &m[values..values_end], w, t)
}

// An entry at a times the value at b.
fn product(m: &[f64], a: usize, b: usize) -> f64
    requires { (a < length m.now) × (b < length m.now) }
    ensures { result ≡ mul binary64 (elem m.now a) (elem m.now b) }
{
    m[a] * m[b]
}

// Row t of a region, of width 3, the usual one, where two values stand to each side: nothing is tested, so that a row is straight-line code.
pub(crate) fn gradient_of_three(m: &[f64], p: Places, n: usize, t: usize) -> f64
    requires { (2 ≤ t) × (t + 2 < n) × Spaced p n 3 (length m.now) }
    ensures { result ≡ gradient_at 3 (region_at p n 3 m.now).matrix (region_at p n 3 m.now).values t }
{
    let q = p.rows + t * 3;
    let v = p.values + t;
    product(m, q, v)
        + product(m, q + 1, v + 1)
        + product(m, q - 2, v - 1)
        + product(m, q + 2, v + 2)
        + product(m, q - 4, v - 2)
}

// Row t's gradient g goes where the factors were, and its term to the sum.
fn add_row(m: &mut [f64], p: Places, t: usize, g: f64, weight: f64, sum: f64) -> f64
    requires { (p.right + t < length m.old) × (p.factors + t < length m.old) × (p.values + t < length m.old) }
    ensures { (m.new ≡ set m.old (p.factors + t) g) × (result ≡ add binary64 sum (hmm_term weight (elem m.old (p.right + t)) g (elem m.old (p.values + t)))) }
{
    let term = hmm_term(weight, m[p.right + t], g, m[p.values + t]);
    let to = p.factors + t;
    m[to] = g;
    sum + term
}

// The gradient's rows from `from` to `end`, row t by f. The result is the objective's first part with their terms.
pub(crate) fn grade_rows<F: Fn(&[f64], usize) -> f64>(
    m: &mut [f64],
    p: Places,
    n: usize,
    w: usize,
    from: usize,
    end: usize,
    weight: f64,
    hmm: f64,
    f: F,
) -> f64
    requires places { (0 < w) × Spaced p n w (length m.old) × (from ≤ end) × (end ≤ n) }
    requires takes { (b : Bor (List Float)) (t : ℕ) → length b.now ≡ length m.old → from ≤ t → t < end → F.pre f b t }
    ensures { (d : List Float)
        → ((b : Bor (List Float)) (t : ℕ) (x : Float) → F.post f b t x → x ≡ gradient_at w (region_at p n w b.now).matrix (region_at p n w b.now).values t)
        → Graded p n w weight d m.old from hmm → Graded p n w weight d m.new end result }
{
    let mut sum = hmm;
    for t in from..end {
        let g = f(m, t);
        sum = add_row(m, p, t, g, weight, sum);
    }
    sum
}
