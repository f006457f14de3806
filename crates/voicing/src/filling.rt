// Filling back, state by state: the values of the voiced frames at their places of the trajectory, and the fill number at the others.
ghost use Rattle.std.specs.Prelude.{◌≡◌, ◌+◌, ◌*◌, ◌<◌, ◌≤◌, ℕ, length, Float};
ghost use Rattle.lists.specs.Totals.{total};
ghost use Rattle.lists.specs.Build.{build};
ghost use Rattle.voicing.specs.Mask.{mask_in};
ghost use Rattle.voicing.specs.Space.{filled_at};
ghost use Rattle.voicing.specs.Inner.Fits.{Grouped};
ghost use Rattle.voicing.specs.Inner.Lanes.{sets_by, sets_lanes};

use super::flags::{Frames, goes_on};
use region::{Group, Layout};

// d numbers of lane l at the places p, p + v, and so on.
fn put_column<F: Fn(usize, usize) -> f64>(
    number: &F,
    l: usize,
    d: usize,
    v: usize,
    p: usize,
    out: &mut [f64],
)
    requires room { (v ≤ 64) × (p + d * v < length out.old + v) }
    requires gives { (j : ℕ) → j < d → F.pre number.now l j }
    ensures { (x : ℕ → Float) → ((j : ℕ) (y : Float) → j < d → F.post number.now l j y → y ≡ x j) → out.new ≡ sets_by v p (build x d) out.old }
{
    let mut q = p;
    for j in 0..d {
        out[q] = number(l, j);
        q += v;
    }
}

// d numbers of each lane: those of lane l at the places p + l, p + l + v, and so on.
fn put_lanes<F: Fn(usize, usize) -> f64>(number: F, d: usize, c: Group, p: usize, out: &mut [f64])
    requires room { (c.v ≤ 64) × (c.lanes ≤ c.v) × (p + d * c.v + c.lanes ≤ length out.old + c.v) }
    requires gives { (l j : ℕ) → l < c.lanes → j < d → F.pre number l j }
    ensures { (x : ℕ → ℕ → Float) → ((l j : ℕ) (y : Float) → l < c.lanes → j < d → F.post number l j y → y ≡ x l j)
        → out.new ≡ sets_lanes c.v p (λ l. build (x l) d) c.lanes out.old }
{
    for l in 0..c.lanes {
        put_column(&number, l, d, c.v, p + l, out);
    }
}

// `Mask::fill`: the values of each component are filled back into the trajectory, state by state, so that a frame's numbers are written together.
pub(crate) fn fill_group(none: f64, m: Frames, g: Layout, c: Group, work: &[f64], out: &mut [f64])
    requires { Grouped m.durations.now m.flags.now g c (length work.now) × (length out.old ≡ total m.durations.now * c.v) }
    ensures { out.new ≡ build (filled_at none (mask_in m.entry.durations.now m.entry.flags.now) g c work.now out.old) (length out.old) }
{
    let places = g.places();
    let values = places.values;
    let size = places.size;
    let v = c.v;
    let other = floats::one_nan(none);
    let mut f = 0;
    let mut k = 0;
    let mut p = c.first;
    for x in m.durations {
        let d = *x as usize;
        if goes_on(m.flags, f, d) {
            let from = values + k;
            let value = |l, j| floats::one_nan(work[from + l * size + j]);
            put_lanes(value, d, c, p, out);
            k += d;
        } else {
            put_lanes(|_, _| other, d, c, p, out);
        }
        p += d * v;
        f += d;
    }
}
