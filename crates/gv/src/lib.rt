// `MlpgGlobalVariance`: the solved values of each component are drawn towards its global variance, in its region of the work space.
#![tactic(auto)]

ghost use Rattle.std.specs.Prelude.{◌≡◌, map, ◌*◌, ◌<◌, ◌≤◌, length};
ghost use Rattle.std.proofs.lemmas.List.Edits.{sets};
ghost use Rattle.std.specs.Float.{binary64};
ghost use Rattle.std.specs.Float.Ieee.{mul};
ghost use Rattle.lists.specs.Build.{build};
ghost use Rattle.lists.specs.Flags.{is_on};
ghost use Rattle.region.specs.Rows.{elem};
ghost use Rattle.region.specs.Inner.Passes.{Across};
ghost use Rattle.gv.specs.Gv.{mean_of, vari_of, conv_gv, weight_of, hmm_obj};
ghost use Rattle.gv.specs.Promise.{opens, VarySays};
ghost use Rattle.gv.specs.Inner.Turns.{Counted, Planned, Sampled, Suited, Pulls, moved_in, lists_in, gradient_of, Turned, five_turns, parmgen_in};

use gradient::{grade_rows, gradient_at, gradient_of_three};
use objective::{W2, gv_obj, weight_of};
use region::{Layout, Places};
use steps::{Descent, Pull, next_at};
use switches::{count_on, first_on, is_switched, rescale, switched_sum};

mod gradient;
mod objective;
mod steps;
mod switches;

#[derive(Clone, Copy)]
struct Moments {
    mean: f64,
    vari: f64,
}

// The sizes of a component's equations, and what there is to know of the switches.
#[derive(Clone, Copy)]
struct MlpgGlobalVariance {
    windows: usize,
    length: usize,
    width: usize,
    switched: usize,
    first: usize,
}

impl MlpgGlobalVariance {
    const GV_MAX_ITERATION: usize = 5;

    const STEPINIT: f64 = 0.1;

    const STEPDEC: f64 = 0.5;

    const STEPINC: f64 = 1.2;

    fn new(g: Layout, on: &[u32]) -> MlpgGlobalVariance
        requires { length on.now ≡ g.n }
        ensures { Planned g (map is_on on.now) result }
    {
        MlpgGlobalVariance {
            windows: usize::from(g.windows),
            length: on.len(),
            width: usize::from(g.w),
            switched: count_on(on),
            first: first_on(on),
        }
    }

    // Mean and variance of the switched values.
    fn calc_gv(self, par: &[f64], on: &[u32]) -> Moments
        requires { Sampled self (map is_on on.now) (length par.now) }
        ensures { (result.mean ≡ mean_of (map is_on on.now) par.now) × (result.vari ≡ vari_of (map is_on on.now) par.now) }
    {
        let first = self.first;
        let n = self.switched as f64;
        let mean = switched_sum(par, on, first, |x| x) / n;
        let vari = switched_sum(par, on, first, |x| (x - mean) * (x - mean)) / n;
        Moments { mean, vari }
    }

    // The switched values, drawn apart about their mean.
    fn conv_gv(self, par: &mut [f64], on: &[u32], gv_mean: f64)
        requires { Sampled self (map is_on on.now) (length par.old) }
        ensures { par.new ≡ conv_gv (map is_on on.now) gv_mean par.old }
    {
        let m = self.calc_gv(par, on);
        let ratio = floats::sqrt(gv_mean / m.vari);
        rescale(par, on, m.mean, ratio);
    }

    // The matrix times the values, which goes where the factors were, and the objective's first part, in one pass over the rows.
    fn calc_hmmobj_derivative(self, m: &mut [f64], p: Places) -> f64
        requires { Suited self p (length m.old) }
        ensures { let q = lists_in self p m.old in
            (m.new ≡ sets m.old p.factors (gradient_of self q)) × (result ≡ hmm_obj (weight_of self.windows self.length) q.side (gradient_of self q) q.values) }
    {
        let n = self.length;
        let w = self.width;
        let weight = weight_of(self.windows, n);
        // It owns what it goes by, which is then not read anew for each row.
        let by_entries = move |m: &[f64], t: usize| gradient_at(m, p, n, w, t);
        if w == 3 && 5 <= n {
            let first = grade_rows(m, p, n, w, 0, 2, weight, 0.0, by_entries);
            let inner = grade_rows(m, p, n, w, 2, n - 2, weight, first, move |m, t| {
                gradient_of_three(m, p, n, t)
            });
            return grade_rows(m, p, n, w, n - 2, n, weight, inner, by_entries);
        }
        grade_rows(m, p, n, w, 0, n, weight, 0.0, by_entries)
    }

    // What the next step is the same in for every frame.
    fn pull(self, gv_mean: f64, gv_vari: f64, mean: f64, vari: f64, step: f64) -> Pull
        requires { (0 < self.length) × (self.length ≤ 65536) × (self.windows ≤ 4) }
        ensures { Pulls result self.windows self.length gv_mean gv_vari mean vari step }
    {
        let n = self.length;
        let weight = weight_of(self.windows, n);
        let dv = -2.0 * gv_vari * (vari - gv_mean) / n as f64;
        let scale = W2 * 2.0 / (n * n) as f64;
        let spread = (n - 1) as f64 * gv_vari * (vari - gv_mean);
        let twice = 2.0 * gv_vari;
        Pull {
            weight,
            dv,
            scale,
            spread,
            twice,
            mean,
            step,
        }
    }

    // Frame t's value after the step; the gradient is where the factors were.
    fn step_at(self, m: &[f64], p: Places, on: &[u32], s: Pull, t: usize) -> f64
        requires { Suited self p (length m.now) × (length on.now ≡ self.length) × (t < self.length) }
        ensures { result ≡ moved_in self p (map is_on on.now) s m.now t }
    {
        next_at(
            s,
            m[p.rows + t * self.width],
            is_switched(on, t),
            m[p.factors + t],
            m[p.right + t],
            m[p.values + t],
        )
    }

    // Each value after the step.
    fn next_step(self, m: &mut [f64], p: Places, on: &[u32], s: Pull)
        requires { Suited self p (length m.old) × (length on.now ≡ self.length) }
        ensures { m.new ≡ sets m.old p.values (build (moved_in self p (map is_on on.now) s m.old) self.length) }
    {
        for t in 0..self.length {
            let x = self.step_at(m, p, on, s, t);
            m[p.values + t] = x;
        }
    }

    // One turn of the loop: objective, size of the step, next values.
    fn turn(
        self,
        m: &mut [f64],
        p: Places,
        on: &[u32],
        gv_mean: f64,
        gv_vari: f64,
        s: Descent,
    ) -> Descent
        requires { Suited self p (length m.old) × Counted self (map is_on on.now) × (0 < self.switched) }
        ensures { Turned self (map is_on on.now) gv_mean gv_vari (lists_in self p m.old) s.step s.prev (lists_in self p m.new) result.step result.prev }
    {
        let values = p.values;
        let values_end = values + self.length;
        let gv = self.calc_gv(&m[values..values_end], on);
        let hmm = self.calc_hmmobj_derivative(m, p);
        let obj = -(hmm + gv_obj(gv_mean, gv_vari, gv.vari));
        let step = s.size_after(obj);
        let pull = self.pull(gv_mean, gv_vari, gv.mean, gv.vari, step);
        self.next_step(m, p, on, pull);
        Descent { step, prev: obj }
    }

    fn five_turns(self, m: &mut [f64], p: Places, on: &[u32], gv_mean: f64, gv_vari: f64)
        requires { Suited self p (length m.old) × Counted self (map is_on on.now) × (0 < self.switched) }
        ensures { lists_in self p m.new ≡ five_turns self (map is_on on.now) gv_mean gv_vari (lists_in self p m.old) (lists_in self p m.old).values }
    {
        let mut s = Descent::start();
        for _ in 0..Self::GV_MAX_ITERATION {
            s = self.turn(m, p, on, gv_mean, gv_vari, s);
        }
    }

    // A region after the global variance; its rows are the matrix before factoring.
    fn parmgen(self, m: &mut [f64], p: Places, on: &[u32], gv_mean: f64, gv_vari: f64)
        requires { Suited self p (length m.old) × Counted self (map is_on on.now) }
        ensures { lists_in self p m.new ≡ parmgen_in self (map is_on on.now) gv_mean gv_vari (lists_in self p m.old) }
    {
        if self.switched == 0 {
            return;
        }
        let values = p.values;
        let values_end = values + self.length;
        self.conv_gv(&mut m[values..values_end], on, gv_mean);
        self.five_turns(m, p, on, gv_mean, gv_vari);
    }

    // The same for the regions of several components, which lie one after the other: each with its own mean, times the weight, and its own variance.
    fn parmgen_each(
        self,
        p: Places,
        on: &[u32],
        means: &[f64],
        varis: &[f64],
        weight: f64,
        work: &mut [f64],
    )
        requires { Suited self p p.size × Counted self (map is_on on.now) × (length varis.now ≡ length means.now) × (length means.now * p.size ≤ length work.old) }
        ensures { Across (λ l b e. lists_in self p e ≡ parmgen_in self (map is_on on.now) (mul binary64 (elem means.now l) weight) (elem varis.now l) (lists_in self p b))
            p.size (length means.now) work.old work.new }
    {
        for l in 0..means.len() {
            let o = l * p.size;
            let m = &mut work[o..o + p.size];
            self.parmgen(m, p, on, means[l] * weight, varis[l]);
        }
    }
}

// Whether there is anything to do: `on`, `means`, `varis` and `floats` are lengths.
fn opens(g: Layout, on: usize, means: usize, varis: usize, floats: usize) -> bool
    ensures { result ≡ opens g on means varis floats }
{
    0 < g.w
        && g.windows <= 4
        && g.n <= 65536
        && on == g.n as usize
        && varis == means
        && g.fits(means, floats)
}

// The global variance of each component, one for each mean, with the weight of the means; nothing where the lists don't fit.
pub fn vary(g: Layout, on: &[u32], means: &[f64], varis: &[f64], weight: f64, work: &mut [f64])
    ensures { VarySays g on.now means.now varis.now weight work.old work.new }
{
    if !opens(g, on.len(), means.len(), varis.len(), work.len()) {
        return;
    }
    let s = MlpgGlobalVariance::new(g, on);
    s.parmgen_each(g.places(), on, means, varis, weight, work);
}
