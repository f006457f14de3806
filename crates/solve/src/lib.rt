// Normal equations that lie in regions of the work space, factored and solved in place: a row of each component at a time, so that several go side by side.
#![tactic(auto)]

ghost use Rattle.std.specs.Prelude.{ℕ, ◌≡◌, ◌+◌, ◌*◌, ◌<◌, ◌≤◌, List, length, Float};
ghost use Rattle.std.proofs.lemmas.List.Edits.{sets};
ghost use Rattle.std.specs.Fork.{AcceptsAt, ChangesAt};
ghost use Rattle.lists.specs.Build.{build};
ghost use Rattle.lists.specs.Parts.{part};
ghost use Rattle.region.specs.Inner.Passes.{Spaced, Across};
ghost use Rattle.solve.specs.Solve.{factor_at};
ghost use Rattle.solve.specs.Promise.{SolveSays};
ghost use Rattle.solve.specs.Inner.Standing.{row_done, value_back, Forth, Back};

use region::{Layout, Places};
use row::{backward_at, forward_at, reduced_at};
use three::{backward_three, eliminate_three};

mod row;
mod three;

// Row t of the factors, behind the t rows before it, from row t at `rows`: its pivot d, and L's numbers.
fn factor_row(m: &mut [f64], rows: usize, factors: usize, w: usize, t: usize)
    requires { (0 < w) × (rows + t * w + w ≤ factors) × (factors + t * w + w ≤ length m.old) }
    ensures { m.new ≡ sets m.old (factors + t * w) (build (factor_at w (part (rows + t * w) w m.old) (part factors (t * w) m.old) t) w) }
{
    let a = rows + t * w;
    let e = factors + t * w;
    let d = reduced_at(m[a], &m[factors..e], w, t, 0);
    for i in 1..w {
        let x = reduced_at(m[a + i], &m[factors..e], w, t, i);
        m[e + i] = x / d;
    }
    m[e] = d;
}

// Does f to the region of each of so many components; it is told which. What f goes by it owns (`move`), so that this is not read anew in each region.
fn each_lane<F: Fn(usize, &mut [f64])>(work: &mut [f64], size: usize, lanes: usize, f: F)
    requires room { lanes * size ≤ length work.old }
    requires takes { (l : ℕ) (m : List Float) → l < lanes → length m ≡ size → AcceptsAt F.Fn f l m }
    ensures { Across (ChangesAt F.Fn f) size lanes work.old work.new }
{
    let mut o = 0;
    for l in 0..lanes {
        let end = o + size;
        f(l, &mut work[o..end]);
        o = end;
    }
}

// The equations of a component: n rows, w numbers each, at these places of its region.
#[derive(Clone, Copy)]
struct Equations {
    p: Places,
    n: usize,
    w: usize,
}

impl Equations {
    // Row t: its right side is put forward, and the row factored.
    #[tactic(auto, using(lists::proofs::Rows::row_fits))]
    fn eliminate_row(self, m: &mut [f64], t: usize)
        requires { (t < self.n) × (0 < self.w) × Spaced self.p self.n self.w (length m.old) }
        ensures { m.new ≡ row_done self.p self.w t m.old }
    {
        let p = self.p;
        let factors_end = p.factors + t * self.w;
        let values_end = p.values + t;
        let x = m[p.right + t];
        let g = forward_at(
            &m[p.factors..factors_end],
            x,
            &m[p.values..values_end],
            self.w,
            t,
        );
        factor_row(m, p.rows, p.factors, self.w, t);
        m[values_end] = g;
    }

    // The value at t is put backward, in place.
    #[tactic(auto, using(lists::proofs::Rows::row_fits))]
    fn backward_row(self, m: &mut [f64], t: usize)
        requires { (t < self.n) × (0 < self.w) × Spaced self.p self.n self.w (length m.old) }
        ensures { m.new ≡ value_back self.p self.n self.w t m.old }
    {
        let p = self.p;
        let factors_end = p.factors + self.n * self.w;
        let values_end = p.values + self.n;
        let x = backward_at(
            &m[p.factors..factors_end],
            &m[p.values..values_end],
            self.w,
            t,
        );
        m[p.values + t] = x;
    }

    // Row t, whichever the width.
    fn eliminate_lane(self, m: &mut [f64], t: usize)
        requires { (t < self.n) × (0 < self.w) × Spaced self.p self.n self.w (length m.old) }
        ensures { m.new ≡ row_done self.p self.w t m.old }
    {
        if self.w == 3 && 2 <= t {
            eliminate_three(m, self.p, self.n, t - 2);
        } else {
            self.eliminate_row(m, t);
        }
    }

    // The value at t is put backward, whichever the width.
    fn backward_lane(self, m: &mut [f64], t: usize)
        requires { (t < self.n) × (0 < self.w) × Spaced self.p self.n self.w (length m.old) }
        ensures { m.new ≡ value_back self.p self.n self.w t m.old }
    {
        if self.w == 3 && 2 < self.n - t {
            backward_three(m, self.p, self.n, t);
        } else {
            self.backward_row(m, t);
        }
    }

    // The factors of each component, and its right side put forward: row by row, each in all components.
    fn eliminate(self, work: &mut [f64], lanes: usize)
        requires { (0 < self.w) × Spaced self.p self.n self.w self.p.size × (lanes * self.p.size ≤ length work.old) }
        ensures { Across (λ l. Forth self.p self.n self.w self.n) self.p.size lanes work.old work.new }
    {
        for t in 0..self.n {
            each_lane(
                work,
                self.p.size,
                lanes,
                move |_, m| self.eliminate_lane(m, t),
            );
        }
    }

    // The values of each component are put backward.
    fn backward(self, work: &mut [f64], lanes: usize)
        requires { (0 < self.w) × Spaced self.p self.n self.w self.p.size × (lanes * self.p.size ≤ length work.old) }
        ensures { Across (λ l. Back self.p self.n self.w 0) self.p.size lanes work.old work.new }
    {
        for t in (0..self.n).rev() {
            each_lane(
                work,
                self.p.size,
                lanes,
                move |_, m| self.backward_lane(m, t),
            );
        }
    }
}

// The normal equations of each of so many components, solved side by side; nothing where their regions don't lie within the list.
pub fn solve(g: Layout, lanes: usize, work: &mut [f64])
    ensures { SolveSays g lanes work.old work.new }
{
    if g.w < 1 || !g.fits(lanes, work.len()) {
        return;
    }
    let e = Equations {
        p: g.places(),
        n: g.n as usize,
        w: usize::from(g.w),
    };
    e.eliminate(work, lanes);
    e.backward(work, lanes);
}
