// `calc_wuw_and_wum` over a region, a block of rows at a time and tap by tap: what a tap needs is worked out once for a block, whose rows stay in the cache from tap to tap.
ghost use Rattle.std.specs.Prelude.{◌≡◌, false, ◌+◌, ◌-◌, ◌*◌, ◌<◌, ◌≤◌, length};
ghost use Rattle.std.specs.Float.Ieee.{eq};
ghost use Rattle.floats.specs.Numbers.{nought};
ghost use Rattle.region.specs.Rows.{elem};
ghost use Rattle.region.specs.Region.{size_of, region_in, flat};
ghost use Rattle.band.specs.Promise.{rowed_in};
ghost use Rattle.band.specs.Inner.Fits.{Taps};
ghost use Rattle.band.specs.Inner.Sets.{readied, passes, column_of, side_of_pass, window_of_pass, set_at};
ghost use Rattle.band.specs.Inner.Passes.{Room, Moved, Cleared, NextTap, still, in_columns, Stands, tap_entry, tap_side, window_entry, window_side, windows_entry, windows_side, whole_entry, whole_side};

use super::WindowSet;
use region::Layout;

// How many rows a block has: few enough to stay in the cache, enough for long passes.
const BLOCK: usize = 256;

// Rows `from` to `to` of a band of n rows, which has w numbers a row from place `rows` on, and its right side from place `right` on.
#[derive(Clone, Copy)]
struct Block {
    rows: usize,
    right: usize,
    n: usize,
    w: usize,
    from: usize,
    to: usize,
}

impl Block {
    // The rows of it for which tap k of a window so wide stands at a frame: t + half - k is one of the n frames.
    fn standing(self, width: usize, k: usize) -> Block
        ensures { Stands width k self result }
    {
        let half = width / 2;
        let missing = half - half.min(k);
        Block {
            from: self.from.max(k - k.min(half)),
            to: self.to.min(self.n - self.n.min(missing)),
            ..self
        }
    }
}

// The numbers from one place to another become zero.
fn clear(m: &mut [f64], from: usize, to: usize)
    requires { (from ≤ to) × (to ≤ length m.old) }
    ensures { Cleared from to m.old m.new }
{
    m[from..to].fill(0.0);
}

// The first place from one on whose tap is not zero, or the end.
fn next_tap(taps: &[f64], from: usize) -> usize
    requires { from ≤ length taps.now }
    ensures { NextTap taps.now from result }
{
    for i in from..taps.len() {
        if taps[i] != 0.0 {
            return i;
        }
    }
    taps.len()
}

// A window's taps, or those from one on, over a block's rows: from place u on lie the inverse variances of the frames that the first tap stands at, and from place
// `mean` on their means.
#[derive(Clone, Copy)]
struct Pass<'a> {
    taps: &'a [f64],
    u: usize,
    mean: usize,
    b: Block,
}

impl Pass<'_> {
    // Column j with the terms of the first tap added.
    fn add_column(self, m: &mut [f64], j: usize)
        requires { (j < length self.taps.now) × (eq (elem self.taps.now j) nought ≡ false) × readied self (length m.old) }
        ensures { Moved self.entry.b (in_columns j (j + 1) (column_of self.entry m.old)) still m.old m.new }
    {
        let b = self.b;
        let u = self.u;
        let to = b.from.max(b.to.min(b.n - j));
        let count = to - b.from;
        let c = self.taps[0];
        let d = self.taps[j];
        let w = b.w;
        let mut q = b.rows + (b.from * w + j);
        for t in 0..count {
            m[q] = m[q] + c * m[u + t] * d;
            q += w;
        }
    }

    // Columns j to i, of which only j and i have a tap, and every row both: what is the same for both is worked out once.
    fn add_pair(self, m: &mut [f64], j: usize, i: usize)
        requires { (eq (elem self.taps.now j) nought ≡ false) × NextTap self.taps.now (j + 1) i × (i < length self.taps.now)
            × (self.b.to + i ≤ self.b.n) × readied self (length m.old) }
        ensures { Moved self.entry.b (in_columns j (i + 1) (column_of self.entry m.old)) still m.old m.new }
    {
        let b = self.b;
        let u = self.u;
        let gap = i - j;
        let count = b.to - b.from;
        let c = self.taps[0];
        let d = self.taps[j];
        let e = self.taps[i];
        let w = b.w;
        let mut q = b.rows + (b.from * w + j);
        for t in 0..count {
            let x = c * m[u + t];
            m[q] = m[q] + x * d;
            m[q + gap] = m[q + gap] + x * e;
            q += w;
        }
    }

    // All columns, two at a time where every row has both.
    fn add_columns(self, m: &mut [f64])
        requires { readied self (length m.old) }
        ensures { Moved self.entry.b (column_of self.entry m.old) still m.old m.new }
    {
        let taps = self.taps;
        let whole = taps.len().min(self.b.n - self.b.to + 1);
        let mut j = next_tap(taps, 0);
        // A turn takes one column or two, and goes on at the next tap that is not zero.
        while j < taps.len() {
            let i = next_tap(taps, j + 1);
            if i < whole {
                self.add_pair(m, j, i);
                j = next_tap(taps, i + 1);
            } else {
                self.add_column(m, j);
                j = i;
            }
        }
    }

    // The right side with the first tap's terms added, and then all columns.
    fn add_terms(self, m: &mut [f64])
        requires { (0 < length self.taps.now) × (self.mean + (self.b.to - self.b.from) ≤ self.b.rows) × readied self (length m.old) }
        ensures { Moved self.entry.b (column_of self.entry m.old) (side_of_pass self.entry m.old) m.old m.new }
    {
        let b = self.b;
        let u = self.u;
        let mean = self.mean;
        let count = b.to - b.from;
        let c = self.taps[0];
        let at = b.right + b.from;
        for t in 0..count {
            m[at + t] = m[at + t] + c * m[u + t] * m[mean + t];
        }
        self.add_columns(m);
    }

    // The rows and the right side with tap k's terms added, of a window whose frames' inverse variances and means lie from u and `mean` on.
    fn pass_tap(self, m: &mut [f64], k: usize)
        requires { (k < length self.taps.now) × passes self (length m.old) }
        ensures { Moved self.entry.b (tap_entry (window_of_pass self.entry m.old) k) (tap_side (window_of_pass self.entry m.old) k)
            m.old m.new }
    {
        let b = self.b;
        let c = self.taps[k];
        if c == 0.0 {
            return;
        }
        let s = b.standing(self.taps.len(), k);
        if s.to <= s.from {
            return;
        }
        let f = s.from + self.taps.len() / 2 - k;
        let few = b.n.min(self.taps.len() - k);
        let pass = Pass {
            taps: &self.taps[k..k + few],
            u: self.u + f,
            mean: self.mean + f,
            b: s,
        };
        pass.add_terms(m);
    }

    // And with all the window's terms: frames ascend where taps descend.
    fn pass_window(self, m: &mut [f64])
        requires { passes self (length m.old) }
        ensures { Moved self.entry.b (window_entry (window_of_pass self.entry m.old)) (window_side (window_of_pass self.entry m.old))
            m.old m.new }
    {
        for k in (0..self.taps.len()).rev() {
            self.pass_tap(m, k);
        }
    }
}

impl WindowSet<'_> {
    // A block's rows and right side with all windows' terms added, windows in order. The means are first, the inverse variances from place `ivars` on.
    fn pass_windows(self, m: &mut [f64], ivars: usize, b: Block)
        requires { Taps self.widths.now self.coefficients.now b.w × (ivars ≡ length self.widths.now * b.n) × (ivars + ivars ≤ b.rows) × Room b (length m.old) }
        ensures { Moved b (windows_entry (set_at self.entry ivars b.n m.old) (length self.entry.widths.now)) (windows_side (set_at self.entry ivars b.n m.old) (length self.entry.widths.now))
            m.old m.new }
    {
        let mut o = 0;
        let mut f = 0;
        for width in self.widths {
            let k = *width as usize;
            let window = Pass {
                taps: &self.coefficients[o..o + k],
                u: ivars + f,
                mean: f,
                b,
            };
            window.pass_window(m);
            o += k;
            f += b.n;
        }
    }

    // A block's rows and right side, from zero on.
    fn pass_block(self, m: &mut [f64], ivars: usize, b: Block)
        requires { (b.from ≤ b.to) × Taps self.widths.now self.coefficients.now b.w × (ivars ≡ length self.widths.now * b.n) × (ivars + ivars ≤ b.rows) × Room b (length m.old) }
        ensures { Moved b (whole_entry (set_at self.entry ivars b.n m.old)) (whole_side (set_at self.entry ivars b.n m.old)) m.old m.new }
    {
        clear(m, b.rows + b.from * b.w, b.rows + b.to * b.w);
        clear(m, b.right + b.from, b.right + b.to);
        self.pass_windows(m, ivars, b);
    }

    // A region's rows and right side, from the pairs that it holds.
    pub(crate) fn calc_wuw_and_wum(self, m: &mut [f64], g: Layout)
        requires { Taps self.widths.now self.coefficients.now g.w × (length self.widths.now ≡ g.windows) × (length m.old ≡ size_of g) }
        ensures { m.new ≡ flat (rowed_in self.entry.widths.now self.entry.coefficients.now g (region_in g m.old)) }
    {
        let p = g.places();
        let n = g.n as usize;
        let w = usize::from(g.w);
        for from in (0..n).step_by(BLOCK) {
            let to = n.min(from + BLOCK);
            let b = Block {
                rows: p.rows,
                right: p.right,
                n,
                w,
                from,
                to,
            };
            self.pass_block(m, p.ivars, b);
        }
    }
}
