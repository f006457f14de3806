// The rows of the band and the right side beside them, row by row over flat lists.
ghost use Rattle.std.specs.Prelude.{◌≡◌, ◌+◌, ◌-◌, ◌*◌, ◌/◌, ◌<◌, ◌≤◌, length, get_or};
ghost use Rattle.lists.specs.Build.{build, over};
ghost use Rattle.floats.specs.Numbers.{nought};
ghost use Rattle.region.specs.Rows.{elem};
ghost use Rattle.band.specs.Paper.{plus_term, band_rows, right_side};
ghost use Rattle.band.specs.Inner.Fits.{on_row};
ghost use Rattle.band.specs.Inner.Sets.{term_in, right_in, frames, Fitting, row_in, side_in};

use super::WindowSet;

// One window: its taps, and the inverse variances and means of its frames.
#[derive(Clone, Copy)]
struct Window<'a> {
    taps: &'a [f64],
    ivars: &'a [f64],
    means: &'a [f64],
}

// The inverse variances and means of n frames, window after window.
#[derive(Clone, Copy)]
pub(crate) struct Pairs<'a> {
    pub windows: WindowSet<'a>,
    pub ivars: &'a [f64],
    pub means: &'a [f64],
    pub n: usize,
}

// y with wu times the tap c added, unless c is zero.
fn add_tap(wu: f64, c: f64, y: f64) -> f64
    ensures { result ≡ plus_term wu c y }
{
    if c == 0.0 { y } else { y + wu * c }
}

// A row with wu times the taps added.
fn add_taps(wu: f64, taps: &[f64], row: &mut [f64])
    requires { length taps.now ≤ length row.old }
    ensures { row.new ≡ build (λ j. plus_term wu (get_or taps.now j nought) (elem row.old j)) (length row.old) }
{
    for (j, tap) in taps.iter().enumerate() {
        row[j] = add_tap(wu, *tap, row[j]);
    }
}

impl Window<'_> {
    // Row t and the right side at t with frame f's terms added.
    fn add_frame(self, t: usize, f: usize, row: &mut [f64], right: f64) -> f64
        requires t_in_bounds { (t < frames self) × (f < frames self) × (length self.means.now ≡ frames self) × (length self.taps.now ≤ length row.old) }
        requires f_bound { (f ≤ t + length self.taps.now / 2)
            × (t + length self.taps.now / 2 - f < length self.taps.now) }
        ensures { (row.new ≡ on_row (frames self.entry) t (λ s. term_in self.entry t s f) row.old)
            × (result ≡ right_in self.entry t f right) }
    {
        let k = t + self.taps.len() / 2 - f;
        let c = self.taps[k];
        if c == 0.0 {
            return right;
        }
        let wu = c * self.ivars[f];
        // The taps that have a column. (Where the last of them has none, the Rust breaks off before it has added the others.)
        let m = (self.taps.len() - k).min(self.ivars.len() - t);
        add_taps(wu, &self.taps[k..k + m], row);
        right + wu * self.means[f]
    }

    // Row t and the right side at t with the window's terms added, over the frames that its taps reach.
    fn add(self, t: usize, row: &mut [f64], right: f64) -> f64
        requires { (t < frames self) × (length self.means.now ≡ frames self) × (length self.taps.now ≤ length row.old) }
        ensures { (row.new ≡ on_row (frames self.entry) t (λ s. over (term_in self.entry t s) (frames self.entry)) row.old)
            × (result ≡ over (right_in self.entry t) (frames self.entry) right) }
    {
        let last = t + self.taps.len() / 2 + 1;
        let first = last - self.taps.len().min(last);
        let end = self.ivars.len().min(last);
        let mut sum = right;
        for f in first..end {
            sum = self.add_frame(t, f, row, sum);
        }
        sum
    }
}

// Each number as it is handed out.
fn settle(row: &mut [f64])
    ensures { row.new ≡ row.old }
{
    for x in row.iter_mut() {
        *x = floats::one_nan(*x);
    }
}

impl Pairs<'_> {
    // Row t and the right side at t, over all windows in order.
    fn row(self, t: usize, row: &mut [f64]) -> f64
        requires { (t < self.n) × Fitting self (length row.old) }
        ensures { (row.new ≡ row_in self.entry (length row.old) t) × (result ≡ side_in self.entry t) }
    {
        row.fill(0.0);
        let n = self.n;
        let mut right = 0.0;
        let mut o = 0;
        let mut b = 0;
        for width in self.windows.widths {
            let m = *width as usize;
            let window = Window {
                taps: &self.windows.coefficients[o..o + m],
                ivars: &self.ivars[b..b + n],
                means: &self.means[b..b + n],
            };
            right = window.add(t, row, right);
            o += m;
            b += n;
        }
        right
    }

    // The same, to be handed out.
    fn settled_row(self, t: usize, row: &mut [f64]) -> f64
        requires { (t < self.n) × Fitting self (length row.old) }
        ensures { (row.new ≡ row_in self.entry (length row.old) t) × (result ≡ side_in self.entry t) }
    {
        let x = self.row(t, row);
        settle(row);
        floats::one_nan(x)
    }

    // All rows, w numbers each, and the right side.
    pub(crate) fn write_rows(self, w: usize, rows: &mut [f64], right: &mut [f64])
        requires { Fitting self w × (length rows.old ≡ self.n * w) × (length right.old ≡ self.n) }
        ensures { (rows.new ≡ band_rows self.entry.windows.widths.now self.entry.windows.coefficients.now self.entry.n self.entry.ivars.now w)
            × (right.new ≡ right_side self.entry.windows.widths.now self.entry.windows.coefficients.now self.entry.n self.entry.ivars.now self.entry.means.now) }
    {
        for t in 0..self.n {
            let b = t * w;
            let row = &mut rows[b..b + w];
            right[t] = self.settled_row(t, row);
        }
    }
}
