// The rows of the band and the right side of the paper's normal equations: as a call of their own, and from the pairs that regions of a work space hold.
#![tactic(auto)]

ghost use Rattle.std.specs.Prelude.{◌≡◌, [], ◌∷◌};
ghost use Rattle.lists.specs.Answers.{answer_of};
ghost use Rattle.lists.specs.Ends.{counted};
ghost use Rattle.band.specs.Promise.{frame_count, set_refusal, BandSays, opens, RowsSay};

use lists::Refusal;
use region::Layout;
use row::Pairs;

mod passes;
mod row;

// A set of windows: how long each is, and the coefficients of all, window after window.
#[derive(Clone, Copy)]
struct WindowSet<'a> {
    widths: &'a [u32],
    coefficients: &'a [f64],
}

impl WindowSet<'_> {
    // How many frames lists of so many means and inverse variances have, or why they are refused.
    fn frames(self, means: usize, ivars: usize) -> Result<u32, Refusal>
        ensures { counted result ≡ answer_of (set_refusal self.entry.widths.now self.entry.coefficients.now means ivars)
            (frame_count self.entry.widths.now means ∷ []) }
    {
        model::voice::window::check(self.widths, self.coefficients)?;
        let windows = self.widths.len();
        if means % windows != 0 {
            return Err(Refusal::ListsDisagree);
        }
        if ivars != means {
            return Err(Refusal::ListsDisagree);
        }
        let n = means / windows;
        if 65_536 < n {
            return Err(Refusal::TooManyFrames);
        }
        Ok(n as u32)
    }

    // Whether there are rows to be made: windows that the rules allow, a layout of theirs, and the regions within the list.
    fn opens(self, g: Layout, lanes: usize, floats: usize) -> bool
        ensures { result ≡ opens self.entry.widths.now self.entry.coefficients.now g lanes floats }
    {
        if !model::voice::window::widths_fit(self.widths) {
            return false;
        }
        if lists::total_u32(self.widths) != self.coefficients.len() as u64 {
            return false;
        }
        if self.widths.len() != usize::from(g.windows) {
            return false;
        }
        if model::voice::window::band_width(self.widths) != usize::from(g.w) {
            return false;
        }
        g.fits(lanes, floats)
    }
}

// The rows of the band and the right side of means / windows frames; means and inverse variances are window after window.
pub fn band_rows(
    widths: &[u32],
    coefficients: &[f64],
    means: &[f64],
    ivars: &[f64],
    rows: &mut [f64],
    right: &mut [f64],
) -> Result<u32, Refusal>
    ensures { BandSays widths.now coefficients.now means.now ivars.now rows.old right.old result rows.new right.new }
{
    let windows = WindowSet {
        widths,
        coefficients,
    };
    let frames = windows.frames(means.len(), ivars.len())?;
    let n = frames as usize;
    let w = model::voice::window::band_width(widths);
    let k = n * w;
    if rows.len() < k {
        return Err(Refusal::TooLittleRoom);
    }
    if right.len() < n {
        return Err(Refusal::TooLittleRoom);
    }
    let pairs = Pairs {
        windows,
        ivars,
        means,
        n,
    };
    pairs.write_rows(w, &mut rows[..k], &mut right[..n]);
    Ok(frames)
}

// The rows and the right side of each of so many components, from the pairs that its region holds; nothing where the windows or the lists don't fit.
pub fn calc_rows(widths: &[u32], coefficients: &[f64], g: Layout, lanes: usize, work: &mut [f64])
    ensures { RowsSay widths.now coefficients.now g lanes work.old work.new }
{
    let windows = WindowSet {
        widths,
        coefficients,
    };
    if !windows.opens(g, lanes, work.len()) {
        return;
    }
    let p = g.places();
    for l in 0..lanes {
        let o = l * p.size;
        windows.calc_wuw_and_wum(&mut work[o..o + p.size], g);
    }
}
