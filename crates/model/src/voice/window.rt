// Window sets: how long each window is, and the coefficients in one list, window after window.
// A set has four windows at most, so the answers on one window look at the first four widths.
ghost use Rattle.std.specs.Prelude.{◌≡◌, take};
ghost use Rattle.lists.specs.Ends.{refused};
ghost use Rattle.lists.specs.Parts.{PartSays};
ghost use Rattle.model.specs.Windows.{between, all_of, widths_fit, all_finite, window_refusal, longest, max_width, band_width, left_width, right_width, width_of, window_start};

use lists::Refusal;

// Whether a set is accepted, or why not.
#[tactic(auto, unfolding(crate::specs::Windows::window_refusal))]
pub fn check(widths: &[u32], coefficients: &[f64]) -> Result<(), Refusal>
    ensures { refused result ≡ window_refusal widths.now coefficients.now }
{
    if !widths_fit(widths) {
        return Err(Refusal::BadWindows);
    }
    if !all_finite(coefficients) {
        return Err(Refusal::BadCoefficient);
    }
    if lists::total_u32(widths) != coefficients.len() as u64 {
        return Err(Refusal::ListsDisagree);
    }
    Ok(())
}

// Whether there are 1 to 4 windows, each 1 to 15 long.
#[tactic(auto, unfolding(crate::specs::Windows::widths_fit))]
pub fn widths_fit(widths: &[u32]) -> bool
    ensures { result ≡ widths_fit widths.now }
{
    if !is_between(1, 4, widths.len()) {
        return false;
    }
    each_width_fits(widths)
}

fn each_width_fits(widths: &[u32]) -> bool
    ensures { result ≡ all_of (between 1 15) widths.now }
{
    widths
        .iter()
        .all(|width| is_between(1, 15, *width as usize))
}

fn is_between(low: usize, high: usize, n: usize) -> bool
    ensures { result ≡ between low high n }
{
    (low <= n) & (n <= high)
}

// Whether no coefficient is infinite or NaN.
pub fn all_finite(coefficients: &[f64]) -> bool
    ensures { result ≡ all_finite coefficients.now }
{
    coefficients.iter().all(|x| x.is_finite())
}

// The longest window's length.
fn longest_of(widths: &[u32]) -> usize
    ensures { result ≡ longest widths.now }
{
    let mut found = 0;
    for width in widths {
        found = found.max(*width as usize);
    }
    found
}

// How far the longest window reaches to either side.
pub fn max_width(widths: &[u32]) -> usize
    ensures { result ≡ max_width widths.now }
{
    longest_of(widths) / 2
}

// The width of the band matrix.
pub fn band_width(widths: &[u32]) -> usize
    ensures { result ≡ band_width widths.now }
{
    2 * (longest_of(widths) / 2) + 1
}

// How many of a window's coefficients stand before the middle one.
pub fn left_width(width: usize) -> usize
    ensures { result ≡ left_width width }
{
    width / 2
}

// How many stand after it: none in a window of none.
pub fn right_width(width: usize) -> usize
    ensures { result ≡ right_width width }
{
    if width < 1 {
        return 0;
    }
    width - width / 2 - 1
}

// Window i's length, and 0 where there is no such window.
pub fn width(widths: &[u32], i: usize) -> usize
    ensures { result ≡ width_of (take 4 widths.now) i }
{
    if i < widths.len().min(4) {
        return widths[i] as usize;
    }
    0
}

// Where window i's coefficients begin.
pub fn start(widths: &[u32], i: usize) -> usize
    ensures { result ≡ window_start (take 4 widths.now) i }
{
    let before = i.min(4).min(widths.len());
    lists::total_u32(&widths[..before]) as usize
}

// Window i's coefficients: a part of the lent list itself, empty where there is no such window.
pub fn coefficients_of<'a>(widths: &[u32], coefficients: &'a [f64], i: usize) -> &'a [f64]
    ensures { PartSays 8 coefficients.entry (window_start (take 4 widths.now) i) (width_of (take 4 widths.now) i) result }
{
    lists::part(coefficients, start(widths, i), width(widths, i))
}
