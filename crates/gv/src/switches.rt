// The frames that are switched, the sums over their values, and these values drawn apart.
ghost use Rattle.std.specs.Prelude.{◌≡◌, false, map, ◌<◌, length, get_or, Float};
ghost use Rattle.lists.specs.Build.{build};
ghost use Rattle.lists.specs.Frames.{select, count};
ghost use Rattle.lists.specs.Flags.{is_on};
ghost use Rattle.gv.specs.Gv.{sum_from_first, conv_at};
ghost use Rattle.gv.specs.Inner.Turns.{first_on};

// Whether frame t is switched.
pub(crate) fn is_switched(on: &[u32], t: usize) -> bool
    requires { t < length on.now }
    ensures { result ≡ get_or (map is_on on.now) t false }
{
    on[t] != 0
}

// How many frames are switched.
pub(crate) fn count_on(on: &[u32]) -> usize
    ensures { result ≡ count (map is_on on.now) }
{
    on.iter().filter(|b| **b != 0).count()
}

// The first of them, or the end.
pub(crate) fn first_on(on: &[u32]) -> usize
    ensures { result ≡ first_on (map is_on on.now) }
{
    on.iter().position(|b| *b != 0).unwrap_or(on.len())
}

// The sum of the terms of the switched values, which starts with that of the first of them. Only a switched value is read: so the branch stays one, and the sum
// waits for additions alone.
pub(crate) fn switched_sum<F: Fn(f64) -> f64>(par: &[f64], on: &[u32], first: usize, term: F) -> f64
    requires callable { F.IsAlwaysCallable term }
    requires lists { (length on.now ≡ length par.now) × (first ≡ first_on (map is_on on.now)) × (first < length on.now) }
    ensures { (f : Float → Float) → ((x y : Float) → F.post term x y → y ≡ f x) → result ≡ sum_from_first f (select (map is_on on.now) par.now) }
{
    let mut sum = term(par[first]);
    for t in first + 1..par.len() {
        if is_switched(on, t) {
            sum += term(par[t]);
        }
    }
    sum
}

// Value t, drawn apart from the mean if it is switched.
fn conv_at(par: &[f64], on: &[u32], t: usize, mean: f64, ratio: f64) -> f64
    requires { (length on.now ≡ length par.now) × (t < length par.now) }
    ensures { result ≡ conv_at (map is_on on.now) mean ratio par.now t }
{
    let x = par[t];
    if is_switched(on, t) {
        return ratio * (x - mean) + mean;
    }
    x
}

// Each switched value drawn apart.
pub(crate) fn rescale(par: &mut [f64], on: &[u32], mean: f64, ratio: f64)
    requires { length on.now ≡ length par.old }
    ensures { par.new ≡ build (conv_at (map is_on on.now) mean ratio par.old) (length par.old) }
{
    for t in 0..par.len() {
        let x = conv_at(par, on, t, mean, ratio);
        par[t] = x;
    }
}
