// Closing up, state by state: a state's frames are voiced or unvoiced together, so that its numbers are read, and its variances inverted, once.
ghost use Rattle.std.specs.Prelude.{◌≡◌, ◌+◌, ◌-◌, ◌*◌, ◌<◌, ◌≤◌, length, drop, get_or};
ghost use Rattle.std.specs.Float.{nan};
ghost use Rattle.lists.specs.Totals.{total};
ghost use Rattle.model.specs.Pair.{ivar_of};
ghost use Rattle.region.specs.Region.{each_region};
ghost use Rattle.region.specs.Inner.Passes.{Across};
ghost use Rattle.voicing.specs.Mask.{mask_in};
ghost use Rattle.voicing.specs.Boundaries.{ahead};
ghost use Rattle.voicing.specs.Windows.{reach_before, reach_after};
ghost use Rattle.voicing.specs.Space.{paired_in};
ghost use Rattle.voicing.specs.Inner.Fits.{frame, Flagged, Paired};
ghost use Rattle.voicing.specs.Inner.States.{plan_of, shut_ends, ends_of, put_pair, put_pairs, StateFits};

use super::flags::{Frames, goes_on};
use model::mean_vari::MeanVari;
use model::voice::window::{left_width, right_width};
use region::{Group, Layout};

// How near to a run's begin and end the boundaries of a window reach.
#[derive(Clone, Copy)]
struct Reach {
    before: usize,
    after: usize,
}

// Window i's reach: the first window has no boundaries.
fn reach_of(widths: &[u32], i: usize) -> Reach
    requires { i < length widths.now }
    ensures { (result.before ≡ reach_before widths.now i) × (result.after ≡ reach_after widths.now i) }
{
    if i == 0 {
        return Reach {
            before: 0,
            after: 0,
        };
    }
    let width = widths[i] as usize;
    Reach {
        before: left_width(width),
        after: right_width(width),
    }
}

// d frames, of which the first `before` and the last `after` are near the ends of their run.
#[derive(Clone, Copy)]
struct Ends {
    d: usize,
    before: usize,
    after: usize,
}

// A state's inverse variance at each of its frames, but 0 near the ends; most states are near neither. `lists::fill` is one loop: a slice's own `fill` writes the
// last item behind its loop, which shows at the few frames that a state has.
fn fill_ivars(ivar: f64, e: Ends, out: &mut [f64])
    requires { length out.old ≡ e.d }
    ensures { out.new ≡ shut_ends e ivar }
{
    lists::fill(out, e.d, ivar);
    let first = e.before.min(e.d);
    let last = e.after.min(e.d);
    if first + last == 0 {
        return;
    }
    lists::fill(out, first, 0.0);
    lists::fill(&mut out[e.d - last..e.d], last, 0.0);
}

// A component's pair of a state and a window at the state's frames: the mean from place `at` of the region on, and from place `ivars` on the inverse variance.
fn put_pair(pair: MeanVari, e: Ends, at: usize, ivars: usize, region: &mut [f64])
    requires { (at + e.d ≤ length region.old) × (ivars + e.d ≤ length region.old) }
    ensures { region.new ≡ put_pair e at ivars pair.0 pair.1 region.old }
{
    lists::fill(&mut region[at..at + e.d], e.d, pair.0);
    fill_ivars(pair.1, e, &mut region[ivars..ivars + e.d]);
}

// What the pairs of all states have in common: components side by side, some of v; a variance stands `half` numbers behind its mean in a record; a region
// of `size` floats has n means a window and, from `ivars` on, as many inverse variances.
#[derive(Clone, Copy)]
struct Plan {
    v: usize,
    lanes: usize,
    half: usize,
    n: usize,
    ivars: usize,
    size: usize,
}

// A state's pairs of one window, each component's in its region: their means stand side by side in the records from `mean` on, and go to place `at` of a region.
fn close_window(records: &[f64], p: Plan, mean: usize, at: usize, e: Ends, work: &mut [f64])
    requires { (mean + p.half + p.lanes ≤ length records.now) × (at + e.d ≤ p.size) × (p.ivars + at + e.d ≤ p.size) × (p.lanes * p.size ≤ length work.old) }
    ensures { Across (λ l old new. new ≡ put_pair e at (p.ivars + at) (get_or records.now (mean + l) nan) (ivar_of (get_or records.now (mean + p.half + l) nan)) old)
        p.size p.lanes work.old work.new }
{
    let size = p.size;
    let vari = mean + p.half;
    let ivars = p.ivars + at;
    for l in 0..p.lanes {
        let from = l * size;
        let to = from + size;
        let inverted = MeanVari(records[mean + l], records[vari + l]).with_ivar();
        put_pair(inverted.pair, e, at, ivars, &mut work[from..to]);
    }
}

// The frames of a voiced state: d of them, at place k of the closed-up ones; the first stands `left` frames behind the begin of their run, the last `right` before its end.
#[derive(Clone, Copy)]
struct Span {
    d: usize,
    k: usize,
    left: usize,
    right: usize,
}

// What is left of window i's reach at the ends of a state's frames.
fn ends_of(widths: &[u32], i: usize, t: Span) -> Ends
    requires { i < length widths.now }
    ensures { result ≡ ends_of widths.now t i }
{
    let reach = reach_of(widths, i);
    Ends {
        d: t.d,
        before: reach.before.saturating_sub(t.left),
        after: reach.after.saturating_sub(t.right),
    }
}

// A state's pairs of all windows: the means stand in the records from `mean` on.
fn close_state(records: &[f64], p: Plan, mean: usize, widths: &[u32], t: Span, work: &mut [f64])
    requires { StateFits p (length widths.now) (length records.now) (length work.old) mean t }
    ensures { Across (λ l old new. new ≡ put_pairs records.now p mean widths.now t l (length widths.now) old)
        p.size p.lanes work.old work.new }
{
    for i in 0..widths.len() {
        let from = mean + i * p.v;
        let at = i * p.n + t.k;
        let e = ends_of(widths, i, t);
        close_window(records, p, from, at, e, work);
    }
}

fn plan_of(windows: usize, g: Layout, c: Group) -> Plan
    requires { (windows ≤ 4) × (c.v ≤ 64) }
    ensures { result ≡ plan_of windows g c }
{
    let p = g.places();
    Plan {
        v: c.v,
        lanes: c.lanes,
        half: c.v * windows,
        n: g.n as usize,
        ivars: p.ivars,
        size: p.size,
    }
}

// The pairs of each component are closed up in its region, state by state: a state's record is read once a group.
pub(crate) fn close_group(
    size: usize,
    records: &[f64],
    widths: &[u32],
    m: Frames,
    g: Layout,
    c: Group,
    work: &mut [f64],
)
    requires { Paired size (length records.now) (length widths.now) m.durations.now m.flags.now g c (length work.old) }
    ensures { work.new ≡ each_region g c.lanes
        (λ l. paired_in size records.now c.v widths.now (mask_in m.entry.durations.now m.entry.flags.now) m.entry.durations.now (c.first + l)) work.old }
{
    let p = plan_of(widths.len(), g, c);
    let first = c.first;
    let mut f = 0;
    let mut k = 0;
    let mut begin = 0;
    let mut end = 0;
    for (s, x) in m.durations.iter().enumerate() {
        let d = *x as usize;
        let next = f + d;
        if goes_on(m.flags, f, d) {
            end = m.run_end(end, s, f);
            let t = Span {
                d,
                k,
                left: f - begin,
                right: end - next,
            };
            close_state(records, p, s * size + first, widths, t, work);
            k += d;
        } else {
            begin = next;
        }
        f = next;
    }
}
