// Which frames of a stream are voiced, and what follows: the voiced frames are closed up for the solver, and their values are filled back.
#![tactic(auto)]

ghost use Rattle.std.specs.Prelude.{◌≡◌, length};
ghost use Rattle.voicing.specs.Space.{components_fit, grouped, MarkSays, SwitchesSay, CloseSays, FillSays};
ghost use Rattle.voicing.specs.Inner.Fits.{pairs_fit};

use closing::close_group;
use filling::fill_group;
use flags::{Frames, flagged, frames_in, put_switches};
use region::{Group, Layout};

mod closing;
mod filling;
mod flags;
pub mod mask;

// How states are voiced: by the weights of their records, of `size` numbers each.
#[derive(Clone, Copy, Debug, PartialEq)]
pub struct Voicing {
    pub size: usize,
    pub threshold: f64,
}

// The frames' flags, each state's voicing derived from its record once, and how many frames are voiced. Where the lists don't fit, nothing.
pub fn mark(records: &[f64], u: Voicing, durations: &[u32], flags: &mut [u32]) -> usize
    ensures { MarkSays u records.now durations.now flags.old result flags.new }
{
    let recorded = lists::has_room(durations.len(), u.size, records.len());
    if !(flagged(durations, flags.len()) & recorded) {
        return 0;
    }
    let n = frames_in(durations);
    mask::mark_states(records, u, durations, &mut flags[..n]);
    Frames { durations, flags }.voiced()
}

// The voiced frames' switches, closed up behind the frames' flags. Where the lists don't fit, nothing.
pub fn mark_switches(durations: &[u32], switches: &[u8], flags: &mut [u32])
    ensures { SwitchesSay durations.now switches.now flags.old flags.new }
{
    if !flagged(durations, flags.len()) {
        return;
    }
    let frames = frames_in(durations);
    let end = frames + Frames { durations, flags }.voiced();
    if !((switches.len() == durations.len()) & (end <= flags.len())) {
        return;
    }
    put_switches(durations, switches, frames, flags);
}

// Whether the components of a group are some of v.
fn components_fit(c: Group) -> bool
    ensures { result ≡ components_fit c }
{
    (c.v <= 64) & (c.first <= c.v) & (c.lanes <= c.v.saturating_sub(c.first))
}

// Whether there is a flag a frame, as many are voiced as the layout says, and the group's regions lie within so many floats.
fn grouped(m: Frames, g: Layout, c: Group, floats: usize) -> bool
    ensures { result ≡ grouped m.entry.durations.now m.entry.flags.now g c floats }
{
    (m.voiced() == g.n as usize) & components_fit(c) & g.fits(c.lanes, floats)
}

// Whether there is a record a state, of so many numbers, with the pairs of so many windows.
fn pairs_fit(
    size: usize,
    records: usize,
    windows: usize,
    states: usize,
    g: Layout,
    v: usize,
) -> bool
    ensures { result ≡ pairs_fit size records windows states g v }
{
    let paired = lists::has_room(windows, v, size / 2);
    let recorded = lists::has_room(states, size, records);
    (windows == usize::from(g.windows)) & (windows <= 4) & paired & recorded
}

// The pairs of the voiced frames, closed up in the regions of a group, and zeroed near the ends of runs. Where the lists don't fit, nothing.
pub fn close_up(
    size: usize,
    records: &[f64],
    widths: &[u32],
    durations: &[u32],
    flags: &[u32],
    g: Layout,
    c: Group,
    work: &mut [f64],
)
    ensures { CloseSays size records.now widths.now durations.now flags.now g c work.old work.new }
{
    if !flagged(durations, flags.len()) {
        return;
    }
    let m = Frames { durations, flags };
    let lies = grouped(m, g, c, work.len());
    if lies & pairs_fit(size, records.len(), widths.len(), durations.len(), g, c.v) {
        close_group(size, records, widths, m, g, c, work);
    }
}

// The values of a group's regions, filled back into the trajectory: `none` at unvoiced frames. Where the lists don't fit, nothing.
pub fn fill_back(
    none: f64,
    durations: &[u32],
    flags: &[u32],
    g: Layout,
    c: Group,
    work: &[f64],
    out: &mut [f64],
)
    ensures { FillSays none durations.now flags.now g c work.now out.old out.new }
{
    if !flagged(durations, flags.len()) {
        return;
    }
    let m = Frames { durations, flags };
    if grouped(m, g, c, work.len()) && out.len() == frames_in(durations) * c.v {
        fill_group(none, m, g, c, work, out);
    }
}
