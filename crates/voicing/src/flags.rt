// The frames' flags, read state by state: a state's frames are voiced where the flag of its first frame says so.
ghost use Rattle.std.specs.Prelude.{◌≡◌, ◌+◌, ◌<◌, ◌≤◌, length, drop, get_or, replicate};
ghost use Rattle.std.proofs.lemmas.List.Edits.{sets};
ghost use Rattle.lists.specs.Totals.{total};
ghost use Rattle.lists.specs.Frames.{expand, select, count};
ghost use Rattle.voicing.specs.Boundaries.{ahead};
ghost use Rattle.voicing.specs.Mask.{mask_in};
ghost use Rattle.voicing.specs.Space.{flagged};
ghost use Rattle.voicing.specs.Inner.Fits.{frame, goes_on, Flagged, Switched};

// How many frames the states have.
pub(crate) fn frames_in(durations: &[u32]) -> usize
    requires { length durations.now ≤ 4096 }
    ensures { result ≡ total durations.now }
{
    lists::total_u32(durations) as usize
}

// Whether there are no more states and frames than allowed, and so many flags are enough.
pub(crate) fn flagged(durations: &[u32], flags: usize) -> bool
    ensures { result ≡ flagged durations.now flags }
{
    if 4096 < durations.len() {
        return false;
    }
    let frames = frames_in(durations);
    (frames <= 65_536) & (frames <= flags)
}

// Whether none of a state's d frames, from frame f on, is unvoiced.
pub(crate) fn goes_on(flags: &[u32], f: usize, d: usize) -> bool
    requires { f + d ≤ length flags.now }
    ensures { result ≡ goes_on flags.now f d }
{
    d == 0 || flags[f] != 0
}

// How many of them are voiced: all or none.
fn voiced_in(flags: &[u32], f: usize, d: usize) -> usize
    requires { f + d ≤ length flags.now }
    ensures { result ≡ count (replicate d (goes_on flags.now f d)) }
{
    if goes_on(flags, f, d) { d } else { 0 }
}

// The states' durations and their frames' flags: no more states and frames than allowed, and a flag a frame.
#[derive(Clone, Copy)]
pub(crate) struct Frames<'a> {
    pub(crate) durations: &'a [u32],
    pub(crate) flags: &'a [u32],
    ghost flagged: { Flagged durations.now (length flags.now) },
}

impl Frames<'_> {
    // How many frames are voiced.
    pub(crate) fn voiced(self) -> usize
        ensures { result ≡ count (mask_in self.entry.durations.now self.entry.flags.now) }
    {
        let mut f = 0;
        let mut n = 0;
        for x in self.durations {
            let d = *x as usize;
            n += voiced_in(self.flags, f, d);
            f += d;
        }
        n
    }

    // Where the run of voiced frames ends that frame f, the first of state s, is in. `end` is that place already where it lies behind f.
    pub(crate) fn run_end(self, end: usize, s: usize, f: usize) -> usize
        requires { (s ≤ length self.durations.now) × (f ≡ frame self.durations.now s)
            × (f < end → ahead (drop f (mask_in self.durations.now self.flags.now)) + f ≡ end) }
        ensures { result ≡ ahead (drop f (mask_in self.entry.durations.now self.entry.flags.now)) + f }
    {
        if f < end {
            return end;
        }
        let mut e = f;
        for x in &self.durations[s..] {
            let d = *x as usize;
            if !goes_on(self.flags, e, d) {
                return e;
            }
            e += d;
        }
        e
    }
}

// The voiced frames' switches, closed up behind the flags of all frames.
pub(crate) fn put_switches(durations: &[u32], switches: &[u8], frames: usize, flags: &mut [u32])
    requires { Switched durations.now (length switches.now) flags.old × (frames ≡ total durations.now) }
    ensures { flags.new ≡ sets flags.old frames (select (mask_in durations.now flags.old) (expand durations.now switches.now)) }
{
    let mut f = 0;
    let mut k = 0;
    for (x, switch) in durations.iter().zip(switches) {
        let d = *x as usize;
        let closed = voiced_in(flags, f, d);
        let from = frames + k;
        let to = from + closed;
        lists::fill(&mut flags[from..to], closed, u32::from(*switch));
        k += closed;
        f += d;
    }
}
