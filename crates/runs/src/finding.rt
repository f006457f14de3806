// Runs are found state by state: of a record only its weight is read.
ghost use Rattle.std.specs.Prelude.{◌≡◌, true, false, ◌+◌, ◌*◌, ◌≤◌, ◌<◌, length};
ghost use Rattle.model.specs.Weight.{voiced_at};
ghost use Rattle.model.specs.Record.{from_linear};
ghost use Rattle.runs.specs.Runs.{runs_of, pairs_of};
ghost use Rattle.runs.specs.Inner.Finding.{Stands, Reaches, FoundAt, turns_to};
ghost use Rattle.runs.specs.Inner.Lent.{mask_in};

use super::states::States;
use model::voice::model::msd;

// Where a walk along the states stands: at a state, and at its first frame.
#[derive(Clone, Copy)]
pub(crate) struct Place {
    pub(crate) state: usize,
    pub(crate) frame: usize,
}

// A run by the places where it begins and ends, which are one where there is none; and how many runs lie before it.
#[derive(Clone, Copy)]
pub(crate) struct Found {
    pub(crate) number: usize,
    pub(crate) begin: Place,
    pub(crate) end: Place,
}

impl Found {
    // How many frames it has.
    pub(crate) fn frames(self) -> usize
        requires { self.begin.frame ≤ self.end.frame }
        ensures { result + self.begin.frame ≡ self.end.frame }
    {
        self.end.frame - self.begin.frame
    }
}

// Whether a state has frames, and they are voiced or unvoiced as asked for.
fn turns(numbers: &[f64], threshold: f64, frames: u32, asked: bool) -> bool
    ensures { result ≡ turns_to asked (voiced_at threshold (from_linear numbers.now).msd) frames }
{
    if frames == 0 {
        return false;
    }
    if msd(numbers).voiced(threshold) {
        return asked;
    }
    !asked
}

impl States<'_> {
    // The first place from there on whose state has frames that are voiced, or unvoiced, as asked for; behind the last state where there is none.
    fn until(self, voiced: bool, from: Place) -> Place
        requires { Stands self.durations.now from }
        ensures { Reaches voiced self.entry.durations.now (mask_in self.entry) from result }
    {
        let size = self.voicing.size;
        let states = self.durations.len();
        let mut frame = from.frame;
        for state in from.state..states {
            let at = state * size;
            let frames = self.durations[state];
            if turns(
                &self.records[at..at + size],
                self.voicing.threshold,
                frames,
                voiced,
            ) {
                return Place { state, frame };
            }
            frame += frames as usize;
        }
        Place {
            state: states,
            frame,
        }
    }

    // The first run from a place on.
    fn next_run(self, from: Place, number: usize) -> Found
        requires { Stands self.durations.now from }
        ensures { (result.number ≡ number) × Reaches true self.entry.durations.now (mask_in self.entry) from result.begin
            × Reaches false self.entry.durations.now (mask_in self.entry) result.begin result.end }
    {
        let begin = self.until(true, from);
        let end = self.until(false, begin);
        Found { number, begin, end }
    }

    // The first run of all.
    fn first_run(self) -> Found
        ensures { (result.number ≡ 0) × FoundAt self.entry.durations.now (mask_in self.entry) result }
    {
        let start = Place { state: 0, frame: 0 };
        self.next_run(start, 0)
    }

    // Run number k; where there are no more than k, the place behind the last one, and how many there are.
    pub(crate) fn run_at(self, k: usize) -> Found
        ensures { FoundAt self.entry.durations.now (mask_in self.entry) result
            × (result.number ≤ k) × (result.number < k → result.end.frame ≡ result.begin.frame) }
    {
        let mut found = self.first_run();
        for number in 0..k {
            if found.frames() == 0 {
                return found;
            }
            found = self.next_run(found.end, number + 1);
        }
        found
    }

    // How many runs there are: no more than frames.
    pub(crate) fn count(self) -> usize
        ensures { result ≡ length (runs_of (mask_in self.entry)) }
    {
        let last = self.run_at(65_536);
        last.number
    }

    // The first frame and the frames of each run.
    pub(crate) fn write(self, out: &mut [u32])
        requires { length out.old ≡ 2 * length (runs_of (mask_in self)) }
        ensures { out.new ≡ pairs_of (runs_of (mask_in self.entry)) }
    {
        let mut found = self.first_run();
        for number in 0..out.len() / 2 {
            let at = 2 * number;
            out[at] = found.begin.frame as u32;
            out[at + 1] = found.frames() as u32;
            found = self.next_run(found.end, number + 1);
        }
    }
}
