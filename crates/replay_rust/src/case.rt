// The parts of a case, and what several kinds leave.
ghost use Rattle.std.specs.Prelude.{◌<◌};

use replay::{OUT, WORK};

// A number of the head.
pub(crate) fn number(head: &[u32], place: usize) -> u32 {
    replay::at(head, place, 0)
}

// A list's count.
pub(crate) fn count(head: &[u32], place: usize) -> usize
    ensures { result < 4294967296 }
{
    replay::at(head, place, 0) as usize
}

pub(crate) fn float(floats: &[f64], place: usize) -> f64 {
    replay::at(floats, place, 0.0)
}

// Whether a call left these durations, and a work space of so many states zeroed, with everything beyond as it was.
pub(crate) fn left(out: &[u32; 20], work: &[u32; 20], states: usize, durations: &[u32]) -> bool {
    let mut zeroed = [WORK; 20];
    lists::fill(&mut zeroed, states, 0);
    replay::holds(out, durations, OUT) & replay::holds(work, &zeroed, WORK)
}
