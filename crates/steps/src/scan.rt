// The step rule by scans of all states: the way for few steps or few states.
ghost use Rattle.std.specs.Prelude.{◌≡◌, ◌<◌};
ghost use Rattle.lists.specs.Totals.{total};
ghost use Rattle.steps.specs.Steps.{size, least, keys, least_of, step};
ghost use Rattle.steps.specs.Lent.{lent};
ghost use Rattle.steps.specs.Inner.Scores.{key_at, keyed};
ghost use Rattle.steps.specs.Inner.Asked.{Ready, RoomFor};
ghost use Rattle.steps.specs.Inner.Rounds.{RoomForAll, stepped};

use crate::costs::{Entry, Way, better_of};

// The state at a place, with its key.
fn entry_of(way: Way, work: &[u32], p: usize) -> Entry
    requires ready { Ready (lent way.states) work.now }
    requires p_in_bounds { p < size (lent way.states) }
    ensures { result ≡ keyed (key_at way.entry.up way.entry.rho (lent way.entry.states) work.now) p }
{
    way.entry(p, work[p])
}

// The place of the state that a step changes.
fn least_of(way: Way, work: &[u32]) -> usize
    requires { Ready (lent way.states) work.now }
    ensures { result ≡ least_of (keys way.entry.up way.entry.rho (lent way.entry.states) work.now) }
{
    let mut best = entry_of(way, work, 0);
    for i in 1..work.len() {
        let next = entry_of(way, work, i);
        best = better_of(best, next);
    }
    best.place
}

fn step_once(way: Way, work: &mut [u32])
    requires ready { Ready (lent way.states) work.old }
    requires room_for { RoomFor way.up (least (lent way.states)) (total work.old) }
    ensures { work.new ≡ step way.entry.up way.entry.rho (lent way.entry.states) work.old }
{
    let i = least_of(way, work);
    work[i] = crate::moved_one(way.up, work[i]);
}

// Takes so many steps.
pub(crate) fn take_steps(way: Way, steps: u32, work: &mut [u32])
    requires ready { Ready (lent way.states) work.old }
    requires room { RoomForAll way.up (least (lent way.states)) (total work.old) steps }
    ensures { work.new ≡ stepped way.entry.up way.entry.rho (lent way.entry.states) work.old steps }
{
    for _ in 0..steps {
        step_once(way, work);
    }
}
