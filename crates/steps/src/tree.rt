// The step rule by a tournament: a step changes one state, and plays again only the nodes above it.
ghost use Rattle.std.specs.Prelude.{◌≡◌, ◌+◌, ◌/◌, ◌<◌};
ghost use Rattle.lists.specs.Totals.{total};
ghost use Rattle.steps.specs.Steps.{size, least};
ghost use Rattle.steps.specs.Lent.{lent};
ghost use Rattle.steps.specs.Inner.Scores.{key_at, scores, keyed};
ghost use Rattle.steps.specs.Inner.Tree.{node, Path};
ghost use Rattle.steps.specs.Inner.Pack.{lows, highs};
ghost use Rattle.steps.specs.Inner.Asked.{Ready, RoomFor, Standing, Plays, Stepped};
ghost use Rattle.steps.specs.Inner.Rounds.{RoomForAll, stepped};

use crate::costs::{Entry, Way, sooner_of};
use crate::pack::{duration_at, place_at, put_duration, put_place, unpack};

// The state at a node, with its key.
fn entry_at(way: Way, work: &[u32], i: usize) -> Entry
    requires ready { Ready (lent way.states) (lows work.now) }
    requires i_in_bounds { node (highs work.now) i < size (lent way.states) }
    ensures { result ≡ keyed (key_at way.entry.up way.entry.rho (lent way.entry.states) (lows work.now)) (node (highs work.now) i) }
{
    let place = place_at(work, i);
    way.entry(place, duration_at(work, place))
}

// Plays all nodes, from the last to the root. It stands by itself: within a fit its loop would run short of registers.
#[inline(never)]
fn play_all(way: Way, work: &mut [u32])
    requires { Ready (lent way.states) (lows work.old) }
    ensures { Plays way.entry.up way.entry.rho (lent way.entry.states) work.old work.new }
{
    for i in (1..work.len()).rev() {
        let left = entry_at(way, work, 2 * i);
        let right = entry_at(way, work, 2 * i + 1);
        let winner = sooner_of(left, right);
        put_place(work, i, winner.place);
    }
}

// Plays the nodes above the place p again, up to the root. The winner's key is carried up, so that a node works out one.
fn play_above(way: Way, work: &mut [u32], p: usize)
    requires ready { Ready (lent way.states) (lows work.old) }
    requires p_in_bounds { p < size (lent way.states) }
    requires path { Path (scores (key_at way.up way.rho (lent way.states) (lows work.old))) (highs work.old) ((size (lent way.states) + p) / 2) }
    ensures { Plays way.entry.up way.entry.rho (lent way.entry.states) work.old work.new }
{
    let mut i = work.len() + p;
    let mut winner = entry_at(way, work, i);
    // from a node to the one above it: no range
    while i > 1 {
        let other = entry_at(way, work, i + 1 - 2 * (i % 2));
        winner = sooner_of(winner, other);
        i = i / 2;
        put_place(work, i, winner.place);
    }
}

// One step, of the state at the root.
fn step_once(way: Way, work: &mut [u32])
    requires ready { Ready (lent way.states) (lows work.old) }
    requires room_for { RoomFor way.up (least (lent way.states)) (total (lows work.old)) }
    requires standing { Standing way.up way.rho (lent way.states) work.old }
    ensures { Stepped way.entry.up way.entry.rho (lent way.entry.states) work.old work.new }
{
    let p = place_at(work, 1);
    let d = crate::moved_one(way.up, duration_at(work, p));
    put_duration(work, p, d);
    play_above(way, work, p);
}

// Takes so many steps.
pub(crate) fn take_steps(way: Way, steps: u32, work: &mut [u32])
    requires ready { Ready (lent way.states) work.old }
    requires room { RoomForAll way.up (least (lent way.states)) (total work.old) steps }
    ensures { work.new ≡ stepped way.entry.up way.entry.rho (lent way.entry.states) work.old steps }
{
    play_all(way, work);
    for _ in 0..steps {
        step_once(way, work);
    }
    unpack(work);
}
