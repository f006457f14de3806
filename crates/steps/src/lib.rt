// The step rule: one frame at a time, to the state of least cost, until the states' total is the target.
#![tactic(auto)]

ghost use Rattle.std.specs.Prelude.{◌≡◌, ◌≤◌, ◌<◌, length, MatchOption};
ghost use Rattle.lists.specs.Sizes.{most_frames, most_states};
ghost use Rattle.lists.specs.Totals.{total};
ghost use Rattle.steps.specs.Steps.{states, moved, settle};
ghost use Rattle.steps.specs.Lent.{lent};
ghost use Rattle.steps.specs.Promise.{fit_together, in_reach, SettleSays};
ghost use Rattle.steps.specs.Inner.Asked.{Ready, MayMove, Aim, FoundLone};

use costs::Way;

mod costs;
mod pack;
mod scan;
mod tree;

// States as they are lent: a list of each.
#[derive(Clone, Copy)]
pub struct States<'a> {
    pub means: &'a [f64],
    pub varis: &'a [f64],
    pub shortest: &'a [u32],
}

fn moved_one(up: bool, d: u32) -> u32
    requires { MayMove up d }
    ensures { result ≡ moved up d }
{
    if up {
        return d + 1;
    }
    d - 1
}

// The only state above its shortest; none where there is no such state, or more than one.
fn lone(shortest: &[u32], work: &[u32]) -> Option<usize>
    requires { length shortest.now ≡ length work.now }
    ensures { FoundLone shortest.now work.now result }
{
    let mut place = None;
    for i in 0..work.len() {
        if work[i] > shortest[i] {
            if place.is_some() {
                return None;
            }
            place = Some(i);
        }
    }
    place
}

// Whether scans of all states take less time than a tournament, as measured.
fn is_short(steps: u32, states: usize) -> bool {
    if states <= 12 {
        return true;
    }
    if states <= 24 {
        return steps <= 16;
    }
    steps <= 7
}

// Steps until the total is the target, and how many.
fn settle_from(sum: u32, target: u32, rho: f64, states: States, work: &mut [u32]) -> u32
    requires ready { Ready (lent states) work.old }
    requires aim { Aim (lent states) work.old sum target }
    ensures { settle most_frames rho (lent states.entry) target work.old ≡ record { durations = work.new; changes = result } }
{
    let steps = sum.abs_diff(target);
    if sum > target {
        if let Some(p) = lone(states.shortest, work) {
            work[p] -= steps;
            return steps;
        }
    }
    let way = Way {
        up: sum < target,
        rho,
        states,
    };
    if is_short(steps, work.len()) {
        scan::take_steps(way, steps, work);
        return steps;
    }
    tree::take_steps(way, steps, work);
    steps
}

// Whether the lists fit together: all but the first are lengths too.
fn fit_together(states: usize, varis: usize, shortest: usize, work: usize) -> bool
    ensures { result ≡ fit_together states varis shortest work }
{
    (0 < states) & (states <= 4096) & (varis == states) & (shortest == states) & (work == states)
}

// Whether a target is above the sum of the shortest, and within 65,536 frames.
fn in_reach(sum: u64, target: u32) -> bool
    ensures { result ≡ in_reach sum target }
{
    (sum < target as u64) & (target <= 65_536)
}

// The totals of two lists of as many numbers, in one pass.
#[derive(Clone, Copy)]
struct Totals {
    shortest: u64,
    work: u64,
}

fn totals_of(shortest: &[u32], work: &[u32]) -> Totals
    requires { (length shortest.now ≡ length work.now) × (length work.now ≤ most_states) }
    ensures { (result.shortest ≡ total shortest.now) × (result.work ≡ total work.now) }
{
    let mut least = 0;
    let mut sum = 0;
    for i in 0..work.len() {
        least += u64::from(shortest[i]);
        sum += u64::from(work[i]);
    }
    Totals {
        shortest: least,
        work: sum,
    }
}

// Steps until the states' total is the target, and how many: `None` from more than 65,536 frames. No step is taken where the lists and the target don't fit.
pub fn settle(
    rho: f64,
    target: u32,
    means: &[f64],
    varis: &[f64],
    shortest: &[u32],
    work: &mut [u32],
) -> Option<u32>
    ensures { SettleSays rho target (states means.now varis.now shortest.now) work.old result work.new }
{
    if !fit_together(means.len(), varis.len(), shortest.len(), work.len()) {
        return Some(0);
    }
    let totals = totals_of(shortest, work);
    if !in_reach(totals.shortest, target) {
        return Some(0);
    }
    if totals.work > 65_536 {
        return None;
    }
    let states = States {
        means,
        varis,
        shortest,
    };
    Some(settle_from(totals.work as u32, target, rho, states, work))
}
