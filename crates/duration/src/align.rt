// Alignment: labels with an end close groups of states, and the states after the last of them are the tail.
ghost use Rattle.std.specs.Prelude.{◌≡◌, [], ◌∷◌, ◌≤◌, ◌<◌, length};
ghost use Rattle.steps.specs.Lent.{lent};
ghost use Rattle.duration.specs.Align.{label_of, given, tail, states_in, groups, fit_along, refusal_along};
ghost use Rattle.lists.specs.Ends.{counted};
ghost use Rattle.duration.specs.Inner.Asked.{InPlace, Lies, closed, grown, Closes, Labelled};

use crate::fit::{estimate_duration, fit};
use lists::Refusal;
use steps::States;

// A label's end: a time in frames, or open.
#[derive(Clone, Copy)]
pub(crate) enum End {
    At(f64),
    Open,
}

// A label's first state, and its end.
#[derive(Clone, Copy)]
pub(crate) struct Label {
    pub(crate) first: usize,
    pub(crate) end: End,
}

impl Label {
    pub(crate) fn new(first: usize, end: f64) -> Self
        ensures { result ≡ label_of first end }
    {
        if end >= 0.0 {
            return Label {
                first,
                end: End::At(end),
            };
        }
        Label {
            first,
            end: End::Open,
        }
    }
}

// A group's unit changes and frames.
#[derive(Clone, Copy)]
pub(crate) struct Grown {
    pub(crate) changes: u32,
    pub(crate) frames: u32,
}

// The states from one place up to another.
fn part(states: States<'_>, from: usize, to: usize) -> States<'_>
    requires order { from ≤ to }
    requires means { to ≤ length states.means.now }
    requires varis { to ≤ length states.varis.now }
    requires shortest { to ≤ length states.shortest.now }
    ensures { lent result ≡ states_in (tail from to) (lent states.entry) }
{
    States {
        means: &states.means[from..to],
        varis: &states.varis[from..to],
        shortest: &states.shortest[from..to],
    }
}

// Fits the states from one place up to another to the end that they are given, after so many frames, in their place in work. A fit comes to its target, or
// to the sum of the shortest, so that its frames need not be counted.
fn close_group(
    states: States,
    from: usize,
    to: usize,
    end: f64,
    frames: u32,
    work: &mut [u32],
) -> Result<Grown, Refusal>
    requires lies { Lies (lent states) work.old (given from to end) frames }
    requires from_lt_to { from < to }
    ensures { Closes (lent states.entry) (given from to end) frames work.old (grown (lent states.entry) (given from to end) frames) (closed result) work.new }
{
    let target = floats::rounded(end - (frames as f64));
    let group = part(states, from, to);
    let low = lists::total_u32(group.shortest) as u32;
    let answer = fit(group, low, target, &mut work[from..to]);
    let Ok(changes) = answer else {
        return Err(answer.unwrap_err());
    };
    let sum = target.max(low);
    if sum > 65_536 - frames {
        return Err(Refusal::EstimateTooLong);
    }
    Ok(Grown {
        changes,
        frames: sum,
    })
}

// Gives the states from one place up to another, the tail, their natural durations, after so many frames, in their place in work.
// The answer is the alignment's, with the changes that there were.
fn close_tail(
    states: States,
    from: usize,
    to: usize,
    frames: u32,
    changes: u32,
    work: &mut [u32],
) -> Result<u32, Refusal>
    requires { Lies (lent states) work.old (tail from to) frames }
    ensures { Closes (lent states.entry) (tail from to) frames work.old (changes ∷ []) (counted result) work.new }
{
    if from == to {
        return Ok(changes);
    }
    let sum = estimate_duration(part(states, from, to), 0.0, &mut work[from..to]);
    if sum > u64::from(65_536 - frames) {
        return Err(Refusal::EstimateTooLong);
    }
    Ok(changes)
}

// Fits each group of labels to its end, in place in work, and then the tail, and counts the unit changes.
pub(crate) fn fit_along(
    states: States,
    nstate: usize,
    ends: &[f64],
    work: &mut [u32],
) -> Result<u32, Refusal>
    requires { Labelled (lent states) nstate ends.now work.old }
    ensures { InPlace (refusal_along (lent states.entry) (groups nstate 0 0 ends.now) 0) (fit_along (lent states.entry) (groups nstate 0 0 ends.now) 0) result work.new }
{
    let mut done = 0;
    let mut first = 0;
    let mut frames: u32 = 0;
    let mut changes: u32 = 0;
    for end in ends {
        let label = Label::new(first, *end);
        first = label.first + nstate;
        let end = label.end;
        match end {
            End::Open => {}
            End::At(time) => {
                let answer = close_group(states, done, first, time, frames, work);
                let Ok(group) = answer else {
                    return Err(answer.unwrap_err());
                };
                changes += group.changes;
                frames += group.frames;
                done = first;
            }
        }
    }
    close_tail(states, done, first, frames, changes, work)
}
