// Where a trajectory's numbers stand in the spool, and the part of a trajectory that one state has.
#![tactic(auto)]

ghost use Rattle.std.specs.Prelude.{◌≡◌, ◌*◌, ◌^◌, ◌≤◌, ◌<◌, length};
ghost use Rattle.spool.specs.Place.{number_of};
ghost use Rattle.lists.specs.Sizes.{outside};
ghost use Rattle.lists.specs.Ends.{refused};
ghost use Rattle.spool.specs.Refusal.{states_refusal, counts_refusal, frames_refusal, shape_refusal, durations_refusal, trajectory_refusal, excerpt_refusal};
ghost use Rattle.spool.specs.Promise.{PlaceSays, SpanSays, ExcerptSays};
ghost use Rattle.spool.specs.Inner.Sums.{Summed};

use lists::{Refusal, Span};

// The byte place of a frame's component. In 32 bits it would wrap after 4 GiB.
pub fn place(frame: u32, component: u32, v: u32) -> Result<u64, Refusal>
    ensures { PlaceSays frame component v result }
{
    if out_of_range(v) {
        return Err(Refusal::BadSize);
    }
    if v <= component {
        return Err(Refusal::NoSuchPlace);
    }
    Ok(number_of(u64::from(frame), u64::from(component), u64::from(v)) * 8)
}

// The part of the lent trajectory that a state has; the empty part of it on a refusal.
pub fn excerpt<'a>(trajectory: &'a [f64], durations: &[u32], v: u32, state: u32) -> &'a [f64]
    ensures { ExcerptSays trajectory.entry durations.now v state result }
{
    let Ok(span) = excerpt_span(trajectory, durations, v, state) else {
        return &trajectory[..0];
    };
    let start = span.first as usize;
    let end = start + span.count as usize;
    &trajectory[start..end]
}

// Why `excerpt` refuses the same inputs, if it does: a state of 0 frames has the empty part too.
pub fn check_excerpt(
    trajectory: &[f64],
    durations: &[u32],
    v: u32,
    state: u32,
) -> Result<(), Refusal>
    ensures { refused result ≡ excerpt_refusal (length trajectory.now) durations.now v state }
{
    excerpt_span(trajectory, durations, v, state).map(|_span| ())
}

// The excerpt by its numbers' places, for callers that can't be handed a part of a list.
pub fn excerpt_span(
    trajectory: &[f64],
    durations: &[u32],
    v: u32,
    state: u32,
) -> Result<Span, Refusal>
    ensures { SpanSays trajectory.now durations.now v state result }
{
    let states = durations.len();
    check_counts(states, v)?;
    // One scan in two parts: the frames before the state, and those from it on.
    let at = states.min(state as usize);
    let first = frames_of(&durations[..at]);
    let frames = first + frames_of(&durations[at..]);
    check_shape(trajectory.len(), frames, v)?;
    if states <= at {
        return Err(Refusal::NoSuchPlace);
    }
    let width = u64::from(v);
    Ok(Span {
        first: number_of(first, 0, width),
        count: u64::from(durations[at]) * width,
    })
}

// Why durations are refused, if they are, whatever is made of them.
pub fn check_durations(durations: &[u32]) -> Result<(), Refusal>
    ensures { refused result ≡ durations_refusal durations.now }
{
    check_states(durations.len())?;
    check_frames(frames_of(durations))
}

// Why a trajectory is refused with its durations, if it is, whatever part of it is asked for.
pub fn check_trajectory(trajectory: &[f64], durations: &[u32], v: u32) -> Result<(), Refusal>
    ensures { refused result ≡ trajectory_refusal (length trajectory.now) durations.now v }
{
    check_counts(durations.len(), v)?;
    check_shape(trajectory.len(), frames_of(durations), v)
}

// There may be too many states.
fn check_states(states: usize) -> Result<(), Refusal>
    ensures { refused result ≡ states_refusal states }
{
    if 4096 < states {
        return Err(Refusal::BadSize);
    }
    Ok(())
}

// Or v may be out of range.
fn check_counts(states: usize, v: u32) -> Result<(), Refusal>
    ensures { refused result ≡ counts_refusal states v }
{
    check_states(states)?;
    if out_of_range(v) {
        return Err(Refusal::BadSize);
    }
    Ok(())
}

// There may be too many frames.
fn check_frames(frames: u64) -> Result<(), Refusal>
    ensures { refused result ≡ frames_refusal frames }
{
    if 65_536 < frames {
        return Err(Refusal::TooManyFrames);
    }
    Ok(())
}

// And before it a trajectory may have another count of numbers than so many frames have.
fn check_shape(numbers: usize, frames: u64, v: u32) -> Result<(), Refusal>
    requires { frames * v < 2 ^ 64 }
    ensures { refused result ≡ shape_refusal numbers frames v }
{
    if numbers as u64 != frames * u64::from(v) {
        return Err(Refusal::ListsDisagree);
    }
    check_frames(frames)
}

// The place of a frame's component in a trajectory.
fn number_of(frame: u64, component: u64, v: u64) -> u64
    requires { number_of frame component v < 2 ^ 64 }
    ensures { result ≡ number_of frame component v }
{
    frame * v + component
}

// A vector has 1 to 64 components.
fn out_of_range(v: u32) -> bool
    ensures { result ≡ outside v }
{
    (v < 1) | (64 < v)
}

// The frames of a part of the states: two such sums, times 64, fit 64 bits.
fn frames_of(durations: &[u32]) -> u64
    requires { length durations.now ≤ 4096 }
    ensures { Summed durations.now result }
{
    lists::total_u32(durations)
}
