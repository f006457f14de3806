// The durations of states: fitted to a length, to a speed, or to given ends.
#![tactic(auto)]

ghost use Rattle.std.specs.Prelude.{◌≡◌, true, ℕ, ◌≤◌, [], ◌∷◌, length, take, replicate};
ghost use Rattle.std.proofs.lemmas.List.Edits.{sets};
ghost use Rattle.lists.specs.Sizes.{most_states};
ghost use Rattle.lists.specs.Totals.{total};
ghost use Rattle.lists.specs.Answers.{answer_of};
ghost use Rattle.lists.specs.Ends.{refused, counted};
ghost use Rattle.steps.specs.Steps.{states, size, Outcome};
ghost use Rattle.steps.specs.Lent.{lent};
ghost use Rattle.duration.specs.Shortest.{refusal_of_shortest};
ghost use Rattle.duration.specs.Inner.Asked.{TakesStates, FitsStates, FittedSays, HandsOut};
ghost use Rattle.duration.specs.Promise.{clears, refusal_of_lists, refusal_of_labels, FitSays, SpeedSays, AlignOnTime};

use lists::Refusal;
use steps::States;

mod align;
mod fit;
mod speed;

// How many durations an alignment gave, one a state, and its unit changes.
#[derive(Clone, Copy, Debug, PartialEq, Eq)]
pub struct Aligned {
    pub states: u32,
    pub changes: u32,
}

// Whether the lists agree, and have room.
fn check_lists(states: States, out: usize, work: usize) -> Result<(), Refusal>
    ensures { let ss = lent states.entry in refused result ≡ refusal_of_lists (size ss) (length ss.varis) (length ss.shortest) out work }
{
    let n = states.means.len();
    if n > 4096 {
        return Err(Refusal::BadSize);
    }
    if states.varis.len() != n {
        return Err(Refusal::ListsDisagree);
    }
    if states.shortest.len() != n {
        return Err(Refusal::ListsDisagree);
    }
    if out < n {
        return Err(Refusal::TooLittleRoom);
    }
    if work < n {
        return Err(Refusal::TooLittleRoom);
    }
    Ok(())
}

// The same for labels of nstate states each. More labels than states can't agree, so the product stays small.
fn check_labels(
    nstate: usize,
    labels: usize,
    states: States,
    out: usize,
    work: usize,
) -> Result<(), Refusal>
    ensures { let ss = lent states.entry in refused result ≡ refusal_of_labels nstate labels (size ss) (length ss.varis) (length ss.shortest) out work }
{
    let n = states.means.len();
    if n > 4096 {
        return Err(Refusal::BadSize);
    }
    if nstate < 1 {
        return Err(Refusal::BadSize);
    }
    if nstate > 16 {
        return Err(Refusal::BadSize);
    }
    if labels > n {
        return Err(Refusal::ListsDisagree);
    }
    if labels * nstate != n {
        return Err(Refusal::ListsDisagree);
    }
    check_lists(states, out, work)
}

// The sum of the shortest durations, if they can be taken: none is 0, and they come to no more than 65,536 frames.
fn low_of(shortest: &[u32]) -> Result<u32, Refusal>
    requires { length shortest.now ≤ most_states }
    ensures { counted result ≡ answer_of (refusal_of_shortest shortest.now) (total shortest.now ∷ []) }
{
    let mut none = false;
    let mut sum = 0;
    for frames in shortest {
        none = none | (*frames == 0);
        sum += u64::from(*frames);
    }
    if none | (sum > 65_536) {
        return Err(Refusal::BadShortest);
    }
    Ok(sum as u32)
}

// Moves so many numbers from the front of work to that of out, and leaves zeros. One pass: for few states the C library's two calls would take longer.
fn move_out(count: usize, out: &mut [u32], work: &mut [u32])
    requires { (count ≤ length out.old) × (count ≤ length work.old) }
    ensures { (out.new ≡ sets out.old 0 (take count work.old)) × (work.new ≡ sets work.old 0 (replicate count 0)) }
{
    for i in 0..count {
        out[i] = work[i];
        work[i] = 0;
    }
}

// Hands out the durations of count states at the front of work, unless they are refused, and clears it.
fn hand_out(
    answer: Result<u32, Refusal>,
    count: usize,
    out: &mut [u32],
    work: &mut [u32],
) -> Result<u32, Refusal>
    requires { (count ≤ length out.old) × (count ≤ length work.old) }
    ensures { HandsOut answer count out.old work.old result out.new work.new }
{
    if answer.is_err() {
        lists::fill(work, count, 0);
        return answer;
    }
    move_out(count, out, work);
    answer
}

// The states' durations as fit leaves them at the front of work, handed out; it is told the sum of the shortest.
fn fit_states<F: Fn(u32, &mut [u32]) -> Result<u32, Refusal>>(
    states: States,
    out: &mut [u32],
    work: &mut [u32],
    fit: F,
) -> Result<u32, Refusal>
    requires { TakesStates F.Fn fit (lent states) }
    ensures { (k : ℕ) (o : Outcome) → clears k ≡ true → FitsStates F.Fn fit (lent states.entry) k o → FittedSays (lent states.entry) k o out.old work.old result out.new work.new }
{
    check_lists(states, out.len(), work.len())?;
    let low = low_of(states.shortest)?;
    let n = states.means.len();
    let answer = fit(low, &mut work[..n]);
    hand_out(answer, n, out, work)
}

// The states' durations, fitted to a length in frames: the unit changes.
pub fn estimate_duration_with_frame_length(
    means: &[f64],
    varis: &[f64],
    shortest: &[u32],
    frame_length: f64,
    out: &mut [u32],
    work: &mut [u32],
) -> Result<u32, Refusal>
    ensures { FitSays (states means.now varis.now shortest.now) frame_length out.old work.old result out.new work.new }
{
    let states = States {
        means,
        varis,
        shortest,
    };
    let target = floats::rounded(frame_length);
    fit_states(
        states,
        out,
        work,
        |low, room| fit::fit(states, low, target, room),
    )
}

// The states' durations at a speed: the unit changes.
pub fn create(
    means: &[f64],
    varis: &[f64],
    shortest: &[u32],
    speed: f64,
    out: &mut [u32],
    work: &mut [u32],
) -> Result<u32, Refusal>
    ensures { SpeedSays (states means.now varis.now shortest.now) speed out.old work.old result out.new work.new }
{
    let states = States {
        means,
        varis,
        shortest,
    };
    fit_states(
        states,
        out,
        work,
        |low, room| speed::fit_at(states, low, speed, room),
    )
}

// The states' durations, with each label that has an end closed at it.
pub fn create_with_alignment(
    means: &[f64],
    varis: &[f64],
    shortest: &[u32],
    nstate: u32,
    ends: &[f64],
    out: &mut [u32],
    work: &mut [u32],
) -> Result<Aligned, Refusal>
    ensures { AlignOnTime (states means.now varis.now shortest.now) nstate ends.now out.old work.old result out.new work.new }
{
    let states = States {
        means,
        varis,
        shortest,
    };
    let width = nstate as usize;
    check_labels(width, ends.len(), states, out.len(), work.len())?;
    low_of(shortest)?;
    let n = means.len();
    let fitted = align::fit_along(states, width, ends, &mut work[..n]);
    let answer = hand_out(fitted, n, out, work);
    let Ok(changes) = answer else {
        return Err(answer.unwrap_err());
    };
    Ok(Aligned {
        states: n as u32,
        changes,
    })
}
