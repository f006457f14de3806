// Which frames are voiced, and how far each voiced frame stands from the ends of its run.
ghost use Rattle.std.specs.Prelude.{◌≡◌, cond, map, ◌+◌, ◌*◌, ◌≤◌, ◌<◌, [], ◌∷◌, length};
ghost use Rattle.lists.specs.Totals.{total};
ghost use Rattle.model.specs.Weight.{voiced_at};
ghost use Rattle.lists.specs.Flags.{flag, is_on};
ghost use Rattle.voicing.specs.Mask.{mask_of, weight_at, weights_of};
ghost use Rattle.voicing.specs.Boundaries.{lefts, rights};
ghost use Rattle.lists.specs.Answers.{answer_of};
ghost use Rattle.lists.specs.Ends.{counted};
ghost use Rattle.voicing.specs.Promise.{MaskSays, DistancesSays, MaskedDistancesSays};
ghost use Rattle.voicing.specs.Inner.Fits.{room_refusal};

use super::Voicing;
use lists::Refusal;
use model::voice::model::msd;

// Whether a state is voiced.
fn voiced_at(records: &[f64], u: Voicing, s: usize) -> bool
    requires { s * u.size + u.size ≤ length records.now }
    ensures { result ≡ voiced_at u.threshold (weight_at u.size records.now s) }
{
    let size = u.size;
    let from = s * size;
    let to = from + size;
    msd(&records[from..to]).voiced(u.threshold)
}

// `Mask::create`: each state's flag once for each of its frames.
pub(crate) fn mark_states(records: &[f64], u: Voicing, durations: &[u32], out: &mut [u32])
    requires { (length durations.now * u.size ≤ length records.now) × (total durations.now ≡ length out.old) }
    ensures { out.new ≡ map flag (mask_of u.threshold (weights_of u.size records.now (length durations.now)) durations.now) }
{
    let mut f = 0;
    for (s, x) in durations.iter().enumerate() {
        let d = *x as usize;
        let e = f + d;
        let flag = u32::from(voiced_at(records, u, s));
        lists::fill(&mut out[f..e], d, flag);
        f = e;
    }
}

// A frame's distance by its flag, where `run` voiced frames were passed directly before it.
fn pass(flag: u32, run: &mut u32) -> u32
    requires { run.old < 65536 }
    ensures distance { result ≡ cond (is_on flag) run.old 0 }
    ensures passed { run.new ≡ cond (is_on flag) (run.old + 1) 0 }
{
    let distance = *run;
    if flag == 0 {
        *run = 0;
        return 0;
    }
    *run += 1;
    distance
}

// The left distances of flags.
fn left_distances(flags: &[u32], left: &mut [u32])
    requires { (length flags.now ≤ 65536) × (length left.old ≡ length flags.now) }
    ensures { left.new ≡ lefts 0 (map is_on flags.now) }
{
    let mut run = 0;
    for f in 0..flags.len() {
        left[f] = pass(flags[f], &mut run);
    }
}

// Their right distances, from the last frame to the first.
fn right_distances(flags: &[u32], right: &mut [u32])
    requires { (length flags.now ≤ 65536) × (length right.old ≡ length flags.now) }
    ensures { right.new ≡ rights (map is_on flags.now) }
{
    let mut run = 0;
    for f in (0..flags.len()).rev() {
        right[f] = pass(flags[f], &mut run);
    }
}

// How many frames the states have, as far as 3, 4, 5 and room for so many allow.
fn frames_of(weights: usize, durations: &[u32], room: usize) -> Result<u32, Refusal>
    ensures { counted result ≡ answer_of (room_refusal weights durations.now room) (total durations.now ∷ []) }
{
    if 4096 < durations.len() {
        return Err(Refusal::BadSize);
    }
    if weights != durations.len() {
        return Err(Refusal::ListsDisagree);
    }
    let frames = lists::total_u32(durations);
    if 65_536 < frames {
        return Err(Refusal::TooManyFrames);
    }
    if (room as u64) < frames {
        return Err(Refusal::TooLittleRoom);
    }
    Ok(frames as u32)
}

// The frames' flags, 1 for a voiced one and 0 for another.
pub fn mask(
    weights: &[f64],
    threshold: f64,
    durations: &[u32],
    voiced: &mut [u32],
) -> Result<u32, Refusal>
    ensures { MaskSays weights.now threshold durations.now voiced.old result voiced.new }
{
    let frames = frames_of(weights.len(), durations, voiced.len())?;
    let n = frames as usize;
    let u = Voicing { size: 1, threshold };
    mark_states(weights, u, durations, &mut voiced[..n]);
    Ok(frames)
}

// `Mask::boundary_distances`, of any flags: 0 is unvoiced, and anything else voiced.
pub fn boundary_distances(
    voiced: &[u32],
    left: &mut [u32],
    right: &mut [u32],
) -> Result<u32, Refusal>
    ensures { DistancesSays voiced.now left.old right.old result left.new right.new }
{
    let n = voiced.len();
    if 65_536 < n {
        return Err(Refusal::TooManyFrames);
    }
    if left.len().min(right.len()) < n {
        return Err(Refusal::TooLittleRoom);
    }
    left_distances(voiced, &mut left[..n]);
    right_distances(voiced, &mut right[..n]);
    Ok(n as u32)
}

// The frames' flags and distances in one call.
pub fn mask_with_distances(
    weights: &[f64],
    threshold: f64,
    durations: &[u32],
    voiced: &mut [u32],
    left: &mut [u32],
    right: &mut [u32],
) -> Result<u32, Refusal>
    ensures { MaskedDistancesSays weights.now threshold durations.now voiced.old left.old right.old
        result voiced.new left.new right.new }
{
    let room = voiced.len().min(left.len().min(right.len()));
    let frames = frames_of(weights.len(), durations, room)?;
    let n = frames as usize;
    mask(weights, threshold, durations, voiced)?;
    boundary_distances(&voiced[..n], left, right)
}
