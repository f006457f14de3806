// Why a trajectory is refused.
ghost use Rattle.std.specs.Prelude.{◌≡◌, ◌≤◌, length};
ghost use Rattle.lists.specs.Ends.{refused};
ghost use Rattle.mlpg_adjust.specs.Promise.{out_of_range, gv_disagrees, disagree, short, stream_refusal, create_refusal};

use super::{Stream, record_size};
use lists::Refusal;

// The lengths of lists that are not looked into.
#[derive(Clone, Copy)]
pub(crate) struct Lengths {
    pub(crate) records: usize,
    pub(crate) gv: usize,
    pub(crate) switches: usize,
    pub(crate) out: usize,
    pub(crate) work: usize,
    pub(crate) marks: usize,
}

// Whether there are too many states, or v is out of range.
fn is_out_of_range(v: u32, states: usize) -> bool
    ensures { result ≡ out_of_range v states }
{
    (4096 < states) | ((v < 1) | (64 < v))
}

// Whether GV's lists don't agree. With GV off they are no input.
fn gv_disagrees(stream: Stream, states: usize, n: Lengths) -> bool
    requires { stream.v ≤ 64 }
    ensures { result ≡ gv_disagrees stream states n }
{
    if stream.gv.is_none() {
        return false;
    }
    (n.gv != 2 * stream.v as usize) | (n.switches != states)
}

// Whether the lists' lengths don't agree, with so many coefficients and states.
fn lists_disagree(
    stream: Stream,
    widths: &[u32],
    coefficients: usize,
    states: usize,
    n: Lengths,
) -> bool
    requires { (stream.v ≤ 64) × (length widths.now ≤ 4) × (states ≤ 4096) }
    ensures { result ≡ disagree stream widths.now coefficients states n }
{
    if coefficients as u64 != lists::total_u32(widths) {
        return true;
    }
    if n.records != states * record_size(stream.v, widths.len() as u8, stream.masked) {
        return true;
    }
    gv_disagrees(stream, states, n)
}

// Whether the output or a work space is too short for so many frames.
fn is_short(v: u32, frames: usize, n: Lengths) -> bool
    requires { (v ≤ 64) × (frames ≤ 65536) }
    ensures { result ≡ short v frames n }
{
    (n.out < frames * v as usize) | (n.work < frames * 48) | (n.marks < frames * 4)
}

// The smallest of 1 to 5 that applies.
pub(crate) fn check_stream(
    stream: Stream,
    widths: &[u32],
    coefficients: &[f64],
    durations: &[u32],
    n: Lengths,
) -> Result<(), Refusal>
    ensures { refused result ≡ stream_refusal stream widths.now coefficients.now durations.now n }
{
    if !model::voice::window::widths_fit(widths) {
        return Err(Refusal::BadWindows);
    }
    if !model::voice::window::all_finite(coefficients) {
        return Err(Refusal::BadCoefficient);
    }
    let states = durations.len();
    if is_out_of_range(stream.v, states) {
        return Err(Refusal::BadSize);
    }
    if lists_disagree(stream, widths, coefficients.len(), states, n) {
        return Err(Refusal::ListsDisagree);
    }
    if lists::total_u32(durations) <= 65_536 {
        return Ok(());
    }
    Err(Refusal::TooManyFrames)
}

// And then 6.
pub(crate) fn check_create(
    stream: Stream,
    widths: &[u32],
    coefficients: &[f64],
    durations: &[u32],
    n: Lengths,
) -> Result<(), Refusal>
    ensures { refused result ≡ create_refusal stream widths.now coefficients.now durations.now n }
{
    check_stream(stream, widths, coefficients, durations, n)?;
    let frames = lists::total_u32(durations) as usize;
    if is_short(stream.v, frames, n) {
        return Err(Refusal::TooLittleRoom);
    }
    Ok(())
}
