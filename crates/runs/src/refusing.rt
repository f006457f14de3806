// Why runs are not told, and one is not rendered.
ghost use Rattle.std.specs.Prelude.{◌≡◌, cond, ◌<◌, length};
ghost use Rattle.lists.specs.Ends.{refused};
ghost use Rattle.runs.specs.Promise.{records_refusal, has_room};
ghost use Rattle.runs.specs.Inner.Finding.{stays_refusal, found_refusal};

use lists::Refusal;
use mlpg_adjust::{Stream, record_size};

// The smallest of 1, 3, 4 and 5 that applies to a stream's records and durations.
pub(crate) fn check_records(
    v: u32,
    masked: bool,
    windows: usize,
    records: usize,
    durations: &[u32],
) -> Result<(), Refusal>
    ensures { refused result ≡ records_refusal v masked windows records durations.now }
{
    if (windows < 1) | (4 < windows) {
        return Err(Refusal::BadWindows);
    }
    if (4096 < durations.len()) | ((v < 1) | (64 < v)) {
        return Err(Refusal::BadSize);
    }
    if records != durations.len() * record_size(v, windows as u8, masked) {
        return Err(Refusal::ListsDisagree);
    }
    if 65_536 < lists::total_u32(durations) {
        return Err(Refusal::TooManyFrames);
    }
    Ok(())
}

// 6 where the output or the work space is too short for so many frames.
fn check_room(v: u32, frames: usize, out: usize, work: usize, marks: usize) -> Result<(), Refusal>
    ensures { refused result ≡ cond (has_room v frames out work marks) 0 6 }
{
    let numbers = lists::has_room(frames, v as usize, out);
    let floats = lists::has_room(frames, 48, work);
    let counts = lists::has_room(frames, 4, marks);
    if numbers & floats & counts {
        return Ok(());
    }
    Err(Refusal::TooLittleRoom)
}

// 20 where global variance is on, 21 for a run of no frames, which is not there, 22 where the first window is longer than one.
fn check_found(gv: Option<f64>, frames: usize, widths: &[u32]) -> Result<(), Refusal>
    requires { 0 < length widths.now }
    ensures { refused result ≡ stays_refusal gv frames widths.now }
{
    if gv.is_some() {
        return Err(Refusal::RunWithGv);
    }
    if frames == 0 {
        return Err(Refusal::NoSuchRun);
    }
    if 1 < widths[0] {
        return Err(Refusal::RunFirstWindow);
    }
    Ok(())
}

// The smallest of 6, 20, 21 and 22 that applies to a run of so many frames.
pub(crate) fn check_run(
    stream: Stream,
    widths: &[u32],
    frames: usize,
    out: usize,
    work: usize,
    marks: usize,
) -> Result<(), Refusal>
    requires { 0 < length widths.now }
    ensures { refused result ≡ found_refusal stream widths.now frames out work marks }
{
    check_room(stream.v, frames, out, work, marks)?;
    check_found(stream.gv, frames, widths)
}
