// The voiced runs of a stream, and the trajectory of one of them alone.
#![tactic(auto)]

ghost use Rattle.std.specs.Prelude.{◌≡◌};
ghost use Rattle.runs.specs.Promise.{RunsSay, RunSays};

use lists::Refusal;
use mlpg_adjust::{Inputs, Stream};
use states::States;
use voicing::Voicing;

mod finding;
mod refusing;
mod rendering;
mod states;

// A run of voiced frames: its first one, and how many it has.
#[derive(Clone, Copy, Debug, PartialEq, Eq)]
pub struct Run {
    pub first: usize,
    pub frames: usize,
}

// The first frame and the frames of each run, run after run, and how many runs there are.
pub fn runs(
    v: u32,
    masked: bool,
    threshold: f64,
    windows: usize,
    records: &[f64],
    durations: &[u32],
    out: &mut [u32],
) -> Result<u32, Refusal>
    ensures { RunsSay v masked threshold windows records.now durations.now out.old result out.new }
{
    refusing::check_records(v, masked, windows, records.len(), durations)?;
    let size = mlpg_adjust::record_size(v, windows as u8, masked);
    let states = States {
        records,
        voicing: Voicing { size, threshold },
        durations,
    };
    let count = states.count();
    if !lists::has_room(count, 2, out.len()) {
        return Err(Refusal::TooLittleRoom);
    }
    let end = 2 * count;
    states.write(&mut out[..end]);
    Ok(count as u32)
}

// The trajectory of one run alone, by its number, and how many frames it has.
pub fn create_run(
    stream: Stream,
    widths: &[u32],
    coefficients: &[f64],
    records: &[f64],
    durations: &[u32],
    gv: &[f64],
    switches: &[u8],
    run: u32,
    out: &mut [f64],
    work: &mut [f64],
    marks: &mut [u32],
) -> Result<u32, Refusal>
    ensures { RunSays stream widths.now coefficients.now records.now durations.now gv.now switches.now run
        out.old work.old marks.old result out.new work.new marks.new }
{
    mlpg_adjust::check_stream(
        stream,
        widths,
        coefficients,
        records,
        durations,
        gv,
        switches,
    )?;
    let inputs = Inputs {
        widths,
        coefficients,
        records,
        durations,
        gv,
        switches,
    };
    rendering::answer(stream, inputs, run, out, work, marks)
}
