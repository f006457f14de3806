// One run's trajectory: that of a stream of its states alone.
ghost use Rattle.std.specs.Prelude.{◌≡◌, []};
ghost use Rattle.lists.specs.Answers.{written};
ghost use Rattle.mlpg_adjust.specs.Promise.{lengths_of, stream_refusal, zero_floats, zero_marks};
ghost use Rattle.runs.specs.Alone.{run_numbers};
ghost use Rattle.runs.specs.Promise.{RunSays};
ghost use Rattle.runs.specs.Inner.Finding.{Renders, run_of};

use super::finding::Found;
use super::refusing::check_run;
use super::states::States;
use lists::Refusal;
use mlpg_adjust::{Inputs, Stream, record_size};
use voicing::Voicing;

// The records and durations of the states from the run's begin to its end are all that is read.
fn render(
    stream: Stream,
    inputs: Inputs,
    found: Found,
    out: &mut [f64],
    work: &mut [f64],
    marks: &mut [u32],
)
    requires { Renders stream inputs.widths.now inputs.coefficients.now inputs.records.now inputs.durations.now found out.old work.old marks.old }
    ensures { (out.new ≡ written 0 (run_numbers stream inputs.entry.widths.now inputs.entry.coefficients.now inputs.entry.records.now inputs.entry.durations.now (run_of found)) out.old)
        × (work.new ≡ written 0 (zero_floats (run_of found).frames) work.old)
        × (marks.new ≡ written 0 (zero_marks (run_of found).frames) marks.old) }
{
    let from = found.begin.state;
    let to = found.end.state;
    let size = record_size(stream.v, inputs.widths.len() as u8, stream.masked);
    let records = inputs.records;
    let durations = inputs.durations;
    let first = from * size;
    let last = to * size;
    // Nothing is refused of these states, and their counts aren't asked for.
    let _clamped = mlpg_adjust::create(
        stream,
        inputs.widths,
        inputs.coefficients,
        &records[first..last],
        &durations[from..to],
        inputs.gv,
        inputs.switches,
        out,
        work,
        marks,
    );
}

// The run of a number in a stream of which nothing is refused: it is found, looked at, and rendered.
pub(crate) fn answer(
    stream: Stream,
    inputs: Inputs,
    run: u32,
    out: &mut [f64],
    work: &mut [f64],
    marks: &mut [u32],
) -> Result<u32, Refusal>
    requires { stream_refusal stream inputs.widths.now inputs.coefficients.now inputs.durations.now (lengths_of inputs.records.now inputs.gv.now inputs.switches.now [] [] []) ≡ 0 }
    ensures { RunSays stream inputs.entry.widths.now inputs.entry.coefficients.now inputs.entry.records.now inputs.entry.durations.now inputs.entry.gv.now inputs.entry.switches.now run
        out.old work.old marks.old result out.new work.new marks.new }
{
    let size = record_size(stream.v, inputs.widths.len() as u8, stream.masked);
    let threshold = stream.threshold;
    let states = States {
        records: inputs.records,
        voicing: Voicing { size, threshold },
        durations: inputs.durations,
    };
    let found = states.run_at(run as usize);
    let frames = found.frames();
    check_run(
        stream,
        inputs.widths,
        frames,
        out.len(),
        work.len(),
        marks.len(),
    )?;
    render(stream, inputs, found, out, work, marks);
    Ok(frames as u32)
}
