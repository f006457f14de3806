// Maximum likelihood parameter generation: the records of a stream become its trajectory.
#![tactic(auto)]

ghost use Rattle.std.specs.Prelude.{◌≡◌, [], length};
ghost use Rattle.lists.specs.Totals.{total};
ghost use Rattle.lists.specs.Answers.{written};
ghost use Rattle.lists.specs.Ends.{refused};
ghost use Rattle.mlpg_adjust.specs.Trajectory.{record_size, numbers_of};
ghost use Rattle.mlpg_adjust.specs.Promise.{lengths_of, stream_refusal, zero_floats, zero_marks, CreateSays};
ghost use Rattle.mlpg_adjust.specs.Inner.Groups.{Shaped, GvFits, Room};

mod counting;
mod group;
mod refusing;
mod render;

use lists::Refusal;
use refusing::Lengths;

// A stream: how many components it has, how its frames are voiced, what the unvoiced ones get, and the weight of the global variance's means where it is on.
#[derive(Clone, Copy, Debug, PartialEq)]
pub struct Stream {
    pub v: u32,
    pub masked: bool,
    pub threshold: f64,
    pub fill: f64,
    pub gv: Option<f64>,
}

// What a trajectory is made from, of which the last two are no input with GV off.
#[derive(Clone, Copy)]
pub struct Inputs<'a> {
    pub widths: &'a [u32],
    pub coefficients: &'a [f64],
    pub records: &'a [f64],
    pub durations: &'a [u32],
    pub gv: &'a [f64],
    pub switches: &'a [u8],
}

// How many numbers a state's record has: its pairs and, if masked, one weight.
pub fn record_size(v: u32, windows: u8, masked: bool) -> usize
    ensures { result ≡ record_size v windows masked }
{
    let pairs = windows as usize * v as usize;
    if masked {
        return pairs + pairs + 1;
    }
    pairs + pairs
}

// How many pairs of a trajectory's voiced frames were clamped high and low.
#[derive(Clone, Copy, Debug, PartialEq, Eq)]
pub struct Clamped {
    pub high: u32,
    pub low: u32,
}

// Why a stream's inputs are refused, whatever output and work space are lent: the smallest of 1 to 5 that applies.
pub fn check_stream(
    stream: Stream,
    widths: &[u32],
    coefficients: &[f64],
    records: &[f64],
    durations: &[u32],
    gv: &[f64],
    switches: &[u8],
) -> Result<(), Refusal>
    ensures { refused result ≡ stream_refusal stream widths.now coefficients.now durations.now (lengths_of records.now gv.now switches.now [] [] []) }
{
    let n = Lengths {
        records: records.len(),
        gv: gv.len(),
        switches: switches.len(),
        out: 0,
        work: 0,
        marks: 0,
    };
    refusing::check_stream(stream, widths, coefficients, durations, n)
}

// `MlpgAdjust::create`: the trajectory of a stream, and how many pairs are clamped. With GV off its two lists are no input.
pub fn create(
    stream: Stream,
    widths: &[u32],
    coefficients: &[f64],
    records: &[f64],
    durations: &[u32],
    gv: &[f64],
    switches: &[u8],
    out: &mut [f64],
    work: &mut [f64],
    marks: &mut [u32],
) -> Result<Clamped, Refusal>
    ensures { CreateSays stream widths.now coefficients.now records.now durations.now gv.now switches.now
        out.old work.old marks.old result out.new work.new marks.new }
{
    let n = Lengths {
        records: records.len(),
        gv: gv.len(),
        switches: switches.len(),
        out: out.len(),
        work: work.len(),
        marks: marks.len(),
    };
    refusing::check_create(stream, widths, coefficients, durations, n)?;
    let inputs = Inputs {
        widths,
        coefficients,
        records,
        durations,
        gv,
        switches,
    };
    // Before the trajectory, whose closing up then finds the records in the cache.
    let clamped = counting::report(stream, inputs);
    write(stream, inputs, out, work, marks);
    Ok(clamped)
}

// The trajectory in front of the output, and the work space zeroed, where nothing is refused.
fn write(stream: Stream, inputs: Inputs, out: &mut [f64], work: &mut [f64], marks: &mut [u32])
    requires { Shaped stream inputs.widths.now inputs.coefficients.now inputs.records.now inputs.durations.now × GvFits stream (length inputs.durations.now) (length inputs.gv.now) (length inputs.switches.now)
        × Room stream.v (total inputs.durations.now) (lengths_of inputs.records.now inputs.gv.now inputs.switches.now out.old work.old marks.old) }
    ensures { (out.new ≡ written 0 (numbers_of stream inputs.entry.widths.now inputs.entry.coefficients.now inputs.entry.records.now inputs.entry.durations.now inputs.entry.gv.now inputs.entry.switches.now) out.old)
        × (work.new ≡ written 0 (zero_floats (total inputs.entry.durations.now)) work.old)
        × (marks.new ≡ written 0 (zero_marks (total inputs.entry.durations.now)) marks.old) }
{
    let frames = lists::total_u32(inputs.durations) as usize;
    let numbers = frames * (stream.v as usize);
    let floats = frames * 48;
    let counts = frames * 4;
    render::render(
        stream,
        inputs,
        &mut out[..numbers],
        &mut work[..floats],
        &mut marks[..counts],
    );
    lists::fill(work, floats, 0.0);
    lists::fill(marks, counts, 0);
}
