// How many pairs of a stream's voiced frames are clamped: a state's are looked at once, and count once for each of its frames.
ghost use Rattle.std.specs.Prelude.{◌≡◌, ◌*◌, ◌≤◌, length};
ghost use Rattle.lists.specs.Totals.{total};
ghost use Rattle.model.specs.Record.{from_linear};
ghost use Rattle.mlpg_adjust.specs.Clamps.{clamped_high, clamped_low};
ghost use Rattle.mlpg_adjust.specs.Inner.Clamps.{state_clamps, clamps_by_states, Recorded};

use super::{Clamped, Inputs, Stream, record_size};
use model::voice::model::{Clamps, clamped, msd};
use voicing::Voicing;

// A state's part: an unvoiced one has none.
fn of_state(lin: &[f64], threshold: f64, frames: usize) -> Clamps
    requires { (length lin.now ≤ 513) × (frames ≤ 65536) }
    ensures { result ≡ state_clamps threshold frames (from_linear lin.now) }
{
    let weight = msd(lin);
    if !weight.voiced(threshold) {
        return Clamps { high: 0, low: 0 };
    }
    let once = clamped(lin);
    Clamps {
        high: frames * once.high,
        low: frames * once.low,
    }
}

// State after state.
fn of_states(records: &[f64], u: Voicing, durations: &[u32]) -> Clamps
    requires { (u.size ≤ 513) × (length durations.now * u.size ≤ length records.now) × (total durations.now ≤ 65536) }
    ensures { result ≡ clamps_by_states u.size records.now u.threshold durations.now }
{
    let size = u.size;
    let mut high = 0;
    let mut low = 0;
    for (s, frames) in durations.iter().enumerate() {
        let from = s * size;
        let state = of_state(&records[from..from + size], u.threshold, *frames as usize);
        high += state.high;
        low += state.low;
    }
    Clamps { high, low }
}

// What an accepted call answers.
pub(crate) fn report(stream: Stream, inputs: Inputs) -> Clamped
    requires { Recorded stream inputs.widths.now inputs.records.now inputs.durations.now }
    ensures { (result.high ≡ clamped_high stream inputs.entry.widths.now inputs.entry.records.now inputs.entry.durations.now) × (result.low ≡ clamped_low stream inputs.entry.widths.now inputs.entry.records.now inputs.entry.durations.now) }
{
    let u = Voicing {
        size: record_size(stream.v, inputs.widths.len() as u8, stream.masked),
        threshold: stream.threshold,
    };
    let clamps = of_states(inputs.records, u, inputs.durations);
    Clamped {
        high: clamps.high as u32,
        low: clamps.low as u32,
    }
}
