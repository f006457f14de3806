// The trajectory of a stream that nothing is refused of.
ghost use Rattle.std.specs.Prelude.{◌≡◌, true, ◌++◌, map, ◌+◌, ◌*◌, ◌≤◌, length, drop};
ghost use Rattle.std.proofs.lemmas.List.Edits.{sets};
ghost use Rattle.lists.specs.Totals.{total};
ghost use Rattle.lists.specs.Flags.{flag};
ghost use Rattle.lists.specs.Frames.{expand, select, count};
ghost use Rattle.voicing.specs.Mask.{mask_in};
ghost use Rattle.mlpg_adjust.specs.Trajectory.{numbers_of, gv_on, with_gv};
ghost use Rattle.mlpg_adjust.specs.Inner.Groups.{Shaped, GvFits, voiced_in, plan_of};

use super::group::{Plan, render_groups};
use super::{Inputs, Stream, record_size};
use model::voice::window::band_width;
use region::Layout;
use voicing::Voicing;

// The voiced frames are marked, and what is the same for every component follows from them.
fn plan_of(stream: Stream, inputs: Inputs, marks: &mut [u32]) -> Plan
    requires { Shaped stream inputs.widths.now inputs.coefficients.now inputs.records.now inputs.durations.now × (total inputs.durations.now ≤ length marks.old) }
    ensures { (result ≡ plan_of stream inputs.entry.widths.now inputs.entry.records.now inputs.entry.durations.now)
        × (marks.new ≡ map flag (voiced_in stream inputs.entry.widths.now inputs.entry.records.now inputs.entry.durations.now) ++ drop (total inputs.entry.durations.now) marks.old) }
{
    let Inputs {
        widths,
        records,
        durations,
        ..
    } = inputs;
    let windows = widths.len() as u8;
    let size = record_size(stream.v, windows, stream.masked);
    let u = Voicing {
        size,
        threshold: stream.threshold,
    };
    let n = voicing::mark(records, u, durations, marks);
    let w = band_width(widths);
    let layout = Layout {
        windows,
        n: n as u32,
        w: w as u8,
    };
    let frames = lists::total_u32(durations) as usize;
    Plan {
        stream,
        layout,
        size,
        frames,
    }
}

// The switches of the voiced frames behind the marks, where the global variance is on.
fn mark_switches(switch: Option<f64>, durations: &[u32], switches: &[u8], marks: &mut [u32])
    requires { (length durations.now ≤ 4096) × (total durations.now ≤ 65536) × (gv_on switch ≡ true → length switches.now ≡ length durations.now)
        × (total durations.now + count (mask_in durations.now marks.old) ≤ length marks.old) }
    ensures { marks.new ≡ with_gv switch (λ weight. sets marks.old (total durations.now) (select (mask_in durations.now marks.old) (expand durations.now switches.now))) marks.old }
{
    let Some(_weight) = switch else {
        return;
    };
    voicing::mark_switches(durations, switches, marks);
}

// Mask and switches of all frames, then the components, as many side by side as the work space holds.
pub(crate) fn render(
    stream: Stream,
    inputs: Inputs,
    out: &mut [f64],
    work: &mut [f64],
    marks: &mut [u32],
)
    requires { Shaped stream inputs.widths.now inputs.coefficients.now inputs.records.now inputs.durations.now × GvFits stream (length inputs.durations.now) (length inputs.gv.now) (length inputs.switches.now)
        × (length out.old ≡ total inputs.durations.now * stream.v) × (length work.old ≡ total inputs.durations.now * 48) × (length marks.old ≡ total inputs.durations.now * 4) }
    ensures { out.new ≡ numbers_of stream inputs.entry.widths.now inputs.entry.coefficients.now inputs.entry.records.now inputs.entry.durations.now inputs.entry.gv.now inputs.entry.switches.now }
{
    let plan = plan_of(stream, inputs, marks);
    let switch = stream.gv;
    mark_switches(switch, inputs.durations, inputs.switches, marks);
    render_groups(plan, inputs, marks, work, out);
}
