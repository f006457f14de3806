// Several components side by side: their regions of the work space lie one after the other.
ghost use Rattle.std.specs.Prelude.{◌≡◌, true, ◌+◌, ◌*◌, ◌≤◌, length};
ghost use Rattle.lists.specs.Totals.{total};
ghost use Rattle.region.specs.Region.{size_of, each_region};
ghost use Rattle.voicing.specs.Mask.{mask_in};
ghost use Rattle.voicing.specs.Space.{paired_in};
ghost use Rattle.band.specs.Promise.{rowed_in};
ghost use Rattle.solve.specs.Promise.{solved_in};
ghost use Rattle.mlpg_adjust.specs.Trajectory.{gv_on, with_gv};
ghost use Rattle.mlpg_adjust.specs.Inner.Groups.{Ready, Varying, target_in, column_of, Columned};

use super::{Inputs, Stream};
use region::{Group, Layout};

// What is the same for every component: the stream, the layout of a region, how many numbers a record has, and how many frames there are.
#[derive(Clone, Copy)]
pub(crate) struct Plan {
    pub(crate) stream: Stream,
    pub(crate) layout: Layout,
    pub(crate) size: usize,
    pub(crate) frames: usize,
}

// The pairs of each component, closed up, and their normal equations, solved.
fn solve_group(p: Plan, c: Group, inputs: Inputs, marks: &[u32], work: &mut [f64])
    requires { Ready p inputs.widths.now inputs.coefficients.now inputs.records.now inputs.durations.now marks.now
        × (c.v ≡ p.stream.v) × (c.first + c.lanes ≤ c.v) × (c.lanes * size_of p.layout ≤ length work.old) }
    ensures { work.new ≡ each_region p.layout c.lanes (λ l. solved_in p.layout)
        (each_region p.layout c.lanes (λ l. rowed_in inputs.entry.widths.now inputs.entry.coefficients.now p.layout)
        (each_region p.layout c.lanes (λ l. paired_in p.size inputs.entry.records.now c.v inputs.entry.widths.now (mask_in inputs.entry.durations.now marks.now) inputs.entry.durations.now (c.first + l)) work.old)) }
{
    let g = p.layout;
    let Inputs {
        widths,
        coefficients,
        records,
        durations,
        ..
    } = inputs;
    voicing::close_up(p.size, records, widths, durations, marks, g, c, work);
    band::calc_rows(widths, coefficients, g, c.lanes, work);
    solve::solve(g, c.lanes, work);
}

// The global variance of each component, with the weight of its means.
fn vary_group(p: Plan, c: Group, marks: &[u32], gv: &[f64], weight: f64, work: &mut [f64])
    requires { Varying p c (length marks.now) (length work.old) × (length gv.now ≡ c.v + c.v) }
    ensures { work.new ≡ each_region p.layout c.lanes (target_in p c marks.now gv.now weight) work.old }
{
    let g = p.layout;
    let from = p.frames;
    let to = from + g.n as usize;
    let first = c.first;
    let last = first + c.lanes;
    let varis = c.v + first;
    let end = varis + c.lanes;
    gv::vary(
        g,
        &marks[from..to],
        &gv[first..last],
        &gv[varis..end],
        weight,
        work,
    );
}

// The same where the global variance is on, and nothing where it is off.
fn vary(switch: Option<f64>, p: Plan, c: Group, marks: &[u32], gv: &[f64], work: &mut [f64])
    requires { Varying p c (length marks.now) (length work.old) × (gv_on switch ≡ true → length gv.now ≡ c.v + c.v) }
    ensures { work.new ≡ with_gv switch (λ weight. each_region p.layout c.lanes (target_in p c marks.now gv.now weight) work.old) work.old }
{
    let Some(weight) = switch else {
        return;
    };
    vary_group(p, c, marks, gv, weight, work);
}

// The columns of each component of the group stand in the trajectory.
fn render_group(p: Plan, c: Group, inputs: Inputs, marks: &[u32], work: &mut [f64], out: &mut [f64])
    requires { Ready p inputs.widths.now inputs.coefficients.now inputs.records.now inputs.durations.now marks.now × (gv_on p.stream.gv ≡ true → length inputs.gv.now ≡ c.v + c.v)
        × (c.v ≡ p.stream.v) × (c.first + c.lanes ≤ c.v) × (c.lanes * size_of p.layout ≤ length work.old) × (length out.old ≡ total inputs.durations.now * c.v) }
    ensures { Columned (column_of p.stream inputs.entry.widths.now inputs.entry.coefficients.now inputs.entry.records.now inputs.entry.durations.now marks.now inputs.entry.gv.now) c.v c.first out.old
        → Columned (column_of p.stream inputs.entry.widths.now inputs.entry.coefficients.now inputs.entry.records.now inputs.entry.durations.now marks.now inputs.entry.gv.now) c.v (c.first + c.lanes) out.new }
{
    solve_group(p, c, inputs, marks, work);
    let stream = p.stream;
    let switch = stream.gv;
    vary(switch, p, c, marks, inputs.gv, work);
    let g = p.layout;
    voicing::fill_back(stream.fill, inputs.durations, marks, g, c, work, out);
}

// Group after group, of as many components as the work space holds.
pub(crate) fn render_groups(
    p: Plan,
    inputs: Inputs,
    marks: &[u32],
    work: &mut [f64],
    out: &mut [f64],
)
    requires { Ready p inputs.widths.now inputs.coefficients.now inputs.records.now inputs.durations.now marks.now × (gv_on p.stream.gv ≡ true → length inputs.gv.now ≡ p.stream.v + p.stream.v)
        × (length work.old ≡ total inputs.durations.now * 48) × (length out.old ≡ total inputs.durations.now * p.stream.v) }
    ensures { Columned (column_of p.stream inputs.entry.widths.now inputs.entry.coefficients.now inputs.entry.records.now inputs.entry.durations.now marks.now inputs.entry.gv.now) p.stream.v p.stream.v out.new }
{
    let stream = p.stream;
    let v = stream.v as usize;
    let layout = p.layout;
    let lanes = 48 / layout.floats();
    for first in (0..v).step_by(lanes) {
        let some = lanes.min(v - first);
        let c = Group {
            v,
            first,
            lanes: some,
        };
        render_group(p, c, inputs, marks, work, out);
    }
}
