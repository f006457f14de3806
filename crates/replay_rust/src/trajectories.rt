// Trajectories.
use crate::case;
use mlpg_adjust::{Clamped, Stream};
use replay::{OUT_F64, WORK};

// What the floats of the work space hold at entry, and still where nothing is written.
const WORK_F64: f64 = -2e6;

fn stream_of(head: &[u32], floats: &[f64]) -> Stream {
    Stream {
        v: case::number(head, 0),
        masked: case::number(head, 1) != 0,
        threshold: case::float(floats, 0),
        fill: case::float(floats, 1),
        gv: (case::number(head, 2) != 0).then_some(case::float(floats, 2)),
    }
}

// Whether the work space of so many frames is zeroed, with everything beyond as it was.
fn is_cleared(frames: usize, work: &[f64; 1160], marks: &[u32; 100]) -> bool {
    let most = frames.min(24);
    let mut floats = [WORK_F64; 1160];
    let mut counts = [WORK; 100];
    lists::fill(&mut floats, most * 48, 0.0);
    lists::fill(&mut counts, most * 4, 0);
    replay::holds(work, &floats, WORK_F64) & replay::holds(marks, &counts, WORK)
}

// Whether the numbers and counts are those that are stored. Head: v, masked, GV on, windows, coefficients, records' numbers, states, GV's numbers, states, numbers, and the pairs
// that are clamped high and low.
pub(crate) fn agrees(head: &[u32], numbers: &[u32], floats: &[f64], switches: &[u8]) -> bool {
    let windows = case::count(head, 3);
    let taps = case::count(head, 4);
    let recorded = case::count(head, 5);
    let states = case::count(head, 6);
    let pairs = case::count(head, 7);
    let given = 3 + taps + recorded;
    let durations = lists::part(numbers, windows, states);
    let right = lists::part(floats, given + pairs, case::count(head, 9));
    let mut out = [OUT_F64; 80];
    let mut work = [WORK_F64; 1160];
    let mut marks = [WORK; 100];
    let answer = mlpg_adjust::create(
        stream_of(head, floats),
        lists::part(numbers, 0, windows),
        lists::part(floats, 3, taps),
        lists::part(floats, 3 + taps, recorded),
        durations,
        lists::part(floats, given, pairs),
        switches,
        &mut out,
        &mut work,
        &mut marks,
    );
    let clamped = Clamped {
        high: case::number(head, 10),
        low: case::number(head, 11),
    };
    let frames = lists::total_u32(durations) as usize;
    (answer == Ok(clamped))
        & replay::holds(&out, right, OUT_F64)
        & is_cleared(frames, &work, &marks)
}
