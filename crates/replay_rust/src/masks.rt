// Masks and distances.
use crate::case;
use replay::OUT;

// What the lists of distances hold at entry, and still where nothing is written.
const LEFT: u32 = OUT + 1;

const RIGHT: u32 = OUT + 2;

// Whether the flags and distances are those that are stored. Head: states, states, frames, frames, frames.
pub(crate) fn agrees(head: &[u32], numbers: &[u32], floats: &[f64]) -> bool {
    let states = case::count(head, 0);
    let frames = case::count(head, 2);
    let weights = lists::part(floats, 0, states);
    let threshold = case::float(floats, states);
    let durations = lists::part(numbers, 0, states);
    let voiced = lists::part(numbers, states, frames);
    let left = lists::part(numbers, states + frames, frames);
    let right = lists::part(numbers, states + 2 * frames, frames);
    let mut flags = [OUT; 44];
    let mut before = [LEFT; 44];
    let mut after = [RIGHT; 44];
    let answer = voicing::mask::mask_with_distances(
        weights,
        threshold,
        durations,
        &mut flags,
        &mut before,
        &mut after,
    );
    (answer == Ok(case::number(head, 2)))
        & replay::holds(&flags, voiced, OUT)
        & replay::holds(&before, left, LEFT)
        & replay::holds(&after, right, RIGHT)
}
