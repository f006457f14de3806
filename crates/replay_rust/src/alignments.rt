// Alignments, with every shortest duration 1.
use crate::case;
use duration::Aligned;
use replay::{OUT, WORK};

// Whether the counts and durations are those that are stored. Head: states, states, states a label, labels, written, changes, written.
pub(crate) fn agrees(head: &[u32], durations: &[u32], floats: &[f64]) -> bool {
    let states = case::count(head, 0);
    let means = lists::part(floats, 0, states);
    let varis = lists::part(floats, states, states);
    let nstate = case::number(head, 2);
    let ends = lists::part(floats, 2 * states, case::count(head, 3));
    let ones = [1u32; 20];
    let shortest = lists::part(&ones, 0, states);
    let mut out = [OUT; 20];
    let mut work = [WORK; 20];
    let answer = duration::create_with_alignment(
        means, varis, shortest, nstate, ends, &mut out, &mut work,
    );
    let right = Aligned {
        states: case::number(head, 4),
        changes: case::number(head, 5),
    };
    (answer == Ok(right)) & case::left(&out, &work, states, durations)
}
