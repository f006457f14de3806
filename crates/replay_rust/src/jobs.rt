// Jobs.
use crate::case;
use job::Done;
use replay::{OUT, WORK};

// Whether the counts and durations are those that are stored. Head: bytes, states, frames, changes, states.
pub(crate) fn agrees(head: &[u32], durations: &[u32], bytes: &[u8]) -> bool {
    let mut out = [OUT; 20];
    let mut work = [WORK; 20];
    let answer = job::answer(bytes, &mut out, &mut work);
    let right = Done {
        states: case::number(head, 1),
        frames: case::number(head, 2),
        changes: case::number(head, 3),
    };
    (answer == Ok(right)) & case::left(&out, &work, case::count(head, 4), durations)
}
