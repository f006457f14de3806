// Fits to a length, and to the length at a speed. The Rust has no shortest durations, and every one is 1.
ghost use Rattle.std.specs.Prelude.{◌≡◌};

use crate::case;
use lists::Refusal;
use replay::{OUT, WORK};

// Whether the changes and durations of a fit to the float behind the pairs are those that are stored. Head: states, states, changes, states.
pub(crate) fn agrees<F>(fit: F, head: &[u32], durations: &[u32], floats: &[f64]) -> bool
where
    F: Fn(&[f64], &[f64], &[u32], f64, &mut [u32], &mut [u32]) -> Result<u32, Refusal> + Drop,
    requires { F.IsAlwaysCallable fit }
{
    let states = case::count(head, 0);
    let means = lists::part(floats, 0, states);
    let varis = lists::part(floats, states, states);
    let float = case::float(floats, 2 * states);
    let ones = [1u32; 20];
    let shortest = lists::part(&ones, 0, states);
    let mut out = [OUT; 20];
    let mut work = [WORK; 20];
    let answer = fit(means, varis, shortest, float, &mut out, &mut work);
    (answer == Ok(case::number(head, 2))) & case::left(&out, &work, states, durations)
}
