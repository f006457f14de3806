// Band rows.
use crate::case;
use replay::OUT_F64;

// Whether the rows and the right side are those that are stored. Head: windows, coefficients, pairs, pairs, entries, frames.
pub(crate) fn agrees(head: &[u32], widths: &[u32], floats: &[f64]) -> bool {
    let taps = case::count(head, 1);
    let pairs = case::count(head, 2);
    let entries = case::count(head, 4);
    let frames = case::count(head, 5);
    let coefficients = lists::part(floats, 0, taps);
    let means = lists::part(floats, taps, pairs);
    let ivars = lists::part(floats, taps + pairs, pairs);
    let rows = lists::part(floats, taps + 2 * pairs, entries);
    let right = lists::part(floats, taps + 2 * pairs + entries, frames);
    let mut matrix = [OUT_F64; 72];
    let mut side = [OUT_F64; 12];
    let answer = band::band_rows(widths, coefficients, means, ivars, &mut matrix, &mut side);
    (answer == Ok(case::number(head, 5)))
        & replay::holds(&matrix, rows, OUT_F64)
        & replay::holds(&side, right, OUT_F64)
}
