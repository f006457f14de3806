// Operations on records.
use crate::case;
use model::voice::model::Weight;
use replay::OUT_F64;

// x at a place, if there is one.
fn put(out: &mut [f64], at: usize, x: f64) {
    if let Some(place) = out.get_mut(at) {
        *place = x;
    }
}

// The record made again of its pairs and its weight.
fn remake(lin: &[f64], out: &mut [f64]) {
    let pairs = lin.len() / 2;
    for number in 0..pairs {
        let Some(pair) = model::voice::model::parameter(lin, number) else {
            return;
        };
        put(out, number, pair.0);
        put(out, pairs + number, pair.1);
    }
    if let Weight::Given(weight) = model::voice::model::msd(lin) {
        put(out, 2 * pairs, weight);
    }
}

// The record with the weight times the other added to it.
fn add_to(lin: &[f64], weight: f64, other: &[f64], out: &mut [f64]) {
    let n = lin.len().min(out.len());
    lists::copy(lin, n, out);
    model::voice::model::mul_add_assign(&mut out[..n], weight, other);
}

// Writes the answer for an operation's number, and says whether there is one.
fn make(operation: u32, lin: &[f64], other: &[f64], weight: f64, out: &mut [f64]) -> bool {
    match operation {
        0 => {
            remake(lin, out);
            true
        }
        1 => model::voice::model::mul(lin, weight, out).is_ok(),
        2 => {
            add_to(lin, weight, other, out);
            true
        }
        _ => false,
    }
}

// Whether the record is the one that is stored. Head: the operation, and the counts of the record, the other and the answer.
pub(crate) fn agrees(head: &[u32], floats: &[f64]) -> bool {
    let mine = case::count(head, 1);
    let theirs = case::count(head, 2);
    let lin = lists::part(floats, 0, mine);
    let other = lists::part(floats, mine, theirs);
    let weight = case::float(floats, mine + theirs);
    let right = lists::part(floats, mine + theirs + 1, case::count(head, 3));
    let mut out = [OUT_F64; 12];
    make(case::number(head, 0), lin, other, weight, &mut out) & replay::holds(&out, right, OUT_F64)
}
