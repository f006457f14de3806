// Operations on pairs.
use crate::case;
use model::mean_vari::{Clamp, Inverted, MeanVari};

// A pair of another operation than the inverse variance: nothing is clamped.
fn plain(pair: MeanVari) -> Option<Inverted> {
    Some(Inverted {
        pair,
        clamp: Clamp::No,
    })
}

// A clamp as it is stored.
fn stored(clamp: Clamp) -> u32 {
    match clamp {
        Clamp::High => 1,
        Clamp::Low => 2,
        Clamp::No => 0,
    }
}

// The sum of the list of two pairs, from zero.
fn summed(pair: MeanVari, other: MeanVari) -> MeanVari {
    let means = [pair.0, other.0];
    let varis = [pair.1, other.1];
    model::mean_vari::sum(&means, &varis)
}

// The estimate with rho, as a mean.
fn estimated(pair: MeanVari, rho: f64) -> MeanVari {
    MeanVari(floats::rounded(pair.0 + rho * pair.1) as f64, 0.0)
}

// The answer for an operation's number, if there is such an operation.
fn computed(operation: u32, pair: MeanVari, other: MeanVari, weight: f64) -> Option<Inverted> {
    match operation {
        0 => Some(pair.with_ivar()),
        1 => plain(pair.with_0()),
        2 => plain(pair.weighted(weight)),
        3 => plain(pair.add(other)),
        4 => plain(summed(pair, other)),
        5 => plain(estimated(pair, weight)),
        _ => None,
    }
}

fn pair_at(floats: &[f64], mean: usize, vari: usize) -> MeanVari {
    MeanVari(case::float(floats, mean), case::float(floats, vari))
}

// Whether the pair and its clamp are those that are stored. Head: the operation, and the clamp.
pub(crate) fn agrees(head: &[u32], floats: &[f64]) -> bool {
    let pair = pair_at(floats, 0, 1);
    let other = pair_at(floats, 2, 3);
    let weight = case::float(floats, 4);
    let Some(made) = computed(case::number(head, 0), pair, other, weight) else {
        return false;
    };
    let clamp = made.clamp;
    let right = stored(clamp) == case::number(head, 1);
    let numbers = [made.pair.0, made.pair.1];
    right & replay::holds(&numbers, lists::part(floats, 5, 2), 0.0)
}
