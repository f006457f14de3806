// A state's record: its means, then as many variances, then in a masked stream one weight.
ghost use Rattle.std.specs.Prelude.{◌≡◌, true};
ghost use Rattle.model.specs.Weight.{value_of, voiced_at};
ghost use Rattle.model.specs.Record.{pair_number, pair_at, from_linear};
ghost use Rattle.model.specs.Clamps.{variances_of, clamps_in};
ghost use Rattle.model.specs.Mixing.{more_by, over_shorter};
ghost use Rattle.model.specs.Promise.{MulSays, MulAddSays};

use crate::mean_vari::{Clamp, MeanVari};
use lists::Refusal;

// A voicing weight.
#[derive(Clone, Copy, Debug, PartialEq)]
pub enum Weight {
    Given(f64),
    Absent,
}

impl Weight {
    // What the weight counts as: an absent one as the largest finite number.
    pub fn value(self) -> f64
        ensures { result ≡ value_of self }
    {
        match self {
            Weight::Given(weight) => weight,
            Weight::Absent => f64::MAX,
        }
    }

    pub fn voiced(self, threshold: f64) -> bool
        ensures { result ≡ voiced_at threshold self }
    {
        self.value() > threshold
    }
}

pub fn pair_number(v: u32, window: u32, component: u32) -> usize
    ensures { result ≡ pair_number v window component }
{
    (v as usize) * (window as usize) + (component as usize)
}

// The pair of a number: its mean stands among the first half, its variance in the same place of the second.
#[tactic(auto, using(crate::proofs::Records::pair_found, crate::proofs::Records::pair_missing))]
pub fn parameter(lin: &[f64], number: usize) -> Option<MeanVari>
    ensures { result ≡ pair_at (from_linear lin.now).parameters number }
{
    let pairs = lin.len() / 2;
    if number < pairs {
        let mean = lin[number];
        let vari = lin[pairs + number];
        return Some(MeanVari::new(mean, vari));
    }
    None
}

// The weight, which a record of odd length has.
pub fn msd(lin: &[f64]) -> Weight
    ensures { result ≡ (from_linear lin.now).msd }
{
    if lin.len() % 2 == 1 {
        return Weight::Given(lin[lin.len() - 1]);
    }
    Weight::Absent
}

// How many variances are clamped high, and how many low.
#[derive(Clone, Copy, Debug, PartialEq, Eq)]
pub struct Clamps {
    pub high: usize,
    pub low: usize,
}

// Those of a record's pairs.
pub fn clamped(lin: &[f64]) -> Clamps
    ensures { result ≡ clamps_in (variances_of (from_linear lin.now)) }
{
    let pairs = lin.len() / 2;
    let end = pairs + pairs;
    if all_between(&lin[pairs..end]) {
        return Clamps { high: 0, low: 0 };
    }
    count_clamped(&lin[pairs..end])
}

// Whether all variances lie between the bounds, as those of a voice mostly do: then there is none to count.
fn all_between(varis: &[f64]) -> bool
    ensures { result ≡ true → clamps_in varis.now ≡ record { high = 0; low = 0 } }
{
    let mut between = true;
    for vari in varis {
        between = between & (*vari > 1e-19) & (*vari < 1e19);
    }
    between
}

fn count_clamped(varis: &[f64]) -> Clamps
    ensures { result ≡ clamps_in varis.now }
{
    let mut high = 0;
    let mut low = 0;
    for vari in varis {
        let clamp = Clamp::of(*vari);
        high += clamp.high();
        low += clamp.low();
    }
    Clamps { high, low }
}

// Every number of a record times the weight, over the first numbers of out; what is beyond stays.
pub fn mul(lin: &[f64], weight: f64, out: &mut [f64]) -> Result<(), Refusal>
    ensures { MulSays lin.now weight out.old result out.new }
{
    if out.len() < lin.len() {
        return Err(Refusal::TooLittleRoom);
    }
    for (i, x) in lin.iter().enumerate() {
        out[i] = floats::one_nan(*x * weight);
    }
    Ok(())
}

// The weight times rhs, added to lhs: means to means, variances to variances, weight to weight, each as far as both have them.
// Nothing is refused: the length of lhs says which record it is, so there is always room.
pub fn mul_add_assign(lhs: &mut [f64], weight: f64, rhs: &[f64])
    ensures { MulAddSays lhs.old weight rhs.now lhs.new }
{
    let mine = lhs.len() / 2;
    let theirs = rhs.len() / 2;
    let my_end = 2 * mine;
    let their_end = 2 * theirs;
    add_scaled(&mut lhs[..mine], weight, &rhs[..theirs]);
    add_scaled(&mut lhs[mine..my_end], weight, &rhs[theirs..their_end]);
    add_scaled(&mut lhs[my_end..], weight, &rhs[their_end..]);
}

// The weight times rhs, added to lhs as far as both lists go.
fn add_scaled(lhs: &mut [f64], weight: f64, rhs: &[f64])
    ensures { lhs.new ≡ over_shorter (more_by weight) lhs.old rhs.now }
{
    for i in 0..lhs.len().min(rhs.len()) {
        lhs[i] = floats::one_nan(lhs[i] + weight * rhs[i]);
    }
}
