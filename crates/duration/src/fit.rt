// Estimates, and the fit of states to a target.
ghost use Rattle.std.specs.Prelude.{◌≡◌};
ghost use Rattle.steps.specs.Steps.{state, least};
ghost use Rattle.steps.specs.Lent.{lent};
ghost use Rattle.duration.specs.Estimate.{estimate_of};
ghost use Rattle.duration.specs.Fit.{rho_of, fit_to, refusal_to};
ghost use Rattle.duration.specs.Inner.Asked.{Agree, Estimated, InPlace};

use lists::Refusal;
use steps::States;

fn estimate(rho: f64, mean: f64, vari: f64, shortest: u32) -> u32
    ensures { result ≡ estimate_of rho (state mean vari shortest) }
{
    shortest.max(floats::rounded(mean + rho * vari))
}

// The states' estimates, into work, and their total.
pub(crate) fn estimate_duration(states: States, rho: f64, work: &mut [u32]) -> u64
    requires { Agree (lent states) work.old }
    ensures { Estimated rho (lent states.entry) result work.new }
{
    let mut sum = 0;
    for i in 0..work.len() {
        let frames = estimate(rho, states.means[i], states.varis[i], states.shortest[i]);
        work[i] = frames;
        sum += u64::from(frames);
    }
    sum
}

fn rho_of(states: States, target: u32) -> f64
    ensures { result ≡ rho_of states.entry.means.now states.entry.varis.now target }
{
    let sum = model::mean_vari::sum(states.means, states.varis);
    ((target as f64) - sum.0) / sum.1
}

// The fit to a target, in place in work; low is the sum of the shortest.
pub(crate) fn fit(states: States, low: u32, target: u32, work: &mut [u32]) -> Result<u32, Refusal>
    requires agree { Agree (lent states) work.old }
    requires low_value { low ≡ least (lent states) }
    ensures { InPlace (refusal_to (lent states.entry) target) (fit_to (lent states.entry) target) result work.new }
{
    if states.means.is_empty() {
        return Ok(0);
    }
    if target > 65_536 {
        return Err(Refusal::TargetTooLong);
    }
    if target <= low {
        lists::copy(states.shortest, states.shortest.len(), work);
        return Ok(0);
    }
    let rho = rho_of(states, target);
    estimate_duration(states, rho, work);
    let s = states;
    let Some(changes) = steps::settle(rho, target, s.means, s.varis, s.shortest, work) else {
        return Err(Refusal::EstimateTooLong);
    };
    Ok(changes)
}
