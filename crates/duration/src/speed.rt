// Durations at a speed.
ghost use Rattle.std.specs.Prelude.{◌≡◌};
ghost use Rattle.steps.specs.Steps.{least};
ghost use Rattle.steps.specs.Lent.{lent};
ghost use Rattle.duration.specs.Speed.{fit_at, refusal_at};
ghost use Rattle.duration.specs.Inner.Asked.{Agree, InPlace};

use lists::Refusal;
use steps::States;

// The durations at a speed, in place in work; low is the sum of the shortest.
pub(crate) fn fit_at(states: States, low: u32, speed: f64, work: &mut [u32]) -> Result<u32, Refusal>
    requires agree { Agree (lent states) work.old }
    requires low_value { low ≡ least (lent states) }
    ensures { InPlace (refusal_at (lent states.entry) speed) (fit_at (lent states.entry) speed) result work.new }
{
    let sum = crate::fit::estimate_duration(states, 0.0, work);
    if sum > 65_536 {
        return Err(Refusal::EstimateTooLong);
    }
    if speed == 1.0 {
        return Ok(0);
    }
    let target = floats::rounded((sum as f64) / speed);
    crate::fit::fit(states, low, target, work)
}
