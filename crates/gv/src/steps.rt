// A step of the descent: its size, and a frame's value after it.
ghost use Rattle.std.specs.Prelude.{◌≡◌};
ghost use Rattle.std.specs.Float.{nan};
ghost use Rattle.gv.specs.Gv.{step_init, size_after};
ghost use Rattle.gv.specs.Inner.Turns.{pulled};

use super::MlpgGlobalVariance;
use super::objective::{W1, W2};

// What a step is the same in for every frame.
#[derive(Clone, Copy)]
pub(crate) struct Pull {
    pub(crate) weight: f64,
    pub(crate) dv: f64,
    pub(crate) scale: f64,
    pub(crate) spread: f64,
    pub(crate) twice: f64,
    pub(crate) mean: f64,
    pub(crate) step: f64,
}

// A frame's value x after the step: b is its switch, g its gradient, m its right side.
pub(crate) fn next_at(s: Pull, diagonal: f64, b: bool, g: f64, m: f64, x: f64) -> f64
    ensures { result ≡ pulled s diagonal b g m x }
{
    let d = x - s.mean;
    let h = -W1 * s.weight * diagonal - s.scale * (s.spread + s.twice * d * d);
    let pull = W1 * s.weight * (-g + m);
    if b {
        return x + s.step * (1.0 / h * (pull + W2 * s.dv * d));
    }
    x + s.step * (1.0 / h * pull)
}

// The size of the step, and the objective before it: NaN where there is none, which changes no size.
#[derive(Clone, Copy)]
pub(crate) struct Descent {
    pub(crate) step: f64,
    pub(crate) prev: f64,
}

impl Descent {
    pub(crate) fn start() -> Descent
        ensures { (result.step ≡ step_init) × (result.prev ≡ nan) }
    {
        Descent {
            step: MlpgGlobalVariance::STEPINIT,
            prev: 0.0 / 0.0,
        }
    }

    pub(crate) fn size_after(self, obj: f64) -> f64
        ensures { result ≡ size_after self.step self.prev obj }
    {
        if obj > self.prev {
            return self.step * MlpgGlobalVariance::STEPDEC;
        }
        if obj < self.prev {
            return self.step * MlpgGlobalVariance::STEPINC;
        }
        self.step
    }
}
