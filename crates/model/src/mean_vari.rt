// A mean and a variance, or a mean and an inverse variance, of a normal distribution.
ghost use Rattle.std.specs.Prelude.{◌≡◌};
ghost use Rattle.lists.specs.Flags.{flag};
ghost use Rattle.floats.specs.Numbers.{nought};
ghost use Rattle.model.specs.Pair.{pair, inverse_by, clamp_of, inverted, with0, weighted_by, plus, sum_of};
ghost use Rattle.model.specs.Clamps.{is_high, is_low};

#[derive(Clone, Copy, Debug, PartialEq)]
pub struct MeanVari(pub f64, pub f64);

// Whether the inverse of a variance is clamped: high where its size is above 1e19, low where it is below 1e-19. NaN is neither.
#[derive(Clone, Copy, Debug, PartialEq, Eq)]
pub enum Clamp {
    High,
    Low,
    No,
}

impl Clamp {
    #[tactic(auto, unfolding(crate::specs::Pair::clamp_of))]
    pub fn of(vari: f64) -> Self
        ensures { result ≡ clamp_of vari }
    {
        let size = floats::magnitude(vari);
        if size > 1e19 {
            return Clamp::High;
        }
        if size < 1e-19 {
            return Clamp::Low;
        }
        Clamp::No
    }

    // The inverse of a variance that is clamped so.
    pub fn inverse(self, vari: f64) -> f64
        ensures { result ≡ inverse_by self vari }
    {
        match self {
            Clamp::High => 0.0,
            Clamp::Low => 1e38,
            Clamp::No => 1.0 / vari,
        }
    }

    // 1 where it is high, and 0 where not.
    pub fn high(self) -> usize
        ensures { result ≡ flag (is_high self) }
    {
        usize::from(self == Clamp::High)
    }

    pub fn low(self) -> usize
        ensures { result ≡ flag (is_low self) }
    {
        usize::from(self == Clamp::Low)
    }
}

// A pair with its inverse variance, and whether that was clamped.
#[derive(Clone, Copy, Debug, PartialEq)]
pub struct Inverted {
    pub pair: MeanVari,
    pub clamp: Clamp,
}

impl MeanVari {
    pub fn new(mean: f64, vari: f64) -> Self
        ensures { result ≡ pair mean vari }
    {
        MeanVari(mean, vari)
    }

    // What sums start from.
    pub fn zero() -> Self
        ensures { result ≡ pair nought nought }
    {
        Self::new(0.0, 0.0)
    }

    pub fn with_ivar(self) -> Inverted
        ensures { result ≡ inverted self }
    {
        let clamp = Clamp::of(self.1);
        Inverted {
            pair: Self::new(self.0, clamp.inverse(self.1)),
            clamp,
        }
    }

    pub fn with_0(self) -> Self
        ensures { result ≡ with0 self }
    {
        Self::new(self.0, 0.0)
    }

    pub fn weighted(self, weight: f64) -> Self
        ensures { result ≡ weighted_by self weight }
    {
        Self::new(self.0 * weight, self.1 * weight)
    }

    pub fn add(self, rhs: Self) -> Self
        ensures { result ≡ plus self rhs }
    {
        Self::new(self.0 + rhs.0, self.1 + rhs.1)
    }
}

// The pairs of lent means and variances added up from (0, 0), left to right, as far as both lists go.
pub fn sum(means: &[f64], varis: &[f64]) -> MeanVari
    ensures { result ≡ sum_of means.now varis.now }
{
    let mut total = MeanVari::zero();
    for (mean, vari) in means.iter().zip(varis) {
        total = total.add(MeanVari::new(*mean, *vari));
    }
    total
}
