// Numbers at places of lists, and whether a list holds what is right.
ghost use Rattle.std.specs.Prelude.{◌≡◌, ℕ, get_or};
ghost use Rattle.std.specs.Float.{binary64};
ghost use Rattle.std.specs.Float.Ieee.{to_bits};
ghost use Rattle.replay.specs.Holds.{holds, number};

// What is compared by a number that stands for it.
pub trait Numbered: Copy {
    ghost number_of: { Self → ℕ };

    fn number(self) -> u64
        ensures { result ≡ number_of self };
}

impl Numbered for u32 {
    ghost number_of = { number };

    fn number(self) -> u64 {
        u64::from(self)
    }
}

// Floats are the same where their bits are; all NaNs have the same.
impl Numbered for f64 {
    ghost number_of = { to_bits binary64 };

    fn number(self) -> u64 {
        floats::bits_of(self)
    }
}

// What stands at a place, or the other where there is nothing.
pub fn at<T: Copy>(s: &[T], place: usize, other: T) -> T
    ensures { result ≡ get_or s.now place other }
{
    s.get(place).copied().unwrap_or(other)
}

// Whether a list begins with what is right, number by number, and has the mark at every place beyond.
pub fn holds<T: Numbered>(s: &[T], right: &[T], mark: T) -> bool
    ensures { result ≡ holds T.number_of s.now right.now mark }
{
    if s.len() < right.len() {
        return false;
    }
    for (i, x) in s.iter().enumerate() {
        if x.number() != at(right, i, mark).number() {
            return false;
        }
    }
    true
}
