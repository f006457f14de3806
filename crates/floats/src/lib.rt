// Float leaves, worked out from the bits.
#![tactic(auto)]

ghost use Rattle.std.specs.Prelude.{◌≡◌, ◌*◌, ◌^◌, ◌≤◌, ◌<◌, T, take, drop};
ghost use Rattle.std.specs.Float.{binary64};
ghost use Rattle.std.specs.Float.Ieee.{of_bits, to_bits, le};
ghost use Rattle.std.proofs.lemmas.List.Edits.{sets};
ghost use Rattle.lists.specs.Bytes.{little, bytes_of};
ghost use Rattle.floats.specs.Numbers.{one};
ghost use Rattle.floats.specs.Rounding.{rounded_of, nearest_half};
ghost use Rattle.floats.specs.Order.{abs_of, cost_below};
ghost use Rattle.floats.specs.Root.{nearest_root, sqrt_of};
ghost use Rattle.floats.specs.Inner.Scaled.{IsScaled};

// digits * 2 ^ scale / 2 ^ 52 to the nearest whole number, a half upward: in units of 1 / 2 ^ 46 a half is added, and the rest cut.
fn without_fraction(digits: u64, scale: u64) -> u64
    requires { (digits < 2 ^ 53) × (scale ≤ 16) }
    ensures { result ≡ nearest_half (digits * 2 ^ scale) (2 ^ 52) }
{
    // Six digits go to make room for the scale: they lie below every half.
    let units = (digits / 64) << scale;
    (units + 0x2000_0000_0000) / 0x4000_0000_0000
}

// x, or 1 where x is below it or NaN: both round to 1.
fn at_least_one(x: f64) -> f64
    ensures { (rounded_of result ≡ rounded_of x) × T (le one result) }
{
    if x > 1.0 {
        return x;
    }
    1.0
}

// A number from 1 to 65,537 that rounds as x does. One end after the other, each test compiles to an instruction without a jump.
fn within(x: f64) -> f64
    ensures { (rounded_of result ≡ rounded_of x) × T (le one result) × T (le result (of_bits binary64 0x40f0_0010_0000_0000)) }
{
    let y = at_least_one(x);
    if y < 65_537.0 {
        return y;
    }
    65_537.0
}

// How many frames x stands for: the nearest whole number, halves away from zero, at least 1; 65,537 for all above 65,536.
pub fn rounded(x: f64) -> u32
    ensures { result ≡ rounded_of x }
{
    let bits: u64 = f64::to_bits(within(x));
    let digits = bits % 0x10_0000_0000_0000 + 0x10_0000_0000_0000;
    without_fraction(digits, (bits >> 52) - 1023) as u32
}

// |x|: the sign's bit is cleared.
pub fn magnitude(x: f64) -> f64
    ensures { result ≡ abs_of x }
{
    if x != x {
        return 0.0 / 0.0;
    }
    f64::from_bits(f64::to_bits(x) & 0x7fff_ffff_ffff_ffff)
}

// The bit pattern of |x|, with one pattern for every NaN.
pub fn magnitude_bits(x: f64) -> u64
    ensures { result ≡ to_bits binary64 (abs_of x) }
{
    if x != x {
        return 0x7ff8_0000_0000_0000;
    }
    f64::to_bits(x) & 0x7fff_ffff_ffff_ffff
}

// Whether the cost a comes strictly before the cost b: all NaNs are equal and come last.
pub fn cost_below(a: f64, b: f64) -> bool
    ensures { result ≡ cost_below a b }
{
    if a != a {
        return false;
    }
    if b != b {
        return true;
    }
    a < b
}

// The whole number nearest to the square root of d * 2 ^ 52, two binary digits of it a turn.
fn nearest_root(d: u64) -> u64
    requires { d < 2 ^ 54 }
    ensures { result ≡ nearest_root (d * 2 ^ 52) }
{
    let mut root: u64 = 0;
    let mut left: u64 = 0;
    let mut rest = d;
    for _turn in 0..53u64 {
        let next = left * 4 + rest / 0x10_0000_0000_0000;
        rest = rest % 0x10_0000_0000_0000 * 4;
        let trial = root * 4 + 1;
        if trial <= next {
            left = next - trial;
            root = root * 2 + 1;
        } else {
            left = next;
            root = root * 2;
        }
    }
    if left > root {
        return root + 1;
    }
    root
}

// A positive finite float as digits * 2 ^ scale / 2 ^ 1126, with 53 digits.
#[derive(Clone, Copy)]
struct Scaled {
    digits: u64,
    scale: u64,
}

fn scale_of(bits: u64) -> Scaled
    requires { (0 < bits) × (bits < 0x7ff0_0000_0000_0000) }
    ensures { IsScaled (of_bits binary64 bits) result.digits result.scale }
{
    let field = bits >> 52;
    if field == 0 {
        let shift = u64::leading_zeros(bits) - 11;
        return Scaled {
            digits: bits << shift,
            scale: 52 - (shift as u64),
        };
    }
    Scaled {
        digits: (bits & 0xf_ffff_ffff_ffff) | 0x10_0000_0000_0000,
        scale: field + 51,
    }
}

fn finite_root(bits: u64) -> f64
    requires { (0 < bits) × (bits < 0x7ff0_0000_0000_0000) }
    ensures { result ≡ sqrt_of (of_bits binary64 bits) }
{
    let s = scale_of(bits);
    let scale = s.scale;
    let root = nearest_root(s.digits << (scale % 2));
    f64::from_bits((scale / 2 + 485) * 0x10_0000_0000_0000 + root)
}

// The square root of x, correctly rounded.
pub fn sqrt(x: f64) -> f64
    ensures { result ≡ sqrt_of x }
{
    if x != x {
        return 0.0 / 0.0;
    }
    if x == 0.0 {
        return x;
    }
    let bits: u64 = f64::to_bits(x);
    if bits == 0x7ff0_0000_0000_0000 {
        return x;
    }
    if bits > 0x7ff0_0000_0000_0000 {
        return 0.0 / 0.0;
    }
    finite_root(bits)
}

// x, as it is stored in a lent list: every NaN has the bits 0x7FF8000000000000, which are what the division gives.
pub fn one_nan(x: f64) -> f64
    ensures { result ≡ x }
{
    if x != x {
        return 0.0 / 0.0;
    }
    x
}

// The bit pattern of x, with one pattern for every NaN.
pub fn bits_of(x: f64) -> u64
    ensures { result ≡ to_bits binary64 x }
{
    if x != x {
        return 0x7ff8_0000_0000_0000;
    }
    f64::to_bits(x)
}

// The float of a bit pattern; every NaN pattern is the one NaN.
pub fn of_bits(bits: u64) -> f64
    ensures { result ≡ of_bits binary64 bits }
{
    if bits % 0x8000_0000_0000_0000 > 0x7ff0_0000_0000_0000 {
        return 0.0 / 0.0;
    }
    f64::from_bits(bits)
}

// The float of eight little-endian bytes from a place on; bytes past the end count as 0.
pub fn of_bytes(bytes: &[u8], at: usize) -> f64
    ensures { result ≡ of_bits binary64 (little (take 8 (drop at bytes.now))) }
{
    of_bits(lists::little_endian(bytes, at, 8))
}

// x as eight little-endian bytes from a place on, as far as there is room.
pub fn to_bytes(x: f64, bytes: &mut [u8], at: usize)
    ensures { bytes.new ≡ sets bytes.old at (bytes_of 8 (to_bits binary64 x)) }
{
    lists::put_little_endian(bytes, at, 8, bits_of(x));
}
