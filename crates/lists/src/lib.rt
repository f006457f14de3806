// Total functions on lent lists: whatever the places and counts, they do what the list has room for.
#![tactic(auto)]

ghost use Rattle.std.specs.Prelude.{◌≡◌, [], ◌∷◌, ◌*◌, ◌^◌, min, max, take, drop, replicate, leb};
ghost use Rattle.std.proofs.lemmas.List.Edits.{sets};
ghost use Rattle.lists.specs.Totals.{total};
ghost use Rattle.lists.specs.Parts.{PartSays};
ghost use prog.Memory.{size};
ghost use denote.Param.{layout};
ghost use Rattle.lists.specs.Refusals.{number_of};
ghost use Rattle.lists.specs.Bytes.{little, bytes_of, alike, starts_with};
ghost use Rattle.lists.specs.Firsts.{first_at, instead, replaced};

// Why a call is refused; of a damaged job the crate `job` says why.
#[derive(Clone, Copy, Debug, PartialEq, Eq)]
pub enum Refusal {
    BadWindows,
    BadCoefficient,
    BadSize,
    ListsDisagree,
    TooManyFrames,
    TooLittleRoom,
    TargetTooLong,
    EstimateTooLong,
    NoSuchPlace,
    JobEnded,
    BadShortest,
    SettingsVersion,
    StoreFull,
    SettingsMalformed,
    VoiceNotHeld,
    RunWithGv,
    NoSuchRun,
    RunFirstWindow,
    NotYourSlot,
    SlotEmpty,
    SlotSet,
}

impl Refusal {
    // Its number, by which C and the programs know it.
    pub fn number(self) -> u8
        ensures { result ≡ number_of self }
    {
        match self {
            Refusal::BadWindows => 1,
            Refusal::BadCoefficient => 2,
            Refusal::BadSize => 3,
            Refusal::ListsDisagree => 4,
            Refusal::TooManyFrames => 5,
            Refusal::TooLittleRoom => 6,
            Refusal::TargetTooLong => 7,
            Refusal::EstimateTooLong => 8,
            Refusal::NoSuchPlace => 10,
            Refusal::JobEnded => 11,
            Refusal::BadShortest => 15,
            Refusal::SettingsVersion => 16,
            Refusal::StoreFull => 17,
            Refusal::SettingsMalformed => 18,
            Refusal::VoiceNotHeld => 19,
            Refusal::RunWithGv => 20,
            Refusal::NoSuchRun => 21,
            Refusal::RunFirstWindow => 22,
            Refusal::NotYourSlot => 23,
            Refusal::SlotEmpty => 24,
            Refusal::SlotSet => 25,
        }
    }
}

// Where numbers stand in a list: the place of the first, and how many.
#[derive(Clone, Copy, Debug, PartialEq, Eq)]
pub struct Span {
    pub first: u64,
    pub count: u64,
}

// The first n items become v.
pub fn fill<T: Copy>(s: &mut [T], n: usize, v: T)
    ensures { s.new ≡ sets s.old 0 (replicate n v) }
{
    for i in 0..n.min(s.len()) {
        s[i] = v;
    }
}

// The first n items of src, over those of dst: by a loop, as `copy_from_slice` would ask whoever links the archive for memmove.
pub fn copy<T: Copy>(src: &[T], n: usize, dst: &mut [T])
    ensures { dst.new ≡ sets dst.old 0 (take n src.now) }
{
    let end = n.min(src.len()).min(dst.len());
    for (i, item) in src[..end].iter().enumerate() {
        dst[i] = *item;
    }
}

// Whether so many items of a size fit into a length.
pub fn has_room(count: usize, size: usize, length: usize) -> bool
    ensures { result ≡ leb (count * size) length }
{
    if size == 0 {
        return true;
    }
    count <= length / size
}

// The sum of the first 2 ^ 32 numbers, which can't pass 64 bits. No list of this library's callers is longer.
pub fn total_u32(s: &[u32]) -> u64
    ensures { result ≡ total (take (2 ^ 32) s.now) }
{
    let mut sum = 0;
    for x in &s[..s.len().min(0x1_0000_0000)] {
        sum += u64::from(*x);
    }
    sum
}

// As many as count items from a place on, as far as there are any: a part of the lent list itself.
pub fn part<'a, T>(s: &'a [T], from: usize, count: usize) -> &'a [T]
    ensures { PartSays (size (layout T.row)) s.entry from count result }
{
    let start = from.min(s.len());
    let end = start + count.min(s.len() - start);
    &s[start..end]
}

// The number that the bytes from a place on say, the least byte first: width bytes, eight at most, as far as there are any.
pub fn little_endian(bytes: &[u8], at: usize, width: usize) -> u64
    ensures { result ≡ little (take (min width 8) (drop at bytes.now)) }
{
    // Past here `part` has less to compare, and LLVM less to work out in a caller's loop.
    if bytes.len() <= at {
        return 0;
    }
    let said = part(bytes, at, width.min(8));
    let mut number = 0;
    for i in (0..said.len()).rev() {
        number = number * 256 + u64::from(said[i]);
    }
    number
}

// The same of four bytes; where all are there they are read with no loop, and so by one load.
pub fn little_u32(bytes: &[u8], at: usize) -> u32
    ensures { result ≡ little (take 4 (drop at bytes.now)) }
{
    let n = bytes.len();
    if n < 4 {
        return cut_u32(bytes, at);
    }
    if n - 4 < at {
        return cut_u32(bytes, at);
    }
    of_four(bytes[at], bytes[at + 1], bytes[at + 2], bytes[at + 3])
}

// Where not all are there: apart, as LLVM works out that loop's bounds at each turn of a caller's loop, whether or not it is reached.
#[inline(never)]
fn cut_u32(bytes: &[u8], at: usize) -> u32
    ensures { result ≡ little (take 4 (drop at bytes.now)) }
{
    little_endian(bytes, at, 4) as u32
}

fn of_four(a: u8, b: u8, c: u8, d: u8) -> u32
    ensures { result ≡ little (a ∷ b ∷ c ∷ d ∷ []) }
{
    a as u32 + 256 * (b as u32) + 65_536 * (c as u32) + 16_777_216 * (d as u32)
}

// A number as width bytes from a place on, eight at most, the least byte first, as far as there is room.
pub fn put_little_endian(bytes: &mut [u8], at: usize, width: usize, number: u64)
    ensures { bytes.new ≡ sets bytes.old at (bytes_of (min width 8) number) }
{
    let count = width.min(8).min(bytes.len().saturating_sub(at));
    let mut rest = number;
    for i in 0..count {
        bytes[at + i] = (rest % 256) as u8;
        rest /= 256;
    }
}

// The same of four bytes; where there is room for all they are written with no loop, and so by one store.
pub fn put_u32(bytes: &mut [u8], at: usize, number: u32)
    ensures { bytes.new ≡ sets bytes.old at (bytes_of 4 number) }
{
    let n = bytes.len();
    if n < 4 {
        put_cut_u32(bytes, at, number);
        return;
    }
    if n - 4 < at {
        put_cut_u32(bytes, at, number);
        return;
    }
    bytes[at] = (number % 256) as u8;
    bytes[at + 1] = (number / 256 % 256) as u8;
    bytes[at + 2] = (number / 65_536 % 256) as u8;
    bytes[at + 3] = (number / 16_777_216 % 256) as u8;
}

// Where there isn't room for all: apart, for the same reason.
#[inline(never)]
fn put_cut_u32(bytes: &mut [u8], at: usize, number: u32)
    ensures { bytes.new ≡ sets bytes.old at (bytes_of 4 number) }
{
    put_little_endian(bytes, at, 4, u64::from(number));
}

// The place of the first of these numbers that is v, or their length where none is.
pub fn first_u32(s: &[u32], v: u32) -> usize
    ensures { result ≡ first_at v s.now }
{
    s.iter().position(|x| *x == v).unwrap_or(s.len())
}

// Each of these numbers that is old becomes new.
pub fn replace_u32(s: &mut [u32], old: u32, new: u32)
    ensures { s.new ≡ replaced old new s.old }
{
    for number in s {
        *number = instead(*number, old, new);
    }
}

// A number, or where it is old the new one.
fn instead(number: u32, old: u32, new: u32) -> u32
    ensures { result ≡ instead old new number }
{
    if number == old {
        return new;
    }
    number
}

// How many bytes at the front of both are the same.
pub fn alike(bytes: &[u8], front: &[u8]) -> usize
    ensures { result ≡ alike front.now bytes.now }
{
    let n = bytes.len().min(front.len());
    for i in 0..n {
        if bytes[i] != front[i] {
            return i;
        }
    }
    n
}

// Whether bytes begin with these.
pub fn starts_with(bytes: &[u8], front: &[u8]) -> bool
    ensures { result ≡ starts_with front.now bytes.now }
{
    alike(bytes, front) == front.len()
}
