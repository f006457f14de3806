// The job file: what its bytes say, and the answer of the job.
#![tactic(auto)]

ghost use Rattle.std.specs.Prelude.{◌≡◌, ◌≤◌, length};
ghost use Rattle.lists.specs.Sizes.{most_job_states};
ghost use Rattle.job.specs.Format.{floats_at, numbers_behind, shortest_at, job_at};
ghost use Rattle.job.specs.declared.Failure.TheVariants.{Damaged, Refused};
ghost use Rattle.job.specs.Damage.{sound, damage_of, damage_number, old_number};
ghost use Rattle.job.specs.Inner.Reading.{StatesFitted};
ghost use Rattle.job.specs.Promise.{JobSays};

use finding::Wrong;
use lists::Refusal;

mod finding;
pub mod link;

pub const MOST_STATES: usize = 1024;

// What is wrong with a job file.
#[derive(Clone, Copy, Debug, PartialEq, Eq)]
pub enum Damage {
    Mark,
    Version,
    Count,
    Length,
}

impl Damage {
    // The number of its refusal.
    pub fn number(self) -> u8
        ensures { result ≡ damage_number self }
    {
        match self {
            Damage::Mark => 12,
            Damage::Version => 13,
            Damage::Count => 14,
            Damage::Length => 9,
        }
    }
}

// How many states a job has, their frames, and the unit changes of their fit.
#[derive(Clone, Copy, Debug, PartialEq, Eq)]
pub struct Done {
    pub states: u32,
    pub frames: u32,
    pub changes: u32,
}

// Why a job has no durations. A damaged one has the place of a byte.
#[derive(Clone, Copy, Debug, PartialEq, Eq)]
pub enum Failure {
    Damaged(Damage, u64),
    Refused(Refusal),
}

impl From<Wrong> for Failure {
    ghost from_gives = { λ w f. f ≡ Damaged w.damage w.place };

    fn from(wrong: Wrong) -> Failure {
        Failure::Damaged(wrong.damage, wrong.place)
    }
}

impl From<Refusal> for Failure {
    ghost from_gives = { λ r f. f ≡ Refused r };

    fn from(refusal: Refusal) -> Failure {
        Failure::Refused(refusal)
    }
}

// The old number of a refusal, for programs that know 9 alone.
pub fn old_number(number: u32) -> u32
    ensures { result ≡ old_number number }
{
    if (number == 9) | ((number == 12) | ((number == 13) | (number == 14))) {
        return 9;
    }
    number
}

// A float of each state, from the first one's place on.
fn read_floats(bytes: &[u8], from: usize, step: usize, into: &mut [f64])
    requires { (from ≤ 23) × (step ≤ 20) × (length into.old ≤ most_job_states) }
    ensures { into.new ≡ floats_at bytes.now from step (length into.old) }
{
    for (i, float) in into.iter_mut().enumerate() {
        *float = floats::of_bytes(bytes, from + step * i);
    }
}

// The shortest of each state of version 2.
fn read_numbers(bytes: &[u8], into: &mut [u32])
    requires { length into.old ≤ most_job_states }
    ensures { into.new ≡ numbers_behind bytes.now (length into.old) }
{
    for (i, number) in into.iter_mut().enumerate() {
        *number = lists::little_u32(bytes, 31 + 20 * i);
    }
}

// The shortest of each state. Version 1 has none, and each is 1.
fn read_shortest(bytes: &[u8], version: u64, into: &mut [u32])
    requires { length into.old ≤ most_job_states }
    ensures { into.new ≡ shortest_at version bytes.now (length into.old) }
{
    if version == 1 {
        into.fill(1);
        return;
    }
    read_numbers(bytes, into);
}

// Fits n states, which stand in the bytes, to the speed that stands before them.
fn fit_states(bytes: &[u8], n: usize, out: &mut [u32], work: &mut [u32]) -> Result<u32, Refusal>
    requires { n ≤ most_job_states }
    ensures { StatesFitted (job_at bytes.now n) out.old work.old result out.new work.new }
{
    let version = lists::little_endian(bytes, 3, 2);
    let step = finding::state_bytes(version);
    let mut means = [0.0; MOST_STATES];
    let mut varis = [0.0; MOST_STATES];
    let mut shortest = [0u32; MOST_STATES];
    read_floats(bytes, 15, step, &mut means[..n]);
    read_floats(bytes, 23, step, &mut varis[..n]);
    read_shortest(bytes, version, &mut shortest[..n]);
    duration::create(
        &means[..n],
        &varis[..n],
        &shortest[..n],
        floats::of_bytes(bytes, 7),
        out,
        work,
    )
}

// Answers a file with which nothing is wrong.
fn answer_sound(bytes: &[u8], out: &mut [u32], work: &mut [u32]) -> Result<Done, Failure>
    requires { damage_of bytes.now ≡ sound }
    ensures { JobSays bytes.now out.old work.old result out.new work.new }
{
    let states = lists::little_endian(bytes, 5, 2) as u32;
    let n = states as usize;
    let answer = fit_states(bytes, n, out, work);
    let Ok(changes) = answer else {
        return Err(Failure::Refused(answer.unwrap_err()));
    };
    let frames = lists::total_u32(&out[..n]) as u32;
    Ok(Done {
        states,
        frames,
        changes,
    })
}

// The durations of a job's states, at its speed.
pub fn answer(bytes: &[u8], out: &mut [u32], work: &mut [u32]) -> Result<Done, Failure>
    ensures { JobSays bytes.now out.old work.old result out.new work.new }
{
    finding::check(bytes)?;
    answer_sound(bytes, out, work)
}
