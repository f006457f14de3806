// What is wrong with a job file, and at which byte.
ghost use Rattle.std.specs.Prelude.{◌≡◌, ◌≤◌};
ghost use Rattle.lists.specs.Sizes.{most_job_states};
ghost use Rattle.job.specs.Format.{count_of, state_bytes};
ghost use Rattle.job.specs.Damage.{wrong, found_to, mark_found, word_found, length_found, damage_of};

use crate::Damage;

// What is found wrong with a file, and the place of a byte.
#[derive(Clone, Copy, Debug, PartialEq, Eq)]
pub struct Wrong {
    pub damage: Damage,
    pub place: u64,
}

// A damage at the place of a byte.
fn damaged(damage: Damage, place: usize) -> Result<(), Wrong>
    ensures { result ≡ wrong damage place }
{
    Err(Wrong {
        damage,
        place: place as u64,
    })
}

// What is found of a field, unless the file ends before the field does.
fn found_to(end: usize, bytes: &[u8], field: Result<(), Wrong>) -> Result<(), Wrong>
    ensures { result ≡ found_to end bytes.now field }
{
    let len = bytes.len();
    if len < end {
        return damaged(Damage::Length, len);
    }
    field
}

// Of the mark: the first letter that isn't right is the one behind those that are.
fn mark_found(bytes: &[u8]) -> Result<(), Wrong>
    ensures { result ≡ mark_found bytes.now }
{
    let alike = lists::alike(bytes, b"SPJ");
    if alike < 3 {
        return found_to(alike + 1, bytes, damaged(Damage::Mark, alike));
    }
    Ok(())
}

// Of the 16 bits at a place.
fn word_found(at: usize, least: u64, most: u64, damage: Damage, bytes: &[u8]) -> Result<(), Wrong>
    requires { at ≤ 5 }
    ensures { result ≡ word_found at least most damage bytes.now }
{
    let word = lists::little_endian(bytes, at, 2);
    if (word < least) | (most < word) {
        return found_to(at + 2, bytes, damaged(damage, at));
    }
    found_to(at + 2, bytes, Ok(()))
}

// Bytes of a state. Behind the pair stands its shortest, but for version 1.
pub fn state_bytes(version: u64) -> usize
    ensures { result ≡ state_bytes version }
{
    if version == 1 {
        return 16;
    }
    20
}

// Of the length that the version and the number of states ask for.
fn length_found(bytes: &[u8]) -> Result<(), Wrong>
    requires { count_of bytes.now ≤ most_job_states }
    ensures { result ≡ length_found bytes.now }
{
    let len = bytes.len();
    let version = lists::little_endian(bytes, 3, 2);
    let count = lists::little_endian(bytes, 5, 2) as usize;
    let whole = 15 + state_bytes(version) * count;
    if len == whole {
        return Ok(());
    }
    damaged(Damage::Length, len.min(whole))
}

// What is wrong with a file, the first by place.
pub fn check(bytes: &[u8]) -> Result<(), Wrong>
    ensures { result ≡ damage_of bytes.now }
{
    let mark = mark_found(bytes);
    let version = word_found(3, 1, 2, Damage::Version, bytes);
    let count = word_found(5, 0, 1024, Damage::Count, bytes);
    mark.and(version).and(count)?;
    length_found(bytes)
}
