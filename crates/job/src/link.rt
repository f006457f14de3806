// The job over the serial link. It comes in parts, which stand in a memory that the caller lends, and is answered at its end.
ghost use Rattle.std.specs.Prelude.{◌≡◌, ◌-◌, ◌≤◌, [], ◌∷◌, is_some, unwrap_or};
ghost use Rattle.lists.specs.Answers.{answer_of};
ghost use Rattle.lists.specs.Ends.{counted, refused};
ghost use Rattle.job.specs.Link.{link_room, stage, stage_of, has_ended, begin_refusal, link_refusal};
ghost use Rattle.job.specs.LinkPromise.{LinkBeginSays, LinkPartSays, LinkEndSays};

use crate::{Done, Failure};
use lists::Refusal;

// Bytes of a job that are kept, one more than the largest has; and bytes of a link's memory, with the number in front.
pub const ROOM: usize = 20_496;

pub const BYTES: usize = 20_504;

// The number where there is no room left.
const FULL: u64 = 20_497;

// The number that stands in front: of a job that is under way, by the bytes that have come, or of none.
fn stage(came: Option<usize>) -> u64
    requires { unwrap_or came 0 ≤ link_room }
    ensures { result ≡ stage (is_some came) (unwrap_or came 0) }
{
    match came {
        Some(came) => came as u64 + 1,
        None => 0,
    }
}

fn has_ended(link: &[u8]) -> bool
    ensures { result ≡ has_ended link.now }
{
    let stage = lists::little_endian(link, 0, 8);
    (stage == 0) | (stage > FULL)
}

// Whether a job can be begun: the memory isn't too short.
fn check_begin(link: &[u8]) -> Result<(), Refusal>
    ensures { refused result ≡ begin_refusal link.now }
{
    if link.len() < BYTES {
        return Err(Refusal::TooLittleRoom);
    }
    Ok(())
}

// Whether a part and an end are taken.
fn check_open(link: &[u8]) -> Result<(), Refusal>
    ensures { refused result ≡ link_refusal link.now }
{
    if has_ended(link) {
        return Err(Refusal::JobEnded);
    }
    check_begin(link)
}

// How many bytes of the job have come, where a part and an end are taken.
fn came_in(link: &[u8]) -> Result<usize, Refusal>
    ensures { counted result ≡ answer_of (link_refusal link.now) ((stage_of link.now - 1) ∷ []) }
{
    check_open(link)?;
    Ok((lists::little_endian(link, 0, 8) - 1) as usize)
}

// Starts a job, whatever the memory holds.
pub fn begin(link: &mut [u8]) -> Result<(), Refusal>
    ensures { LinkBeginSays link.old result link.new }
{
    check_begin(link)?;
    lists::put_little_endian(link, 0, 8, stage(Some(0)));
    Ok(())
}

// Takes a part of the job, of any length and cut anywhere: behind the bytes that have come, as far as there is room.
pub fn part(link: &mut [u8], bytes: &[u8]) -> Result<(), Refusal>
    ensures { LinkPartSays link.old bytes.now result link.new }
{
    let came = came_in(link)?;
    let more = bytes.len().min(ROOM - came);
    lists::copy(bytes, more, &mut link[8 + came..]);
    lists::put_little_endian(link, 0, 8, stage(Some(came + more)));
    Ok(())
}

// Ends the job, and answers it as the file of its bytes is answered, after which none is under way.
pub fn end(link: &mut [u8], out: &mut [u32], work: &mut [u32]) -> Result<Done, Failure>
    ensures { LinkEndSays link.old out.old work.old result link.new out.new work.new }
{
    let to = 8 + came_in(link)?;
    let answer = crate::answer(&link[8..to], out, work);
    lists::put_little_endian(link, 0, 8, stage(None));
    answer
}
