// The timing file: the spans of words are written to it, and read from it.
ghost use Rattle.std.specs.Prelude.{◌≡◌, ◌+◌, ◌*◌, ◌^◌, ◌≤◌, ◌<◌, length};
ghost use Rattle.std.proofs.lemmas.List.Edits.{sets};
ghost use Rattle.read_along.specs.Words.{span, spans_of};
ghost use Rattle.read_along.specs.Format.{head_bytes, span_bytes, count_of, spans_in, touching, formed, bytes_of_span, bytes_of_spans, bytes_of_heading};
ghost use Rattle.read_along.specs.Promise.{all_ends, WriteSays, ReadSays};
ghost use Rattle.read_along.specs.Inner.Steps.{Timed};

use crate::{FIRST, Words, WordsRefusal};

const HEAD: usize = 9;

// Bytes of a word's two numbers.
const SPAN: usize = 8;

// The mark, the version and the number of words.
fn put_heading(out: &mut [u8], count: usize)
    requires { count < 2 ^ 32 }
    ensures { out.new ≡ sets out.old 0 (bytes_of_heading count) }
{
    lists::copy(b"RAL", 3, out);
    lists::put_little_endian(out, 3, 2, 1);
    lists::put_little_endian(out, 5, 4, count as u64);
}

// A word's two numbers, behind those of the words before it.
fn put_span(out: &mut [u8], word: usize, first: u32, after: u32)
    requires { word < 2 ^ 32 }
    ensures { out.new ≡ sets out.old (head_bytes + span_bytes * word) (bytes_of_span (span first after)) }
{
    let at = HEAD + SPAN * word;
    lists::put_u32(out, at, first);
    lists::put_u32(out, at + 4, after);
}

// The spans of all words, behind the heading.
fn put_spans(words: Words, out: &mut [u8])
    requires { Timed words.labels.now words.nstate words.durations.now }
    ensures { out.new ≡ sets out.old head_bytes (bytes_of_spans (spans_of words.entry.labels.now words.entry.nstate words.entry.durations.now)) }
{
    let mut here = FIRST;
    for i in 0..words.labels.len() {
        let next = words.behind(i, here);
        put_span(out, i, here.frame, next.frame);
        here = next;
    }
}

// The timing file of words, and how many bytes it has.
pub fn write(
    words: &[u32],
    nstate: u32,
    durations: &[u32],
    out: &mut [u8],
) -> Result<u64, WordsRefusal>
    ensures { WriteSays words.now nstate durations.now out.old result out.new }
{
    let words = Words {
        labels: words,
        nstate,
        durations,
    };
    words.check_timing()?;
    let count = words.labels.len();
    let length = HEAD + SPAN * count;
    if out.len() < length {
        return Err(WordsRefusal::TooLittleRoom);
    }
    put_heading(out, count);
    put_spans(words, out);
    Ok(length as u64)
}

// How many words a file says that it has.
fn count_of(bytes: &[u8]) -> usize
    ensures { result ≡ count_of bytes.now }
{
    lists::little_u32(bytes, 5) as usize
}

// Whether the words of a file touch, from 0 on.
fn touch(bytes: &[u8], count: usize) -> bool
    requires { count ≡ count_of bytes.now }
    ensures { result ≡ touching 0 (spans_in bytes.now) }
{
    let mut end = 0;
    for i in 0..count {
        let at = HEAD + SPAN * i;
        let first = lists::little_u32(bytes, at);
        let after = lists::little_u32(bytes, at + 4);
        if (first != end) | (after < end) {
            return false;
        }
        end = after;
    }
    true
}

// Whether a file is well formed.
fn is_formed(bytes: &[u8]) -> bool
    ensures { result ≡ formed bytes.now }
{
    if !lists::starts_with(bytes, b"RAL") {
        return false;
    }
    if lists::little_endian(bytes, 3, 2) != 1 {
        return false;
    }
    let count = count_of(bytes);
    if bytes.len() != HEAD + SPAN * count {
        return false;
    }
    touch(bytes, count)
}

// The spans of a file.
fn take_spans(bytes: &[u8], count: usize, spans: &mut [u32])
    requires { (count ≡ count_of bytes.now) × (2 * count ≤ length spans.old) }
    ensures { spans.new ≡ sets spans.old 0 (all_ends (spans_in bytes.now)) }
{
    for i in 0..count {
        let at = HEAD + SPAN * i;
        let first = lists::little_u32(bytes, at);
        let after = lists::little_u32(bytes, at + 4);
        crate::put_span(spans, i, first, after);
    }
}

// The spans that a timing file says, and how many words it has.
pub fn read(bytes: &[u8], spans: &mut [u32]) -> Result<u32, WordsRefusal>
    ensures { ReadSays bytes.now spans.old result spans.new }
{
    if !is_formed(bytes) {
        return Err(WordsRefusal::Malformed);
    }
    let count = count_of(bytes);
    if spans.len() < 2 * count {
        return Err(WordsRefusal::TooLittleRoom);
    }
    take_spans(bytes, count, spans);
    Ok(count as u32)
}
