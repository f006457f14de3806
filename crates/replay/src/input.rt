// What a replay reads from standard input. No contract can say what is read.
ghost use Rattle.std.specs.Prelude.{◌≤◌, length};
ghost use Rattle.replay.specs.Input.{Front};

use std::io::Read;

// What standard input had for some bytes.
#[derive(Clone, Copy, Debug, PartialEq, Eq)]
pub enum Came {
    Whole,
    Cut,
    Nothing,
}

// What a list of standard input is made of, the least byte of each item first.
pub trait Item: Copy {
    // The next item, if it comes whole.
    fn read_from<R: Read>(from: &mut R) -> Option<Self>;

    // Fills a list with the items that come next, if they come whole.
    fn fill_from<R: Read>(from: &mut R, into: &mut [Self]) -> Option<()> {
        for item in into.iter_mut() {
            *item = Self::read_from(from)?;
        }
        Some(())
    }
}

impl Item for u8 {
    fn read_from<R: Read>(from: &mut R) -> Option<u8> {
        let [byte] = bytes_of::<R, 1>(from)?;
        Some(byte)
    }

    // Standard input is not buffered: all bytes by one read, where it gives them, and not one a byte.
    fn fill_from<R: Read>(from: &mut R, into: &mut [u8]) -> Option<()> {
        let Came::Whole = read(from, into) else {
            return None;
        };
        Some(())
    }
}

impl Item for u32 {
    fn read_from<R: Read>(from: &mut R) -> Option<u32> {
        Some(u32::from_le_bytes(bytes_of::<R, 4>(from)?))
    }
}

impl Item for f64 {
    fn read_from<R: Read>(from: &mut R) -> Option<f64> {
        Some(floats::of_bytes(&bytes_of::<R, 8>(from)?, 0))
    }
}

// So many bytes, if they come whole.
fn bytes_of<R: Read, const N: usize>(from: &mut R) -> Option<[u8; N]> {
    let mut bytes = [0u8; N];
    let Came::Whole = read(from, &mut bytes) else {
        return None;
    };
    Some(bytes)
}

// Reads until bytes is full, the input ends or a read fails, and says how many bytes came. A turn takes as many as one read gives.
fn read_full<R: Read>(from: &mut R, bytes: &mut [u8]) -> usize
    ensures { result ≤ length bytes.new }
{
    let mut done = 0;
    while done < bytes.len() {
        let Ok(n) = from.read(&mut bytes[done..]) else {
            return done;
        };
        if n == 0 {
            return done;
        }
        done += n;
    }
    done
}

// Fills bytes, all of a vector or a part of a case.
pub fn read<R: Read>(from: &mut R, bytes: &mut [u8]) -> Came {
    let got = read_full(from, bytes);
    if got == bytes.len() {
        return Came::Whole;
    }
    if got == 0 {
        return Came::Nothing;
    }
    Came::Cut
}

// How many cases a section says at its start that it has, and none where it isn't one of that kind.
pub fn read_section<R: Read>(from: &mut R, kind: u32) -> u32 {
    match u8::read_from(from) {
        Some(begun) if u32::from(begun) == kind => u32::read_from(from).unwrap_or(0),
        _ => 0,
    }
}

// A list over the first of the items that are lent, and how long it is, if it came whole and there is room for it; what is beyond stays.
pub fn read_list<R: Read, T: Item>(from: &mut R, into: &mut [T]) -> Option<usize>
    ensures { Front result into.old into.new }
{
    let n = u32::read_from(from)? as usize;
    if n > into.len() {
        return None;
    }
    T::fill_from(from, &mut into[..n])?;
    Some(n)
}
