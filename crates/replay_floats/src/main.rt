// Replays the vectors of standard input through the functions of `floats`, and says how many answers differ.
//
// A vector is 25 bytes: its kind, the operands a and b, and the answer that is right, each eight bytes, the least first. An operand that is a float
// stands as its bits. tools/vectors/make writes them, with answers that come from MPFR and none from this code.
#![tactic(auto)]

use replay::{Came, Tally};
use std::io::Read;

// The answer's 64 bits for a vector's kind, if there is such a kind.
fn computed(kind: u8, a: u64, b: u64) -> Option<u64> {
    let x = floats::of_bits(a);
    match kind {
        1 => Some(floats::rounded(x) as u64),
        2 => Some(floats::bits_of(floats::magnitude(x))),
        3 => Some(floats::cost_below(x, floats::of_bits(b)) as u64),
        4 => Some(floats::bits_of(floats::sqrt(x))),
        5 => Some(floats::bits_of(x)),
        6 => Some(floats::bits_of(x - floats::of_bits(b))),
        7 => Some(read_at(a, b)),
        8 => Some(written_at(x, b)),
        _ => None,
    }
}

// The bits of the float that a's eight bytes say from a place on.
fn read_at(a: u64, place: u64) -> u64 {
    let mut bytes = [0u8; 8];
    lists::put_little_endian(&mut bytes, 0, 8, a);
    floats::bits_of(floats::of_bytes(&bytes, place as usize))
}

// Eight bytes, each 0x5a before x is written over them from a place on.
fn written_at(x: f64, place: u64) -> u64 {
    let mut bytes = [0x5au8; 8];
    floats::to_bytes(x, &mut bytes, place as usize);
    lists::little_endian(&bytes, 0, 8)
}

fn agrees(vector: &[u8; 25]) -> bool {
    let a = lists::little_endian(vector, 1, 8);
    let b = lists::little_endian(vector, 9, 8);
    computed(vector[0], a, b) == Some(lists::little_endian(vector, 17, 8))
}

// The tally with the next vector; one that is cut short agrees with nothing.
fn next<R: Read>(from: &mut R, tally: Tally) -> Tally {
    let mut vector = [0u8; 25];
    match replay::read(from, &mut vector) {
        Came::Whole => tally.with(agrees(&vector)),
        Came::Cut => tally.with(false),
        Came::Nothing => tally.at_end(),
    }
}

// A proved loop has to end, and nothing says that the input does: it has as many turns as no input uses up.
fn main(rt: HostRuntime) {
    let mut from = rt.stdin();
    let mut tally = Tally::new();
    for _ in 0..u64::MAX {
        if tally.ended {
            break;
        }
        tally = next(&mut from, tally);
    }
    tally.print(&rt, b"floats", b"vector");
}
