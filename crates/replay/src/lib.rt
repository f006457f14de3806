// What programs that replay stored vectors and cases share: reading one, comparing lists, the tally of those that differ, and the line that says it.
#![tactic(auto)]

ghost use Rattle.std.specs.Prelude.{◌≡◌, ◌+◌, ◌-◌, ◌^◌, min, false};
ghost use Rattle.replay.specs.Count.{fresh, counted, closed};

mod compare;
mod input;

pub use compare::{Numbered, at, holds};
pub use input::{Came, Item, read, read_list, read_section};
use std::io::{Print, Read};

// What a lent output holds at entry, and still where nothing is written.
pub const OUT: u32 = 0xa5a5_a5a5;

// The same of a work space: another number, so that what is copied too far from the one into the other shows.
pub const WORK: u32 = 0x5a5a_5a5a;

// The same of an output of floats.
pub const OUT_F64: f64 = -1e6;

// How many cases were replayed, how many of them differ, the number of the first that does, from 1 (0 while none does), and whether the input ended.
#[derive(Clone, Copy, Debug, PartialEq, Eq)]
pub struct Tally {
    pub seen: u64,
    pub differ: u64,
    pub first: u64,
    pub ended: bool,
}

impl Tally {
    pub fn new() -> Self
        ensures { result ≡ fresh }
    {
        Tally {
            seen: 0,
            differ: 0,
            first: 0,
            ended: false,
        }
    }

    // One case more, that agrees or differs.
    #[tactic(auto, unfolding(crate::specs::Count::counted))]
    pub fn with(self, agrees: bool) -> Self
        ensures { result ≡ counted self agrees }
    {
        let seen = one_more(self.seen);
        if agrees {
            return Tally { seen, ..self };
        }
        if self.differ == 0 {
            return Tally {
                seen,
                differ: 1,
                first: seen,
                ..self
            };
        }
        Tally {
            seen,
            differ: one_more(self.differ),
            ..self
        }
    }

    // No case can be read any more.
    pub fn at_end(self) -> Self
        ensures { result ≡ closed self }
    {
        Tally {
            ended: true,
            ..self
        }
    }

    // A case that can't be read to its end differs, and none can be read after it.
    pub fn cut(self) -> Self
        ensures { result ≡ closed (counted self false) }
    {
        self.with(false).at_end()
    }

    // `NAME: N ITEMs, M differ`, and which is the first where any does. No contract can say what is written.
    pub fn print(self, out: &impl Print, name: &[u8], item: &[u8]) {
        say(out, name);
        say(out, b": ");
        say_number(out, self.seen);
        say(out, b" ");
        say(out, item);
        say(out, b"s, ");
        say_number(out, self.differ);
        say(out, b" differ\n");
        if self.differ > 0 {
            say(out, b"first: ");
            say(out, item);
            say(out, b" ");
            say_number(out, self.first);
            say(out, b"\n");
        }
    }
}

// After the last section nothing may come; where anything does, a line says so. No contract can say what is read or written.
pub fn end<R: Read>(from: &mut R, out: &impl Print) {
    let mut byte = [0u8; 1];
    let Came::Nothing = input::read(from, &mut byte) else {
        say(out, b"more follows\n");
        return;
    };
}

// n + 1, or n where no larger number is left.
fn one_more(n: u64) -> u64
    ensures { result ≡ min (n + 1) (2 ^ 64 - 1) }
{
    n.saturating_add(1)
}

fn say(out: &impl Print, text: &[u8]) {
    let _ = out.write_all(text);
}

fn say_number(out: &impl Print, n: u64) {
    let _ = out.print(n);
}
