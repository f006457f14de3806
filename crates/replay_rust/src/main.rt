// Replays the Rust's answers of standard input, a section for each kind of call, and says of each how many differ. tools/README.md has the form,
// tools/store writes them.
#![tactic(auto)]

use replay::Tally;
use std::io::{Print, Read};

mod alignments;
mod bands;
mod case;
mod fits;
mod jobs;
mod masks;
mod pairs;
mod records;
mod trajectories;

// Whether the next case has the answer that is stored with it, if it came whole.
fn next_agrees<R: Read, F>(from: &mut R, agrees: &F) -> Option<bool>
where
    F: Fn(&[u32], &[u32], &[f64], &[u8]) -> bool,
    requires { F.IsAlwaysCallable agrees.now }
{
    let mut head = [0u32; 12];
    let mut numbers = [0u32; 100];
    let mut floats = [0.0; 500];
    let mut bytes = [0u8; 300];
    let h = replay::read_list(from, &mut head)?;
    let n = replay::read_list(from, &mut numbers)?;
    let f = replay::read_list(from, &mut floats)?;
    let b = replay::read_list(from, &mut bytes)?;
    Some(agrees(&head[..h], &numbers[..n], &floats[..f], &bytes[..b]))
}

// The cases of a kind's section, and the line that says how many of them differ from what is stored with them.
fn section<R: Read, F>(from: &mut R, out: &impl Print, kind: u32, name: &[u8], agrees: F)
where
    F: Fn(&[u32], &[u32], &[f64], &[u8]) -> bool + Drop,
    requires { F.IsAlwaysCallable agrees }
{
    let mut tally = Tally::new();
    for _ in 0..replay::read_section(from, kind) {
        tally = match next_agrees(from, &agrees) {
            Some(agreed) => tally.with(agreed),
            None => tally.cut(),
        };
        if tally.ended {
            break;
        }
    }
    tally.print(out, name, b"case");
}

fn main(rt: HostRuntime) {
    let mut from = rt.stdin();
    section(&mut from, &rt, 1, b"pair", |head, _, floats, _| {
        pairs::agrees(head, floats)
    });
    section(&mut from, &rt, 2, b"record", |head, _, floats, _| {
        records::agrees(head, floats)
    });
    section(&mut from, &rt, 3, b"fit", |head, numbers, floats, _| {
        fits::agrees(
            duration::estimate_duration_with_frame_length,
            head,
            numbers,
            floats,
        )
    });
    section(&mut from, &rt, 4, b"speed", |head, numbers, floats, _| {
        fits::agrees(duration::create, head, numbers, floats)
    });
    section(&mut from, &rt, 5, b"align", |head, numbers, floats, _| {
        alignments::agrees(head, numbers, floats)
    });
    section(&mut from, &rt, 6, b"mask", |head, numbers, floats, _| {
        masks::agrees(head, numbers, floats)
    });
    section(&mut from, &rt, 7, b"band", |head, numbers, floats, _| {
        bands::agrees(head, numbers, floats)
    });
    section(&mut from, &rt, 8, b"trajectory", trajectories::agrees);
    section(&mut from, &rt, 11, b"job", |head, numbers, _, bytes| {
        jobs::agrees(head, numbers, bytes)
    });
    replay::end(&mut from, &rt);
}
