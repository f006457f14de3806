// Prints the settings file that its argument names, or standard input, as a table.
#![tactic(auto)]

ghost use Rattle.std.specs.Prelude.{◌<◌, ◌≤◌, ◌≡◌, length, IfSome};
ghost use Rattle.voices.specs.Scales.{most_scale};
ghost use Rattle.voices.specs.Reading.{file_room};

use files::WORD;
use std::io;
use std::io::{Print, Read, Write};

// One byte more than the largest file has.
const ROOM: usize = 1_703_918;

// The scale of 15 decimals, and one more than the largest number of 15 digits.
const MOST: u64 = 1_000_000_000_000_000;

// The whole number nearest to a float of these bits, a half upward; 0 from 2 ^ 53 on, which no decimals of 0 say.
fn nearest(bits: u64) -> u64 {
    let exponent = bits >> 52;
    if exponent < 1022 {
        return 0;
    }
    if exponent > 1075 {
        return 0;
    }
    let digits = bits % 0x10_0000_0000_0000 + 0x10_0000_0000_0000;
    let halves = (2 * digits) >> (1075 - exponent);
    (halves + 1) / 2
}

// How many units of 1 / scale a size has, to the nearest.
fn units(size: f64, scale: f64) -> u64 {
    nearest(floats::magnitude_bits(size * scale))
}

// Whether a size is the float nearest to its units, of 15 digits at most.
fn is_said(size: f64, scale: u64) -> bool
    requires { scale ≤ most_scale }
{
    let float_scale = scale as f64;
    let n = units(size, float_scale);
    if n >= MOST {
        return false;
    }
    n as f64 / float_scale == size
}

// The scale of as few decimals as say a size, if 15 do: 1 for no decimals, ten times as much for each.
fn scale_of(size: f64) -> Option<u64>
    ensures { IfSome result (λ scale. (0 < scale) × (scale ≤ most_scale)) }
{
    let mut scale = 1;
    // It tries the next power of ten, and counts no index.
    while scale <= MOST {
        if is_said(size, scale) {
            return Some(scale);
        }
        scale *= 10;
    }
    None
}

// The point and the decimals: the digits of scale + rest are a one, which the point replaces, and those of the rest with the zeros in front of them.
fn print_decimals(to: &impl Print, rest: u64, scale: u64) -> io::Result<()>
    requires { (rest < scale) × (scale ≤ most_scale) }
{
    let mut text = [0u8; 20];
    let digits = scale + rest;
    write!(&mut text[..], "{digits}")?;
    text[0] = b'.';
    let n = text.iter().position(|byte| *byte == 0).unwrap_or(20);
    to.write_all(&text[..n])
}

fn print_size(to: &impl Print, size: f64, scale: u64) -> io::Result<()>
    requires { (0 < scale) × (scale ≤ most_scale) }
{
    let n = units(size, scale as f64);
    if scale == 1 {
        return to.print(n);
    }
    to.print(n / scale)?;
    print_decimals(to, n % scale, scale)
}

// A setting with as few decimals as say it, or by its bits.
fn print_setting(to: &impl Print, bits: u64) -> io::Result<()> {
    let size = floats::magnitude(floats::of_bits(bits));
    let Some(scale) = scale_of(size) else {
        return print!(to; " 0x{bits:016x}");
    };
    if bits >> 63 == 1 {
        to.write_all(b" -")?;
        return print_size(to, size, scale);
    }
    to.write_all(b" ")?;
    print_size(to, size, scale)
}

// The line of a voice; none where no voice has the number, as that of a free place.
fn print_voice(to: &impl Print, voices: &[u32], settings: &[u64], voice: u32) -> io::Result<()> {
    let Ok(given) = settings::get(voices, settings, voice) else {
        return Ok(());
    };
    to.print(voice)?;
    print_setting(to, given.speed)?;
    print_setting(to, given.weight)?;
    print_setting(to, given.threshold)?;
    to.write_all(b"\n")
}

fn print_voices(to: &impl Print, voices: &[u32], settings: &[u64]) -> io::Result<()> {
    for voice in voices {
        print_voice(to, voices, settings, *voice)?;
    }
    Ok(())
}

// The table of a file's bytes, or the refusal.
fn print_table(to: &impl Print, bytes: &[u8]) -> io::Result<()> {
    let mut voices = [0u32; settings::PLACES];
    let mut settings = [0u64; settings::SETTINGS];
    if let Err(refusal) = settings::file::read(&mut voices, &mut settings, bytes) {
        let number = refusal.number();
        return println!(to; "refused {number}");
    }
    to.write_all(b"voice speed gv_weight threshold\n")?;
    print_voices(to, &voices, &settings)
}

fn fail(rt: &HostRuntime, what: &[u8], error: &io::Error) {
    files::fail(&rt.stderr(), b"voices", what, error);
}

fn end_of_print(rt: &HostRuntime, printed: io::Result<()>) {
    files::end_of_print(&rt.stderr(), b"voices", printed);
}

// Room for a file: zeros. The prover would count them where they were made in place.
fn room() -> [u8; ROOM]
    ensures { file_room ≡ length result }
{
    [0; ROOM]
}

// Prints the file that is read; name is what a message calls where it comes from. A file larger than any fills the room, and is refused as that front is.
fn print_from<R: Read>(rt: &HostRuntime, from: &mut R, name: &[u8]) {
    let mut room = room();
    match files::read_all(from, &mut room) {
        Ok(n) => end_of_print(rt, print_table(rt, &room[..n])),
        Err(error) => fail(rt, name, &error),
    }
}

fn print_input(rt: &HostRuntime) {
    print_from(rt, &mut rt.stdin(), b"standard input");
}

fn print_file(rt: &HostRuntime, path: &[u8]) {
    match files::open(rt, path) {
        Ok(mut file) => print_from(rt, &mut file, path),
        Err(error) => fail(rt, path, &error),
    }
}

fn print_help(rt: &HostRuntime) {
    let printed = rt.write_all(
        b"usage: voices [FILE]\n\nPrints a settings file, or standard input where FILE is - or is not given, as a table: a line of\nnames, then a line for each voice with its number, speed, GV weight and voicing threshold. A\nsetting has as few decimals as say it, or is written by its 64 bits, such as\n0x7ff0000000000000, where 15 decimals or 15 digits don't. A file that is refused is one line:\n'refused 16' for another version, 17 for more than 256 voices, 18 for a file that is malformed.\nWhat can't be read or written is said on standard error. The exit status is 0 in any case.\n",
    );
    end_of_print(rt, printed);
}

// Does what a word asks: what begins with a dash names no file.
fn print_word(rt: &HostRuntime, word: &[u8]) {
    if files::is(word, b"--help") {
        print_help(rt);
    } else if files::is(word, b"-") {
        print_input(rt);
    } else if lists::starts_with(word, b"-") {
        files::refuse_option(&rt.stderr(), b"voices", word);
    } else {
        print_file(rt, word);
    }
}

fn main(rt: HostRuntime) {
    let words = files::word_count(&rt);
    if words <= 1 {
        print_input(&rt);
        return;
    }
    if words > 2 {
        let _ = rt
            .stderr()
            .write_all(b"voices: one FILE at most; see voices --help\n");
        return;
    }
    let mut word = [0u8; WORD];
    match files::word(&rt, 1, &mut word) {
        Ok(n) => print_word(&rt, &word[..n]),
        Err(error) => fail(&rt, b"FILE", &error),
    }
}
