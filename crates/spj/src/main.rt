// Answers the job file that its argument names, or standard input, as a file or as a serial link.
#![tactic(auto)]

ghost use Rattle.std.specs.Prelude.{◌≤◌, length, IfOk};
ghost use Rattle.spj.specs.Reading.{piece_bytes};

use files::WORD;
use job::link::ROOM;
use job::{Damage, Done, Failure};
use std::io;
use std::io::{Print, Read};

// The most that is read of a link at once.
const PIECE: usize = 512;

fn print_done(to: &impl Print, done: Done, durations: &[u32]) -> io::Result<()> {
    println!(to; "states {}", done.states)?;
    println!(to; "frames {}", done.frames)?;
    println!(to; "changes {}", done.changes)?;
    for duration in durations {
        println!(to; "{duration}")?;
    }
    Ok(())
}

// Reads once, and hands what was read to the link as a part of the job.
fn take_part<R: Read>(from: &mut R, link: &mut [u8]) -> io::Result<usize>
    ensures { IfOk result (λ n. n ≤ piece_bytes) }
{
    let mut piece = [0u8; PIECE];
    let n = from.read(&mut piece)?;
    // A link that has begun refuses no part.
    let _ = job::link::part(link, &piece[..n]);
    Ok(n)
}

// Takes the job in whatever pieces it comes, until the input ends or no more would be kept; whether every read went through.
fn take_parts<R: Read>(from: &mut R, link: &mut [u8]) -> io::Result<()> {
    let mut n = 0;
    // A turn takes as many bytes as one read gives.
    while n < ROOM {
        let more = take_part(from, link)?;
        if more == 0 {
            return Ok(());
        }
        n += more;
    }
    Ok(())
}

// Where answers are printed, and whether a damaged job is told by its old number, for programs that know 9 alone.
#[derive(Clone, Copy)]
struct Teller<'a> {
    rt: &'a HostRuntime,
    old: bool,
}

impl<'a> Teller<'a> {
    // What is wrong and at which byte, or the old number.
    fn print_damaged(self, damage: Damage, place: u64) -> io::Result<()> {
        let number = u32::from(damage.number());
        if self.old {
            return println!(self.rt; "refused {}", job::old_number(number));
        }
        println!(self.rt; "refused {number} at byte {place}")
    }

    fn print_failure(self, failure: Failure) -> io::Result<()> {
        match failure {
            Failure::Damaged(damage, place) => self.print_damaged(damage, place),
            Failure::Refused(refusal) => println!(self.rt; "refused {}", refusal.number()),
        }
    }

    // An answer, whose durations stand at the front of the output.
    fn print_answered(self, answer: Result<Done, Failure>, out: &[u32]) -> io::Result<()>
        requires { IfOk answer (λ done. done.states ≤ length out.now) }
    {
        match answer {
            Ok(done) => print_done(self.rt, done, &out[..done.states as usize]),
            Err(failure) => self.print_failure(failure),
        }
    }

    fn print_answer(self, bytes: &[u8]) -> io::Result<()> {
        let mut out = [0u32; job::MOST_STATES];
        let mut work = [0u32; job::MOST_STATES];
        let answer = job::answer(bytes, &mut out, &mut work);
        self.print_answered(answer, &out)
    }

    fn print_end(self, link: &mut [u8]) -> io::Result<()> {
        let mut out = [0u32; job::MOST_STATES];
        let mut work = [0u32; job::MOST_STATES];
        let answer = job::link::end(link, &mut out, &mut work);
        self.print_answered(answer, &out)
    }

    fn fail(self, what: &[u8], error: &io::Error) {
        files::fail(&self.rt.stderr(), b"spj", what, error);
    }

    fn end_of_print(self, printed: io::Result<()>) {
        files::end_of_print(&self.rt.stderr(), b"spj", printed);
    }

    // Answers the job that is read; name is what a message calls where it comes from. A file larger than any job fills the room, which has one byte more than the largest, and is answered as that front is.
    fn answer_from<R: Read>(self, from: &mut R, name: &[u8]) {
        let mut room = [0u8; ROOM];
        match files::read_all(from, &mut room) {
            Ok(n) => self.end_of_print(self.print_answer(&room[..n])),
            Err(error) => self.fail(name, &error),
        }
    }

    // Answers the job that comes over standard input as a serial link.
    fn answer_link(self) {
        let mut link = [0u8; job::link::BYTES];
        // It has room to begin.
        let _ = job::link::begin(&mut link);
        match take_parts(&mut self.rt.stdin(), &mut link) {
            Ok(()) => self.end_of_print(self.print_end(&mut link)),
            Err(error) => self.fail(b"standard input", &error),
        }
    }

    fn answer_input(self) {
        self.answer_from(&mut self.rt.stdin(), b"standard input");
    }

    fn answer_file(self, path: &[u8]) {
        match files::open(self.rt, path) {
            Ok(mut file) => self.answer_from(&mut file, path),
            Err(error) => self.fail(path, &error),
        }
    }

    fn print_help(self) {
        let printed = self.rt.write_all(
            b"usage: spj [--old] [FILE]\n       spj [--old] --link\n\nAnswers a job file, or standard input where FILE is - or is not given. With --link standard\ninput is a serial link: the job is taken in whatever pieces it comes, and answered at its end\nas the file is. It prints the number of states, of frames and of unit changes, and then each\nstate's frames, one to a line; or one line where the job is refused. Of a damaged file that\nline is such as 'refused 12 at byte 2': 12 the mark, 13 the version, 14 the number of states,\n9 the length, the file's first byte being byte 0. Of any other it is such as 'refused 6'. With\n--old a damaged file is 'refused 9'. What can't be read or written is said on standard error.\nThe exit status is 0 in any case.\n",
        );
        self.end_of_print(printed);
    }

    // Does what a word asks: what begins with a dash names no file.
    fn answer_word(self, word: &[u8]) {
        if files::is(word, b"--help") {
            self.print_help();
        } else if files::is(word, b"--link") {
            self.answer_link();
        } else if files::is(word, b"-") {
            self.answer_input();
        } else if lists::starts_with(word, b"-") {
            files::refuse_option(&self.rt.stderr(), b"spj", word);
        } else {
            self.answer_file(word);
        }
    }

    // Answers the word at a place, which is the last, or standard input where there is none.
    fn answer_at(self, words: usize, place: usize) {
        if words <= place {
            self.answer_input();
            return;
        }
        if words - place > 1 {
            let _ = self.rt.stderr().write_all(
                b"spj: one FILE at most, and none with --link; --old comes first; see spj --help\n",
            );
            return;
        }
        let mut word = [0u8; WORD];
        match files::word(self.rt, place, &mut word) {
            Ok(n) => self.answer_word(&word[..n]),
            Err(error) => self.fail(b"FILE", &error),
        }
    }
}

// Whether the first word is --old.
fn asks_old(rt: &HostRuntime) -> bool {
    let mut word = [0u8; WORD];
    match files::word(rt, 1, &mut word) {
        Ok(n) => files::is(&word[..n], b"--old"),
        Err(_) => false,
    }
}

fn main(rt: HostRuntime) {
    let words = files::word_count(&rt);
    let old = words > 1 && asks_old(&rt);
    let teller = Teller { rt: &rt, old };
    teller.answer_at(words, if old { 2 } else { 1 });
}
