// When each word of an utterance sounds, which one sounds at a frame, and its part of a trajectory. It rests on what `spool` and `lists` promise.
#![tactic(auto)]

ghost use Rattle.std.specs.Prelude.{◌≡◌, map, ◌+◌, ◌*◌, ◌≤◌, ◌<◌, length};
ghost use Rattle.std.proofs.lemmas.List.Edits.{sets};
ghost use Rattle.lists.specs.Ends.{refused};
ghost use Rattle.read_along.specs.Words.{span, spans_of, times};
ghost use Rattle.read_along.specs.Promise.{number_of, refused_as, counted_as, agreeing, words_refusal, timing_refusal, both_ends, all_ends, Writes, SpansSays, MillisecondsSays, AtSays, PartOfSays, ExcerptSays};
ghost use Rattle.read_along.specs.Inner.Steps.{word_start, Timed, FoundAt};

pub mod file;

// As many words as 32 bits count.
const MOST_WORDS: usize = 0xffff_ffff;

const MOST_LABEL_STATES: u32 = 16;

const MILLISECONDS_A_FRAME: u32 = 5;

// Why a call of words is refused.
#[derive(Clone, Copy, Debug, PartialEq, Eq)]
pub enum WordsRefusal {
    WordsDisagree,
    NoSuchWord,
    Malformed,
    TooLittleRoom,
    BadTiming,
}

impl WordsRefusal {
    // Its number, by which C and the programs know it.
    pub fn number(self) -> u8
        ensures { result ≡ number_of self }
    {
        match self {
            WordsRefusal::WordsDisagree => 1,
            WordsRefusal::NoSuchWord => 2,
            WordsRefusal::Malformed => 3,
            WordsRefusal::TooLittleRoom => 4,
            WordsRefusal::BadTiming => 5,
        }
    }
}

// Where a word begins: how many states and how many frames come before it.
#[derive(Clone, Copy)]
struct Start {
    state: usize,
    frame: u32,
}

// Where the first word begins.
const FIRST: Start = Start { state: 0, frame: 0 };

// The words of an utterance, by how many labels each has, the states a label, and the frames of each state.
#[derive(Clone, Copy)]
struct Words<'a> {
    labels: &'a [u32],
    nstate: u32,
    durations: &'a [u32],
}

impl<'a> Words<'a> {
    // Whether there are so many states a label for each label of the words.
    fn agree(self) -> bool
        requires { 1 ≤ self.nstate }
        ensures { result ≡ agreeing self.entry.labels.now self.entry.nstate self.entry.durations.now }
    {
        if MOST_WORDS < self.labels.len() {
            return false;
        }
        // The product of all labels and nstate could pass 64 bits.
        let states = self.durations.len() as u64;
        let each = u64::from(self.nstate);
        (states % each == 0) & (lists::total_u32(self.labels) == states / each)
    }

    // Whether the words can be timed, given what the crate below says of the durations.
    fn check(self, below: Result<(), lists::Refusal>) -> Result<(), WordsRefusal>
        ensures { refused_as result ≡ words_refusal (refused below) self.entry.labels.now self.entry.nstate self.entry.durations.now }
    {
        if (self.nstate < 1) | (MOST_LABEL_STATES < self.nstate) | below.is_err() {
            return Err(WordsRefusal::BadTiming);
        }
        if !self.agree() {
            return Err(WordsRefusal::WordsDisagree);
        }
        Ok(())
    }

    // The same where no trajectory is given.
    fn check_timing(self) -> Result<(), WordsRefusal>
        ensures { refused_as result ≡ timing_refusal self.entry.labels.now self.entry.nstate self.entry.durations.now }
    {
        self.check(spool::check_durations(self.durations))
    }

    // Where the word behind one begins.
    fn behind(self, word: usize, here: Start) -> Start
        requires { Timed self.labels.now self.nstate self.durations.now × (word < length self.labels.now) × (here ≡ word_start self.labels.now self.nstate self.durations.now word) }
        ensures { result ≡ word_start self.entry.labels.now self.entry.nstate self.entry.durations.now (word + 1) }
    {
        let from = here.state;
        let state = from + self.labels[word] as usize * self.nstate as usize;
        let frames = lists::total_u32(&self.durations[from..state]);
        Start {
            state,
            frame: here.frame + frames as u32,
        }
    }

    // Where a word begins.
    fn start_of(self, word: usize) -> Start
        requires { Timed self.labels.now self.nstate self.durations.now × (word < length self.labels.now) }
        ensures { result ≡ word_start self.entry.labels.now self.entry.nstate self.entry.durations.now word }
    {
        let labels = lists::total_u32(&self.labels[..word]) as usize;
        let state = labels * self.nstate as usize;
        Start {
            state,
            frame: lists::total_u32(&self.durations[..state]) as u32,
        }
    }

    // The spans of all words, each number times a scale.
    fn put_spans(self, scale: u32, spans: &mut [u32])
        requires { Timed self.labels.now self.nstate self.durations.now × (2 * length self.labels.now ≤ length spans.old) × (scale ≤ 5) }
        ensures { spans.new ≡ sets spans.old 0 (all_ends (map (times scale) (spans_of self.entry.labels.now self.entry.nstate self.entry.durations.now))) }
    {
        let mut here = FIRST;
        for i in 0..self.labels.len() {
            let next = self.behind(i, here);
            put_span(spans, i, scale * here.frame, scale * next.frame);
            here = next;
        }
    }

    // The spans of all words, each number times a scale, and how many words there are.
    fn scaled_spans(self, scale: u32, spans: &mut [u32]) -> Result<u32, WordsRefusal>
        requires { scale ≤ 5 }
        ensures { Writes (timing_refusal self.entry.labels.now self.entry.nstate self.entry.durations.now) (length self.entry.labels.now) (all_ends (map (times scale) (spans_of self.entry.labels.now self.entry.nstate self.entry.durations.now))) spans.old (counted_as result) spans.new }
    {
        self.check_timing()?;
        let count = self.labels.len();
        if spans.len() < 2 * count {
            return Err(WordsRefusal::TooLittleRoom);
        }
        self.put_spans(scale, spans);
        Ok(count as u32)
    }

    // The word that sounds at a frame, if one does.
    fn sounding(self, frame: u32) -> Option<usize>
        requires { Timed self.labels.now self.nstate self.durations.now }
        ensures { FoundAt self.entry.labels.now self.entry.nstate self.entry.durations.now frame result }
    {
        let mut start = FIRST;
        for i in 0..self.labels.len() {
            let next = self.behind(i, start);
            if frame < next.frame {
                return Some(i);
            }
            start = next;
        }
        None
    }
}

// A word's two numbers, behind those of the words before it.
fn put_span(spans: &mut [u32], word: usize, first: u32, after: u32)
    requires { 2 * word + 2 ≤ length spans.old }
    ensures { spans.new ≡ sets spans.old (2 * word) (both_ends (span first after)) }
{
    let at = 2 * word;
    spans[at] = first;
    spans[at + 1] = after;
}

// Each word's first frame and the frame after its last, and how many words there are.
pub fn spans(
    words: &[u32],
    nstate: u32,
    durations: &[u32],
    spans: &mut [u32],
) -> Result<u32, WordsRefusal>
    ensures { SpansSays words.now nstate durations.now spans.old result spans.new }
{
    let words = Words {
        labels: words,
        nstate,
        durations,
    };
    words.scaled_spans(1, spans)
}

// The same in milliseconds.
pub fn milliseconds(
    words: &[u32],
    nstate: u32,
    durations: &[u32],
    spans: &mut [u32],
) -> Result<u32, WordsRefusal>
    ensures { MillisecondsSays words.now nstate durations.now spans.old result spans.new }
{
    let words = Words {
        labels: words,
        nstate,
        durations,
    };
    words.scaled_spans(MILLISECONDS_A_FRAME, spans)
}

// The word that sounds at a frame.
pub fn at(words: &[u32], nstate: u32, durations: &[u32], frame: u32) -> Result<u32, WordsRefusal>
    ensures { AtSays words.now nstate durations.now frame result }
{
    let words = Words {
        labels: words,
        nstate,
        durations,
    };
    words.check_timing()?;
    let Some(word) = words.sounding(frame) else {
        return Err(WordsRefusal::NoSuchWord);
    };
    Ok(word as u32)
}

// A word's excerpt by its numbers' places, for callers that can't be handed a part of a list.
pub fn excerpt_part(
    words: &[u32],
    nstate: u32,
    durations: &[u32],
    trajectory: &[f64],
    v: u32,
    word: u32,
) -> Result<lists::Span, WordsRefusal>
    ensures { PartOfSays words.now nstate durations.now trajectory.now v word result }
{
    let words = Words {
        labels: words,
        nstate,
        durations,
    };
    words.check(spool::check_trajectory(trajectory, durations, v))?;
    let i = word as usize;
    if words.labels.len() <= i {
        return Err(WordsRefusal::NoSuchWord);
    }
    let here = words.start_of(i);
    let next = words.behind(i, here);
    let width = u64::from(v);
    Ok(lists::Span {
        first: u64::from(here.frame) * width,
        count: u64::from(next.frame - here.frame) * width,
    })
}

// The part of the lent trajectory that a word has; the empty part of it on a refusal.
pub fn excerpt<'a>(
    words: &[u32],
    nstate: u32,
    durations: &[u32],
    trajectory: &'a [f64],
    v: u32,
    word: u32,
) -> &'a [f64]
    ensures { ExcerptSays words.now nstate durations.now trajectory.entry v word result }
{
    let Ok(part) = excerpt_part(words, nstate, durations, trajectory, v, word) else {
        return lists::part(trajectory, 0, 0);
    };
    lists::part(trajectory, part.first as usize, part.count as usize)
}
