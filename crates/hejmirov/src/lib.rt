// The calls for C and Rust. Each but hejmirov_job_old_number answers a refusal number, 0 for none, and gives its values through pointers, which a refusal leaves as they
// were, but for the place of a damaged job.
// A list is a pointer and a length.
#![tactic(auto)]

ghost use Rattle.std.specs.Prelude.{◌≡◌, ℕ};
ghost use Rattle.steps.specs.Steps.{states};
ghost use Rattle.lists.specs.Refusals.{number_of};
ghost use Rattle.read_along.specs.Promise.{number_of as words_number};
ghost use Rattle.job.specs.Damage.{old_number};
ghost use Rattle.job.specs.Promise.{answered};
ghost use Rattle.mlpg_adjust.specs.Promise.{created};
ghost use Rattle.houses.specs.Slots.{table};
ghost use Rattle.hejmirov.specs.Settings.{SettingsClearCallSays, SettingsSetCallSays, SettingsGetCallSays, SettingsRemoveCallSays, SettingsCountCallSays, SettingsReadCallSays, SettingsWriteCallSays};
ghost use Rattle.hejmirov.specs.Words.{WordsSpansCallSays, WordsMillisecondsCallSays, WordsAtCallSays, WordsExcerptCallSays, WordsWriteCallSays, WordsReadCallSays};
ghost use Rattle.hejmirov.specs.Runs.{RunsCallSays, RunCallSays};
ghost use Rattle.hejmirov.specs.Houses.{TableStartCallSays, TableSetCallSays, TableClearCallSays, TableUseCallSays, TableFreeCallSays};
ghost use Rattle.hejmirov.specs.Promise.{number_in, Hands, HandsSpan, HandsTwo, HandsJob, variance_of, stream_of, FitCallSays, SpeedCallSays, AlignCallSays, MaskCallSays, BandCallSays, TrajectoryCallSays, PlaceCallSays, ExcerptCallSays, JobCallSays, LinkBeginCallSays, LinkPartCallSays, LinkEndCallSays};

use job::{Done, Failure};
use lists::{Refusal, Span};
use mlpg_adjust::{Clamped, Stream};
use read_along::WordsRefusal;
use settings::Settings;

// What C is told of a refusal: its number.
trait Told {
    ghost number_is: { Self → ℕ };

    fn told(self) -> u32
        ensures { result ≡ number_is self };
}

impl Told for Refusal {
    ghost number_is = { number_of };

    fn told(self) -> u32 {
        u32::from(self.number())
    }
}

impl Told for WordsRefusal {
    ghost number_is = { words_number };

    fn told(self) -> u32 {
        u32::from(self.number())
    }
}

// An answer's number.
fn number_in<T: Copy, E: Told + Copy>(answer: Result<T, E>) -> u32
    ensures { result ≡ number_in E.number_is answer }
{
    match answer {
        Ok(_) => 0,
        Err(refusal) => refusal.told(),
    }
}

// The same, and its value goes through the pointer.
fn hand_out<T: Copy, E: Told + Copy>(answer: Result<T, E>, to: &mut T) -> u32
    ensures { Hands E.number_is answer to.old result to.new }
{
    match answer {
        Ok(value) => {
            *to = value;
            0
        }
        Err(refusal) => refusal.told(),
    }
}

// The same of a span, whose two numbers go through pointers.
fn hand_out_span<E: Told + Copy>(answer: Result<Span, E>, first: &mut u64, count: &mut u64) -> u32
    ensures { HandsSpan E.number_is answer first.old count.old result first.new count.new }
{
    match answer {
        Ok(span) => {
            *first = span.first;
            *count = span.count;
            0
        }
        Err(refusal) => refusal.told(),
    }
}

// States' durations, fitted to a length in frames.
#[unsafe(no_mangle)]
pub extern "C" fn hejmirov_fit(
    means: &[f64],
    varis: &[f64],
    shortest: &[u32],
    frame_length: f64,
    out: &mut [u32],
    work: &mut [u32],
    changes: &mut u32,
) -> u32
    ensures { FitCallSays (states means.now varis.now shortest.now) frame_length out.old work.old changes.old result out.new work.new changes.new }
{
    let answer = duration::estimate_duration_with_frame_length(
        means,
        varis,
        shortest,
        frame_length,
        out,
        work,
    );
    hand_out(answer, changes)
}

// States' durations at a speed.
#[unsafe(no_mangle)]
pub extern "C" fn hejmirov_speed(
    means: &[f64],
    varis: &[f64],
    shortest: &[u32],
    speed: f64,
    out: &mut [u32],
    work: &mut [u32],
    changes: &mut u32,
) -> u32
    ensures { SpeedCallSays (states means.now varis.now shortest.now) speed out.old work.old changes.old result out.new work.new changes.new }
{
    let answer = duration::create(means, varis, shortest, speed, out, work);
    hand_out(answer, changes)
}

// States' durations, one a state, with each label that has an end closed at it.
#[unsafe(no_mangle)]
pub extern "C" fn hejmirov_align(
    means: &[f64],
    varis: &[f64],
    shortest: &[u32],
    nstate: u32,
    ends: &[f64],
    out: &mut [u32],
    work: &mut [u32],
    written: &mut u32,
    changes: &mut u32,
) -> u32
    ensures { AlignCallSays (states means.now varis.now shortest.now) nstate ends.now out.old work.old written.old changes.old result out.new work.new written.new changes.new }
{
    let answer = duration::create_with_alignment(means, varis, shortest, nstate, ends, out, work);
    match answer {
        Ok(aligned) => {
            *written = aligned.states;
            *changes = aligned.changes;
            0
        }
        Err(refusal) => refusal.told(),
    }
}

// Which frames are voiced, and how far each is from the ends of its run.
#[unsafe(no_mangle)]
pub extern "C" fn hejmirov_mask(
    weights: &[f64],
    threshold: f64,
    durations: &[u32],
    voiced: &mut [u32],
    left: &mut [u32],
    right: &mut [u32],
    frames: &mut u32,
) -> u32
    ensures { MaskCallSays weights.now threshold durations.now voiced.old left.old right.old frames.old result voiced.new left.new right.new frames.new }
{
    let answer = voicing::mask::mask_with_distances(
        weights, threshold, durations, voiced, left, right,
    );
    hand_out(answer, frames)
}

// The rows of the band matrix and the right side.
#[unsafe(no_mangle)]
pub extern "C" fn hejmirov_band_rows(
    widths: &[u32],
    coefficients: &[f64],
    means: &[f64],
    ivars: &[f64],
    rows: &mut [f64],
    right: &mut [f64],
) -> u32
    ensures { BandCallSays widths.now coefficients.now means.now ivars.now rows.old right.old result rows.new right.new }
{
    let answer = band::band_rows(widths, coefficients, means, ivars, rows, right);
    number_in(answer)
}

// The trajectory of a stream, from its states' records.
#[unsafe(no_mangle)]
pub extern "C" fn hejmirov_trajectory(
    v: u32,
    masked: u32,
    threshold: f64,
    fill: f64,
    gv_on: u32,
    gv_weight: f64,
    widths: &[u32],
    coefficients: &[f64],
    records: &[f64],
    durations: &[u32],
    gv: &[f64],
    switches: &[u8],
    out: &mut [f64],
    work: &mut [f64],
    marks: &mut [u32],
    clamped_high: &mut u32,
    clamped_low: &mut u32,
) -> u32
    ensures { TrajectoryCallSays v masked threshold fill gv_on gv_weight widths.now coefficients.now records.now durations.now gv.now switches.now
        out.old work.old marks.old clamped_high.old clamped_low.old
        result out.new work.new marks.new clamped_high.new clamped_low.new }
{
    let stream = stream_of(v, masked, threshold, fill, gv_on, gv_weight);
    let answer = mlpg_adjust::create(
        stream,
        widths,
        coefficients,
        records,
        durations,
        gv,
        switches,
        out,
        work,
        marks,
    );
    hand_out_clamped(answer, clamped_high, clamped_low)
}

// A trajectory's number, and how many pairs were clamped.
fn hand_out_clamped(answer: Result<Clamped, Refusal>, high: &mut u32, low: &mut u32) -> u32
    ensures { HandsTwo (created answer) high.old low.old result high.new low.new }
{
    match answer {
        Ok(clamped) => {
            *high = clamped.high;
            *low = clamped.low;
            0
        }
        Err(refusal) => refusal.told(),
    }
}

// How many voiced runs a stream has, and the first frame and the frames of each.
#[unsafe(no_mangle)]
pub extern "C" fn hejmirov_runs(
    v: u32,
    masked: u32,
    threshold: f64,
    windows: usize,
    records: &[f64],
    durations: &[u32],
    runs: &mut [u32],
    count: &mut u32,
) -> u32
    ensures { RunsCallSays v masked threshold windows records.now durations.now runs.old count.old result runs.new count.new }
{
    let answer = runs::runs(v, masked != 0, threshold, windows, records, durations, runs);
    hand_out(answer, count)
}

// The trajectory of one voiced run alone.
#[unsafe(no_mangle)]
pub extern "C" fn hejmirov_run(
    v: u32,
    masked: u32,
    threshold: f64,
    fill: f64,
    gv_on: u32,
    gv_weight: f64,
    widths: &[u32],
    coefficients: &[f64],
    records: &[f64],
    durations: &[u32],
    gv: &[f64],
    switches: &[u8],
    run: u32,
    out: &mut [f64],
    work: &mut [f64],
    marks: &mut [u32],
    frames: &mut u32,
) -> u32
    ensures { RunCallSays v masked threshold fill gv_on gv_weight widths.now coefficients.now records.now durations.now gv.now switches.now run
        out.old work.old marks.old frames.old result out.new work.new marks.new frames.new }
{
    let stream = stream_of(v, masked, threshold, fill, gv_on, gv_weight);
    let answer = runs::create_run(
        stream,
        widths,
        coefficients,
        records,
        durations,
        gv,
        switches,
        run,
        out,
        work,
        marks,
    );
    hand_out(answer, frames)
}

// The stream that the first six numbers of a call say.
fn stream_of(v: u32, masked: u32, threshold: f64, fill: f64, gv_on: u32, gv_weight: f64) -> Stream
    ensures { result ≡ stream_of v masked threshold fill gv_on gv_weight }
{
    Stream {
        v,
        masked: masked != 0,
        threshold,
        fill,
        gv: variance_of(gv_on, gv_weight),
    }
}

fn variance_of(on: u32, weight: f64) -> Option<f64>
    ensures { result ≡ variance_of on weight }
{
    if on == 0 { None } else { Some(weight) }
}

// The byte place of a frame's component in the spool.
#[unsafe(no_mangle)]
pub extern "C" fn hejmirov_place(frame: u32, component: u32, v: u32, place: &mut u64) -> u32
    ensures { PlaceCallSays frame component v place.old result place.new }
{
    hand_out(spool::place(frame, component, v), place)
}

// Where a state's numbers stand in a trajectory: the first, and how many.
#[unsafe(no_mangle)]
pub extern "C" fn hejmirov_excerpt(
    trajectory: &[f64],
    durations: &[u32],
    v: u32,
    state: u32,
    first: &mut u64,
    count: &mut u64,
) -> u32
    ensures { ExcerptCallSays trajectory.now durations.now v state first.old count.old result first.new count.new }
{
    let span = spool::excerpt_span(trajectory, durations, v, state);
    hand_out_span(span, first, count)
}

// The durations of a job file's states, at its speed.
#[unsafe(no_mangle)]
pub extern "C" fn hejmirov_job(
    bytes: &[u8],
    out: &mut [u32],
    work: &mut [u32],
    states: &mut u32,
    frames: &mut u32,
    changes: &mut u32,
    place: &mut u64,
) -> u32
    ensures { JobCallSays bytes.now out.old work.old states.old frames.old changes.old place.old result out.new work.new states.new frames.new changes.new place.new }
{
    let answer = job::answer(bytes, out, work);
    hand_out_job(answer, states, frames, changes, place)
}

// A job's number; its values go through the pointers, or of a damaged one the place.
fn hand_out_job(
    answer: Result<Done, Failure>,
    states: &mut u32,
    frames: &mut u32,
    changes: &mut u32,
    place: &mut u64,
) -> u32
    ensures { HandsJob (answered answer) states.old frames.old changes.old place.old result states.new frames.new changes.new place.new }
{
    match answer {
        Ok(done) => {
            *states = done.states;
            *frames = done.frames;
            *changes = done.changes;
            0
        }
        Err(Failure::Damaged(damage, at)) => {
            *place = at;
            u32::from(damage.number())
        }
        Err(Failure::Refused(refusal)) => refusal.told(),
    }
}

// The old number of a refusal, for programs that know 9 alone.
#[unsafe(no_mangle)]
pub extern "C" fn hejmirov_job_old_number(number: u32) -> u32
    ensures { result ≡ old_number number }
{
    job::old_number(number)
}

// Starts a job over a serial link, whatever its memory holds.
#[unsafe(no_mangle)]
pub extern "C" fn hejmirov_link_begin(link: &mut [u8]) -> u32
    ensures { LinkBeginCallSays link.old result link.new }
{
    let answer = job::link::begin(link);
    number_in(answer)
}

// Takes a part of the job, of any length and cut anywhere.
#[unsafe(no_mangle)]
pub extern "C" fn hejmirov_link_part(link: &mut [u8], part: &[u8]) -> u32
    ensures { LinkPartCallSays link.old part.now result link.new }
{
    let answer = job::link::part(link, part);
    number_in(answer)
}

// Ends the job, and answers it as the file of its bytes is answered.
#[unsafe(no_mangle)]
pub extern "C" fn hejmirov_link_end(
    link: &mut [u8],
    out: &mut [u32],
    work: &mut [u32],
    states: &mut u32,
    frames: &mut u32,
    changes: &mut u32,
    place: &mut u64,
) -> u32
    ensures { LinkEndCallSays link.old out.old work.old states.old frames.old changes.old place.old result link.new out.new work.new states.new frames.new changes.new place.new }
{
    let answer = job::link::end(link, out, work);
    hand_out_job(answer, states, frames, changes, place)
}

// Makes every place of a store of settings free, whatever stood there.
#[unsafe(no_mangle)]
pub extern "C" fn hejmirov_settings_clear(voices: &mut [u32], settings: &mut [u64]) -> u32
    ensures { SettingsClearCallSays voices.old settings.old result voices.new settings.new }
{
    let answer = settings::clear(voices, settings);
    number_in(answer)
}

// A voice's settings become these: in its place, or where it isn't held in the first that is free.
#[unsafe(no_mangle)]
pub extern "C" fn hejmirov_settings_set(
    voices: &mut [u32],
    settings: &mut [u64],
    voice: u32,
    speed: f64,
    gv_weight: f64,
    threshold: f64,
) -> u32
    ensures { SettingsSetCallSays voices.old settings.old voice speed gv_weight threshold result voices.new settings.new }
{
    let given = Settings {
        speed: floats::bits_of(speed),
        weight: floats::bits_of(gv_weight),
        threshold: floats::bits_of(threshold),
    };
    let answer = settings::set(voices, settings, voice, given);
    number_in(answer)
}

// A voice's settings.
#[unsafe(no_mangle)]
pub extern "C" fn hejmirov_settings_get(
    voices: &[u32],
    settings: &[u64],
    voice: u32,
    speed: &mut f64,
    gv_weight: &mut f64,
    threshold: &mut f64,
) -> u32
    ensures { SettingsGetCallSays voices.now settings.now voice speed.old gv_weight.old threshold.old result speed.new gv_weight.new threshold.new }
{
    let answer = settings::get(voices, settings, voice);
    match answer {
        Ok(held) => {
            *speed = floats::of_bits(held.speed);
            *gv_weight = floats::of_bits(held.weight);
            *threshold = floats::of_bits(held.threshold);
            0
        }
        Err(refusal) => refusal.told(),
    }
}

// Frees the place of a voice.
#[unsafe(no_mangle)]
pub extern "C" fn hejmirov_settings_remove(
    voices: &mut [u32],
    settings: &mut [u64],
    voice: u32,
) -> u32
    ensures { SettingsRemoveCallSays voices.old settings.old voice result voices.new settings.new }
{
    let answer = settings::remove(voices, settings, voice);
    number_in(answer)
}

// How many voices a store holds.
#[unsafe(no_mangle)]
pub extern "C" fn hejmirov_settings_count(voices: &[u32], held: &mut u32) -> u32
    ensures { SettingsCountCallSays voices.now held.old result held.new }
{
    hand_out(settings::count(voices), held)
}

// The store becomes what a settings file says.
#[unsafe(no_mangle)]
pub extern "C" fn hejmirov_settings_read(
    voices: &mut [u32],
    settings: &mut [u64],
    bytes: &[u8],
) -> u32
    ensures { SettingsReadCallSays voices.old settings.old bytes.now result voices.new settings.new }
{
    let answer = settings::file::read(voices, settings, bytes);
    number_in(answer)
}

// The settings file of a store.
#[unsafe(no_mangle)]
pub extern "C" fn hejmirov_settings_write(
    voices: &[u32],
    settings: &[u64],
    out: &mut [u8],
    written: &mut u64,
) -> u32
    ensures { SettingsWriteCallSays voices.now settings.now out.old written.old result out.new written.new }
{
    let answer = settings::file::write(voices, settings, out);
    match answer {
        Ok(bytes) => {
            *written = u64::from(bytes);
            0
        }
        Err(refusal) => refusal.told(),
    }
}

// Starts a table of window sets that two houses share: these sets are common, and every other slot is empty.
#[unsafe(no_mangle)]
pub extern "C" fn hejmirov_table_start(
    widths_table: &mut [u32],
    coefficients_table: &mut [f64],
    common_widths: &[u32],
    common_coefficients: &[f64],
    common: u32,
) -> u32
    ensures { TableStartCallSays (table widths_table.old coefficients_table.old) common common_widths.now common_coefficients.now result (table widths_table.new coefficients_table.new) }
{
    let answer = houses::start(
        widths_table,
        coefficients_table,
        common_widths,
        common_coefficients,
        common,
    );
    number_in(answer)
}

// A house sets a slot of its own that is empty.
#[unsafe(no_mangle)]
pub extern "C" fn hejmirov_table_set(
    widths_table: &mut [u32],
    coefficients_table: &mut [f64],
    house: u32,
    slot: u32,
    widths: &[u32],
    coefficients: &[f64],
) -> u32
    ensures { TableSetCallSays (table widths_table.old coefficients_table.old) house slot widths.now coefficients.now result (table widths_table.new coefficients_table.new) }
{
    let answer = houses::set(
        widths_table,
        coefficients_table,
        house,
        slot,
        widths,
        coefficients,
    );
    number_in(answer)
}

// A house clears a slot of its own.
#[unsafe(no_mangle)]
pub extern "C" fn hejmirov_table_clear(
    widths_table: &mut [u32],
    coefficients_table: &mut [f64],
    house: u32,
    slot: u32,
) -> u32
    ensures { TableClearCallSays (table widths_table.old coefficients_table.old) house slot result (table widths_table.new coefficients_table.new) }
{
    let answer = houses::clear(widths_table, coefficients_table, house, slot);
    number_in(answer)
}

// Where the coefficients of a slot's set stand in the table, and its widths.
#[unsafe(no_mangle)]
pub extern "C" fn hejmirov_table_use(
    widths_table: &[u32],
    coefficients_table: &[f64],
    house: u32,
    slot: u32,
    first: &mut u64,
    widths: &mut [u32],
    count: &mut u64,
) -> u32
    ensures { TableUseCallSays (table widths_table.now coefficients_table.now) house slot first.old widths.old count.old result first.new widths.new count.new }
{
    let used = houses::use_set(widths_table, coefficients_table, house, slot, widths);
    hand_out_span(used, first, count)
}

// How many of a house's own slots are empty.
#[unsafe(no_mangle)]
pub extern "C" fn hejmirov_table_free(
    widths_table: &[u32],
    coefficients_table: &[f64],
    house: u32,
    free: &mut u32,
) -> u32
    ensures { TableFreeCallSays (table widths_table.now coefficients_table.now) house free.old result free.new }
{
    hand_out(houses::free(widths_table, coefficients_table, house), free)
}

// Each word's first frame and the frame after its last. This call and those below have refusal numbers of their own.
#[unsafe(no_mangle)]
pub extern "C" fn hejmirov_words_spans(
    words: &[u32],
    nstate: u32,
    durations: &[u32],
    spans: &mut [u32],
) -> u32
    ensures { WordsSpansCallSays words.now nstate durations.now spans.old result spans.new }
{
    number_in(read_along::spans(words, nstate, durations, spans))
}

// The same in milliseconds.
#[unsafe(no_mangle)]
pub extern "C" fn hejmirov_words_milliseconds(
    words: &[u32],
    nstate: u32,
    durations: &[u32],
    spans: &mut [u32],
) -> u32
    ensures { WordsMillisecondsCallSays words.now nstate durations.now spans.old result spans.new }
{
    number_in(read_along::milliseconds(words, nstate, durations, spans))
}

// The word that sounds at a frame.
#[unsafe(no_mangle)]
pub extern "C" fn hejmirov_words_at(
    words: &[u32],
    nstate: u32,
    durations: &[u32],
    frame: u32,
    word: &mut u32,
) -> u32
    ensures { WordsAtCallSays words.now nstate durations.now frame word.old result word.new }
{
    hand_out(read_along::at(words, nstate, durations, frame), word)
}

// The part of a trajectory that a word has, by its numbers' places.
#[unsafe(no_mangle)]
pub extern "C" fn hejmirov_words_excerpt(
    words: &[u32],
    nstate: u32,
    durations: &[u32],
    trajectory: &[f64],
    v: u32,
    word: u32,
    first: &mut u64,
    count: &mut u64,
) -> u32
    ensures { WordsExcerptCallSays words.now nstate durations.now trajectory.now v word first.old count.old result first.new count.new }
{
    let part = read_along::excerpt_part(words, nstate, durations, trajectory, v, word);
    hand_out_span(part, first, count)
}

// The timing file of words.
#[unsafe(no_mangle)]
pub extern "C" fn hejmirov_words_write(
    words: &[u32],
    nstate: u32,
    durations: &[u32],
    out: &mut [u8],
    written: &mut u64,
) -> u32
    ensures { WordsWriteCallSays words.now nstate durations.now out.old written.old result out.new written.new }
{
    let answer = read_along::file::write(words, nstate, durations, out);
    hand_out(answer, written)
}

// The spans that a timing file says.
#[unsafe(no_mangle)]
pub extern "C" fn hejmirov_words_read(bytes: &[u8], spans: &mut [u32], words: &mut u32) -> u32
    ensures { WordsReadCallSays bytes.now spans.old words.old result spans.new words.new }
{
    hand_out(read_along::file::read(bytes, spans), words)
}
