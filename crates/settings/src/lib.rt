// A store of voices' settings, in two lists that the caller lends. Every content of them has a meaning.
#![tactic(auto)]

ghost use Rattle.std.specs.Prelude.{◌≡◌, ◌*◌, ◌+◌, ◌<◌, ◌≤◌, length};
ghost use Rattle.std.proofs.lemmas.List.Edits.{sets};
ghost use Rattle.lists.specs.Sizes.{most_voices};
ghost use Rattle.lists.specs.Ends.{refused};
ghost use Rattle.lists.specs.Firsts.{first_at};
ghost use Rattle.settings.specs.Store.{in_order, settings_at, holds_at, held_in, free_place};
ghost use Rattle.settings.specs.Changes.{place_for};
ghost use Rattle.settings.specs.Inner.Steps.{PlaceGiven};
ghost use Rattle.settings.specs.Promise.{store_refusal, voice_refusal, ClearSays, SetSays, GetSays, RemoveSays, CountSays};

use lists::Refusal;

pub mod file;
mod store;

pub const PLACES: usize = 256;

// Settings of all places.
pub const SETTINGS: usize = 768;

const MOST_VOICE: u32 = 65_535;

// The number of a place that is free, as it is left here. Every number above a voice's says so.
const FREE: u32 = 0xffff_ffff;

// A voice's settings: the bits of three floats.
#[derive(Clone, Copy, Debug, PartialEq, Eq)]
pub struct Settings {
    pub speed: u64,
    pub weight: u64,
    pub threshold: u64,
}

// Whether a store can be used: neither list is too short.
fn check_store(voices: &[u32], settings: &[u64]) -> Result<(), Refusal>
    ensures { refused result ≡ store_refusal voices.now settings.now }
{
    if (voices.len() < PLACES) | (settings.len() < SETTINGS) {
        return Err(Refusal::TooLittleRoom);
    }
    Ok(())
}

// Whether a voice can be looked for: its number isn't too large, and the store can be used.
fn check_voice(voice: u32, voices: &[u32], settings: &[u64]) -> Result<(), Refusal>
    ensures { refused result ≡ voice_refusal voice voices.now settings.now }
{
    if voice > MOST_VOICE {
        return Err(Refusal::BadSize);
    }
    check_store(voices, settings)
}

// Whether a place holds a voice: its number is a voice's, and no earlier place has it.
fn holds(voices: &[u32], place: usize) -> bool
    requires { place < length voices.now }
    ensures { result ≡ holds_at voices.now place }
{
    let number = voices[place];
    (number <= MOST_VOICE) & (lists::first_u32(voices, number) == place)
}

// How many places hold a voice.
fn held(voices: &[u32]) -> usize
    ensures { result ≡ held_in voices.now }
{
    let mut n = 0;
    for place in 0..voices.len() {
        if holds(voices, place) {
            n += 1;
        }
    }
    n
}

// The first place that is free.
fn free_place(voices: &[u32]) -> Option<usize>
    ensures { PlaceGiven result (free_place voices.now) voices.now }
{
    for free in 0..voices.len() {
        if !holds(voices, free) {
            return Some(free);
        }
    }
    None
}

// The place that a voice has.
fn place_of(voices: &[u32], voice: u32) -> Option<usize>
    ensures { PlaceGiven result (first_at voice voices.now) voices.now }
{
    let place = lists::first_u32(voices, voice);
    (place < voices.len()).then_some(place)
}

// The place that a voice has, or where it isn't held gets.
fn place_for(voices: &[u32], voice: u32) -> Option<usize>
    ensures { PlaceGiven result (place_for voice voices.now) voices.now }
{
    match place_of(voices, voice) {
        Some(place) => Some(place),
        None => free_place(voices),
    }
}

// The settings of a place.
fn settings_at(settings: &[u64], place: usize) -> Settings
    requires { (3 * place + 3 ≤ length settings.now) × (place < most_voices) }
    ensures { result ≡ settings_at settings.now place }
{
    let at = 3 * place;
    Settings {
        speed: settings[at],
        weight: settings[at + 1],
        threshold: settings[at + 2],
    }
}

// Puts settings into a place.
fn put_settings(settings: &mut [u64], place: usize, given: Settings)
    requires { (3 * place + 3 ≤ length settings.old) × (place < most_voices) }
    ensures { settings.new ≡ sets settings.old (3 * place) (in_order given) }
{
    let at = 3 * place;
    settings[at] = given.speed;
    settings[at + 1] = given.weight;
    settings[at + 2] = given.threshold;
}

// Makes every place free, whatever stood there.
pub fn clear(voices: &mut [u32], settings: &mut [u64]) -> Result<(), Refusal>
    ensures { ClearSays voices.old settings.old result voices.new settings.new }
{
    check_store(voices, settings)?;
    voices[..PLACES].fill(FREE);
    settings[..SETTINGS].fill(0);
    Ok(())
}

// A voice's settings become these: in its place, or where it isn't held in the first that is free.
pub fn set(
    voices: &mut [u32],
    settings: &mut [u64],
    voice: u32,
    given: Settings,
) -> Result<(), Refusal>
    ensures { SetSays voices.old settings.old voice given result voices.new settings.new }
{
    check_voice(voice, voices, settings)?;
    let place = place_for(&voices[..PLACES], voice).ok_or(Refusal::StoreFull)?;
    voices[place] = voice;
    put_settings(settings, place, given);
    Ok(())
}

// A voice's settings.
pub fn get(voices: &[u32], settings: &[u64], voice: u32) -> Result<Settings, Refusal>
    ensures { GetSays voices.now settings.now voice result }
{
    check_voice(voice, voices, settings)?;
    let place = place_of(&voices[..PLACES], voice).ok_or(Refusal::VoiceNotHeld)?;
    Ok(settings_at(settings, place))
}

// Frees the place of a voice.
pub fn remove(voices: &mut [u32], settings: &mut [u64], voice: u32) -> Result<(), Refusal>
    ensures { RemoveSays voices.old settings.old voice result voices.new settings.new }
{
    check_voice(voice, voices, settings)?;
    let place = place_of(&voices[..PLACES], voice).ok_or(Refusal::VoiceNotHeld)?;
    lists::replace_u32(&mut voices[..PLACES], voice, FREE);
    let none = Settings {
        speed: 0,
        weight: 0,
        threshold: 0,
    };
    put_settings(settings, place, none);
    Ok(())
}

// How many voices are held.
pub fn count(voices: &[u32]) -> Result<u32, Refusal>
    ensures { CountSays voices.now result }
{
    if voices.len() < PLACES {
        return Err(Refusal::TooLittleRoom);
    }
    Ok(held(&voices[..PLACES]) as u32)
}
