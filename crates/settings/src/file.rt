// The settings file: a store is read from it, and written to it.
ghost use Rattle.std.specs.Prelude.{◌≡◌, ◌^◌, ◌<◌};
ghost use Rattle.std.proofs.lemmas.List.Edits.{sets};
ghost use Rattle.lists.specs.Sizes.{most_voices};
ghost use Rattle.lists.specs.Ends.{refused};
ghost use Rattle.settings.specs.Store.{entry, entries_in};
ghost use Rattle.settings.specs.Inner.Lent.{lent};
ghost use Rattle.settings.specs.Changes.{empty};
ghost use Rattle.settings.specs.Format.{head_bytes, entry_bytes, settings_from, format_refusal, bytes_of_entry, bytes_of_heading, bytes_of_entries};
ghost use Rattle.settings.specs.Promise.{store_refusal, ReadSays, WriteSays};
ghost use Rattle.settings.specs.Inner.Steps.{Gathered, Replaced, PlaceWritten};

use crate::store::Store;
use crate::{FREE, PLACES, SETTINGS, Settings};
use lists::Refusal;

const HEAD: usize = 7;

// Bytes of a record, of version 1 and of version 2, which is written.
const SHORT_ENTRY: usize = 18;

const ENTRY: usize = 26;

// The bits of 0.5, the threshold of version 1.
const HALF: u64 = 0x3fe0_0000_0000_0000;

// Bytes of a record.
fn entry_bytes(version: u64) -> usize
    ensures { result ≡ entry_bytes version }
{
    if version == 1 {
        return SHORT_ENTRY;
    }
    ENTRY
}

// Whether a file can be read, but for too many voices.
fn check_format(bytes: &[u8]) -> Result<(), Refusal>
    ensures { refused result ≡ format_refusal bytes.now }
{
    if !lists::starts_with(bytes, b"VST") {
        return Err(Refusal::SettingsMalformed);
    }
    if bytes.len() < 5 {
        return Err(Refusal::SettingsMalformed);
    }
    let version = lists::little_endian(bytes, 3, 2);
    if !((version == 1) | (version == 2)) {
        return Err(Refusal::SettingsVersion);
    }
    let count = lists::little_endian(bytes, 5, 2) as usize;
    if bytes.len() != HEAD + entry_bytes(version) * count {
        return Err(Refusal::SettingsMalformed);
    }
    Ok(())
}

// The threshold of a record at a place.
fn threshold_from(version: u64, bytes: &[u8], at: usize) -> u64
    requires { at < 2 ^ 32 }
    ensures { result ≡ (settings_from version bytes.now at).threshold }
{
    if version == 1 {
        return HALF;
    }
    lists::little_endian(bytes, at + 18, 8)
}

// The settings of a record at a place.
fn settings_from(version: u64, bytes: &[u8], at: usize) -> Settings
    requires { at < 2 ^ 32 }
    ensures { result ≡ settings_from version bytes.now at }
{
    Settings {
        speed: lists::little_endian(bytes, at + 2, 8),
        weight: lists::little_endian(bytes, at + 10, 8),
        threshold: threshold_from(version, bytes, at),
    }
}

// Sets the records of a file, one after the other, in a store that is clear, if there is a place for each.
fn gather(bytes: &[u8], voices: &mut [u32], settings: &mut [u64]) -> Result<(), Refusal>
    requires { (voices.old ≡ empty.voices) × (settings.old ≡ empty.settings) }
    ensures { Gathered bytes.now result voices.new settings.new }
{
    let version = lists::little_endian(bytes, 3, 2);
    let count = lists::little_endian(bytes, 5, 2) as usize;
    let size = entry_bytes(version);
    let mut held = 0;
    for i in 0..count {
        let at = HEAD + size * i;
        let voice = lists::little_endian(bytes, at, 2) as u32;
        let place = lists::first_u32(&voices[..held], voice);
        if place == PLACES {
            return Err(Refusal::StoreFull);
        }
        voices[place] = voice;
        crate::put_settings(settings, place, settings_from(version, bytes, at));
        held = held.max(place + 1);
    }
    Ok(())
}

// The store becomes what a file says that is well formed, if there is a place for each of its voices.
fn replace(voices: &mut [u32], settings: &mut [u64], bytes: &[u8]) -> Result<(), Refusal>
    requires { store_refusal voices.old settings.old ≡ 0 }
    ensures { Replaced voices.old settings.old bytes.now result voices.new settings.new }
{
    let mut new_voices = [FREE; PLACES];
    let mut new_settings = [0u64; SETTINGS];
    gather(bytes, &mut new_voices, &mut new_settings)?;
    voices[..PLACES].copy_from_slice(&new_voices);
    settings[..SETTINGS].copy_from_slice(&new_settings);
    Ok(())
}

// The store becomes what the file says.
pub fn read(voices: &mut [u32], settings: &mut [u64], bytes: &[u8]) -> Result<(), Refusal>
    ensures { ReadSays voices.old settings.old bytes.now result voices.new settings.new }
{
    crate::check_store(voices, settings)?;
    check_format(bytes)?;
    replace(voices, settings, bytes)
}

// A record, from a place on.
fn put_entry(out: &mut [u8], at: usize, voice: u32, given: Settings)
    requires { at < 2 ^ 32 }
    ensures { out.new ≡ sets out.old at (bytes_of_entry 2 (entry voice given)) }
{
    lists::put_little_endian(out, at, 2, voice as u64);
    lists::put_little_endian(out, at + 2, 8, given.speed);
    lists::put_little_endian(out, at + 10, 8, given.weight);
    lists::put_little_endian(out, at + 18, 8, given.threshold);
}

// The record of a place that holds a voice; where the next one stands.
fn put_place(store: Store, place: usize, out: &mut [u8], at: usize) -> usize
    requires { (place < most_voices) × (at < 2 ^ 32) }
    ensures { PlaceWritten (lent store.entry) place out.old at result out.new }
{
    if !crate::holds(store.voices, place) {
        return at;
    }
    let given = crate::settings_at(store.settings, place);
    put_entry(out, at, store.voices[place], given);
    at + ENTRY
}

// The records of all places that hold a voice, behind the heading.
fn put_entries(store: Store, out: &mut [u8])
    ensures { out.new ≡ sets out.old head_bytes (bytes_of_entries 2 (entries_in (lent store.entry))) }
{
    let mut at = HEAD;
    for place in 0..PLACES {
        at = put_place(store, place, out, at);
    }
}

// The mark, version 2 and the number of records.
fn put_heading(out: &mut [u8], count: usize)
    ensures { out.new ≡ sets out.old 0 (bytes_of_heading 2 count) }
{
    lists::copy(b"VST", 3, out);
    lists::put_little_endian(out, 3, 2, 2);
    lists::put_little_endian(out, 5, 2, count as u64);
}

// The file of a store.
pub fn write(voices: &[u32], settings: &[u64], out: &mut [u8]) -> Result<u32, Refusal>
    ensures { WriteSays voices.now settings.now out.old result out.new }
{
    crate::check_store(voices, settings)?;
    let store = Store {
        voices: &voices[..PLACES],
        settings: &settings[..SETTINGS],
    };
    let count = crate::held(store.voices);
    let length = HEAD + ENTRY * count;
    if out.len() < length {
        return Err(Refusal::TooLittleRoom);
    }
    put_heading(out, count);
    put_entries(store, out);
    Ok(length as u32)
}
