// What a state's step costs, as a whole number, and which of two states comes first.
ghost use Rattle.std.specs.Prelude.{◌≡◌, ◌≤◌, ◌<◌, ltb, length};
ghost use Rattle.std.specs.Float.{binary64};
ghost use Rattle.std.specs.Float.Ieee.{to_bits};
ghost use Rattle.lists.specs.Sizes.{most_frames, most_states};
ghost use Rattle.steps.specs.Steps.{state, size, state_at, cost_of, key_of};
ghost use Rattle.steps.specs.Lent.{lent};
ghost use Rattle.steps.specs.Inner.Scores.{rank, score, sooner_of};

use crate::States;

// The key of a state that may take no step: it comes after all costs.
const FIXED: u64 = 0xffff_ffff_ffff_ffff;

// A state's place, and its key.
#[derive(Clone, Copy)]
pub(crate) struct Entry {
    pub(crate) place: usize,
    pub(crate) key: u64,
}

// What steps go by: whether each gives a frame or takes one, the rho that costs are measured from, and the states.
#[derive(Clone, Copy)]
pub(crate) struct Way<'a> {
    pub(crate) up: bool,
    pub(crate) rho: f64,
    pub(crate) states: States<'a>,
}

impl Way<'_> {
    // The entry of the state at a place, with so many frames.
    pub(crate) fn entry(self, place: usize, frames: u32) -> Entry
        requires few { frames ≤ most_frames }
        requires place_in { place < size (lent self.states) }
        requires varis { length self.states.varis.now ≡ size (lent self.states) }
        requires shortest { length self.states.shortest.now ≡ size (lent self.states) }
        ensures { result ≡ record { place = place; key = rank (key_of self.entry.up self.entry.rho (state_at (lent self.entry.states) place) frames) } }
    {
        let s = self.states;
        let key = key_of(
            self.up,
            self.rho,
            s.means[place],
            s.varis[place],
            s.shortest[place],
            frames,
        );
        Entry { place, key }
    }
}

fn cost(rho: f64, mean: f64, vari: f64, d: u32) -> u64
    ensures { result ≡ to_bits binary64 (cost_of rho mean vari d) }
{
    floats::magnitude_bits(rho - ((d as f64) - mean) / vari)
}

// The bits of the cost of a state's step, and all ones where it may take none.
fn key_of(up: bool, rho: f64, mean: f64, vari: f64, shortest: u32, d: u32) -> u64
    requires { d ≤ most_frames }
    ensures { result ≡ rank (key_of up rho (state mean vari shortest) d) }
{
    if up {
        return cost(rho, mean, vari, d + 1);
    }
    if d > shortest {
        return cost(rho, mean, vari, d - 1);
    }
    FIXED
}

fn is_sooner(a: Entry, b: Entry) -> bool
    requires { (a.place < most_states) × (b.place < most_states) }
    ensures { result ≡ ltb (score a.key a.place) (score b.key b.place) }
{
    if a.key == b.key {
        return a.place < b.place;
    }
    a.key < b.key
}

// Of two states the one of the lesser key, and on a tie the first.
pub(crate) fn sooner_of(a: Entry, b: Entry) -> Entry
    requires { (a.place < most_states) × (b.place < most_states) }
    ensures { result ≡ sooner_of a b }
{
    if is_sooner(b, a) {
        return b;
    }
    a
}

// The same of two states in their order: one that may take no step is passed over at once.
pub(crate) fn better_of(best: Entry, next: Entry) -> Entry
    requires { (best.place < next.place) × (next.place < most_states) }
    ensures { result ≡ sooner_of best next }
{
    if next.key == FIXED {
        return best;
    }
    sooner_of(best, next)
}
