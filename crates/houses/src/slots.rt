// A table's slots: what they hold, whose they are, and how they are written.
ghost use Rattle.std.specs.Prelude.{◌≡◌, ◌*◌, ◌<◌, ◌≤◌, length, ltb};
ghost use Rattle.std.proofs.lemmas.List.Edits.{sets};
ghost use Rattle.lists.specs.Parts.{part};
ghost use Rattle.lists.specs.Sizes.{most_windows, slot_count, house_count};
ghost use Rattle.houses.specs.Slots.{table, slot_at, up_to_last, trimmed, is_empty, first_own, owns, may_use, free_of};
ghost use Rattle.houses.specs.Changes.{padded, holding, put_in};
ghost use Rattle.houses.specs.Inner.Lent.{lent};
ghost use Rattle.houses.specs.Inner.Steps.{Within};

use model::voice::window;

// A table as it is lent to be read.
#[derive(Clone, Copy)]
pub(crate) struct Table<'a> {
    pub(crate) widths: &'a [u32],
    pub(crate) coefficients: &'a [f64],
}

// Widths and coefficients of a slot.
pub(crate) const ROW: usize = 4;

pub(crate) const TAPS: usize = 60;

const HOUSES: u32 = 2;

// The first slots are common; behind them each house has as many of its own.
pub(crate) const COMMON: u32 = 4;

const OWN: u32 = 4;

// The four widths of a slot, as far as they are there.
pub(crate) fn row<'a>(widths: &'a [u32], slot: usize) -> &'a [u32]
    requires { slot < slot_count }
    ensures { result.now ≡ part (slot * most_windows) most_windows widths.now }
{
    lists::part(widths, slot * ROW, ROW)
}

// Numbers without the zeros at their end.
pub(crate) fn trimmed<'a>(row: &'a [u32]) -> &'a [u32]
    ensures { result.now ≡ trimmed row.now }
{
    lists::part(row, 0, up_to_last(row))
}

// How many numbers there are up to the last that isn't 0.
fn up_to_last(row: &[u32]) -> usize
    ensures { result ≡ up_to_last row.now }
{
    for i in (0..row.len()).rev() {
        if row[i] != 0 {
            return i + 1;
        }
    }
    0
}

// Whether a slot is empty: what it has is no set that a trajectory takes.
pub(crate) fn is_empty(table: Table, slot: usize) -> bool
    requires { slot < slot_count }
    ensures { result ≡ is_empty (slot_at (lent table.entry) slot) }
{
    let own = trimmed(row(table.widths, slot));
    let taps = lists::part(table.coefficients, slot * TAPS, TAPS);
    let count = lists::total_u32(own) as usize;
    window::check(own, lists::part(taps, 0, count)).is_err()
}

pub(crate) fn is_house(house: u32) -> bool
    ensures { result ≡ ltb house house_count }
{
    house < HOUSES
}

// The first of a house's own slots.
fn first_own(house: u32) -> u32
    requires { house < house_count }
    ensures { result ≡ first_own house }
{
    COMMON + house * OWN
}

// Whether a slot is a house's own.
pub(crate) fn owns(house: u32, slot: u32) -> bool
    ensures { result ≡ owns house slot }
{
    if !is_house(house) {
        return false;
    }
    let first = first_own(house);
    (first <= slot) & (slot < first + OWN)
}

// Whether a house may use a slot.
pub(crate) fn may_use(house: u32, slot: u32) -> bool
    ensures { result ≡ may_use house slot }
{
    if !is_house(house) {
        return false;
    }
    (slot < COMMON) | owns(house, slot)
}

// How many of a house's own slots are empty.
pub(crate) fn free_of(table: Table, house: u32) -> u32
    requires { house < house_count }
    ensures { result ≡ free_of house (lent table.entry) }
{
    let first = first_own(house);
    let mut free = 0;
    for i in 0..OWN {
        if is_empty(table, (first + i) as usize) {
            free += 1;
        }
    }
    free
}

// A slot has these numbers, with z behind them.
fn put<T: Copy>(numbers: &mut [T], slot: usize, size: usize, given: &[T], z: T)
    requires { (slot < slot_count) × (slot_count * size ≤ length numbers.old) }
    ensures { numbers.new ≡ sets numbers.old (slot * size) (padded size z given.now) }
{
    let begin = slot * size;
    let end = begin + size;
    let count = size.min(given.len());
    lists::copy(given, count, &mut numbers[begin..end]);
    let rest = begin + count;
    lists::fill(&mut numbers[rest..end], size - count, z);
}

// A slot has this set, with zeros behind its widths and behind its coefficients.
pub(crate) fn put_set(
    widths: &mut [u32],
    coefficients: &mut [f64],
    slot: usize,
    set_widths: &[u32],
    set_coefficients: &[f64],
)
    requires { Within slot widths.old coefficients.old }
    ensures { table widths.new coefficients.new ≡ put_in slot (holding set_widths.now set_coefficients.now) (table widths.old coefficients.old) }
{
    put(widths, slot, ROW, set_widths, 0);
    put(coefficients, slot, TAPS, set_coefficients, 0.0);
}
