// A table of window sets that two houses share, in two lists that the caller lends. Every content of them has a meaning.
#![tactic(auto)]

ghost use Rattle.std.specs.Prelude.{◌≡◌};
ghost use Rattle.houses.specs.Slots.{table};
ghost use Rattle.houses.specs.Promise.{StartSays, SetSays, ClearSays, UseSays, FreeSays};

use lists::{Refusal, Span};
use slots::Table;
use starting::Common;

mod refusing;
mod slots;
mod starting;

// Widths and coefficients of a table.
pub const WIDTHS: usize = 48;

pub const COEFFICIENTS: usize = 720;

// The owner's call: the table has these common sets, and every other slot is empty, whatever stood there.
pub fn start(
    widths: &mut [u32],
    coefficients: &mut [f64],
    common_widths: &[u32],
    common_coefficients: &[f64],
    common: u32,
) -> Result<(), Refusal>
    ensures { StartSays (table widths.old coefficients.old) common common_widths.now common_coefficients.now result (table widths.new coefficients.new) }
{
    let table = Table {
        widths,
        coefficients,
    };
    let sets = Common {
        count: common,
        widths: common_widths,
        coefficients: common_coefficients,
    };
    starting::check_start(table, sets)?;
    let length = starting::row_length(sets);
    starting::put_common(widths, coefficients, sets, length);
    Ok(())
}

// A house sets a slot of its own that is empty.
pub fn set(
    widths: &mut [u32],
    coefficients: &mut [f64],
    house: u32,
    slot: u32,
    set_widths: &[u32],
    set_coefficients: &[f64],
) -> Result<(), Refusal>
    ensures { SetSays (table widths.old coefficients.old) house slot set_widths.now set_coefficients.now result (table widths.new coefficients.new) }
{
    let table = Table {
        widths,
        coefficients,
    };
    refusing::check_set(table, house, slot, set_widths, set_coefficients)?;
    slots::put_set(
        widths,
        coefficients,
        slot as usize,
        set_widths,
        set_coefficients,
    );
    Ok(())
}

// A house clears a slot of its own.
pub fn clear(
    widths: &mut [u32],
    coefficients: &mut [f64],
    house: u32,
    slot: u32,
) -> Result<(), Refusal>
    ensures { ClearSays (table widths.old coefficients.old) house slot result (table widths.new coefficients.new) }
{
    let table = Table {
        widths,
        coefficients,
    };
    refusing::check_clear(table, house, slot)?;
    slots::put_set(widths, coefficients, slot as usize, &[], &[]);
    Ok(())
}

// Where the coefficients of a slot's set stand in the table; its widths go into a list.
pub fn use_set(
    widths: &[u32],
    coefficients: &[f64],
    house: u32,
    slot: u32,
    set_widths: &mut [u32],
) -> Result<Span, Refusal>
    ensures { UseSays (table widths.now coefficients.now) house slot set_widths.old result set_widths.new }
{
    let table = Table {
        widths,
        coefficients,
    };
    refusing::check_use(table, house, slot, set_widths)?;
    let row = slots::row(widths, slot as usize);
    lists::copy(row, slots::ROW, set_widths);
    Ok(Span {
        first: slot as u64 * slots::TAPS as u64,
        count: lists::total_u32(slots::trimmed(row)),
    })
}

// How many of a house's own slots are empty.
pub fn free(widths: &[u32], coefficients: &[f64], house: u32) -> Result<u32, Refusal>
    ensures { FreeSays (table widths.now coefficients.now) house result }
{
    let table = Table {
        widths,
        coefficients,
    };
    refusing::check_free(table, house)?;
    Ok(slots::free_of(table, house))
}
