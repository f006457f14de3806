// Why a house's call is refused: the first refusal that applies.
ghost use Rattle.std.specs.Prelude.{◌≡◌};
ghost use Rattle.lists.specs.Ends.{refused};
ghost use Rattle.houses.specs.Inner.Lent.{lent};
ghost use Rattle.houses.specs.Promise.{table_refusal, set_refusal, clear_refusal, use_refusal, free_refusal};

use crate::slots::{self, Table};
use crate::{COEFFICIENTS, WIDTHS};
use lists::Refusal;
use model::voice::window;

// A table can't be used where a list is too short.
pub(crate) fn check_table(table: Table) -> Result<(), Refusal>
    ensures { refused result ≡ table_refusal (lent table.entry) }
{
    if (table.widths.len() < WIDTHS) | (table.coefficients.len() < COEFFICIENTS) {
        return Err(Refusal::TooLittleRoom);
    }
    Ok(())
}

pub(crate) fn check_set(
    table: Table,
    house: u32,
    slot: u32,
    set_widths: &[u32],
    set_coefficients: &[f64],
) -> Result<(), Refusal>
    ensures { refused result ≡ set_refusal (lent table.entry) house slot set_widths.now set_coefficients.now }
{
    if !slots::owns(house, slot) {
        return Err(Refusal::NotYourSlot);
    }
    if !slots::is_empty(table, slot as usize) {
        return Err(Refusal::SlotSet);
    }
    window::check(set_widths, set_coefficients)?;
    check_table(table)
}

pub(crate) fn check_clear(table: Table, house: u32, slot: u32) -> Result<(), Refusal>
    ensures { refused result ≡ clear_refusal (lent table.entry) house slot }
{
    if !slots::owns(house, slot) {
        return Err(Refusal::NotYourSlot);
    }
    if slots::is_empty(table, slot as usize) {
        return Err(Refusal::SlotEmpty);
    }
    check_table(table)
}

pub(crate) fn check_use(
    table: Table,
    house: u32,
    slot: u32,
    set_widths: &[u32],
) -> Result<(), Refusal>
    ensures { refused result ≡ use_refusal (lent table.entry) house slot set_widths.now }
{
    if !slots::may_use(house, slot) {
        return Err(Refusal::NotYourSlot);
    }
    let empty = slots::is_empty(table, slot as usize);
    if empty {
        return Err(Refusal::SlotEmpty);
    }
    check_table(table)?;
    if set_widths.len() < slots::ROW {
        return Err(Refusal::TooLittleRoom);
    }
    Ok(())
}

pub(crate) fn check_free(table: Table, house: u32) -> Result<(), Refusal>
    ensures { refused result ≡ free_refusal (lent table.entry) house }
{
    if !slots::is_house(house) {
        return Err(Refusal::NotYourSlot);
    }
    check_table(table)
}
