// A table is started: its common sets come in rows of widths of one length, and one list of coefficients.
ghost use Rattle.std.specs.Prelude.{◌≡◌, ◌≤◌};
ghost use Rattle.lists.specs.Build.{build};
ghost use Rattle.lists.specs.Ends.{refused};
ghost use Rattle.lists.specs.Sizes.{most_windows, most_common};
ghost use Rattle.model.specs.Windows.{all_of};
ghost use Rattle.houses.specs.Slots.{table};
ghost use Rattle.houses.specs.Changes.{put_in, row_length, row_of, common_slot, started};
ghost use Rattle.houses.specs.Promise.{row_fits, rows_fit, common_agree, start_refusal};
ghost use Rattle.houses.specs.Inner.Lent.{lent};
ghost use Rattle.houses.specs.Inner.Steps.{Within, Long};

use crate::refusing::check_table;
use crate::slots::{self, Table};
use lists::Refusal;
use model::voice::window;

const SLOTS: usize = 12;

// The common sets as they are lent: how many, rows of widths, and one list of coefficients.
#[derive(Clone, Copy)]
pub(crate) struct Common<'a> {
    pub(crate) count: u32,
    pub(crate) widths: &'a [u32],
    pub(crate) coefficients: &'a [f64],
}

// Why a table is not started: the first refusal that applies.
pub(crate) fn check_start(table: Table, common: Common) -> Result<(), Refusal>
    ensures { refused result ≡ start_refusal (lent table.entry) common.entry.count common.entry.widths.now common.entry.coefficients.now }
{
    if common.count > slots::COMMON {
        return Err(Refusal::NotYourSlot);
    }
    if !rows_fit(common) {
        return Err(Refusal::BadWindows);
    }
    if !window::all_finite(common.coefficients) {
        return Err(Refusal::BadCoefficient);
    }
    if !agree(common) {
        return Err(Refusal::ListsDisagree);
    }
    check_table(table)
}

// How many numbers a row has; none where there is no row.
pub(crate) fn row_length(common: Common) -> usize
    ensures { result ≡ row_length common.entry.count common.entry.widths.now }
{
    if common.count == 0 {
        return 0;
    }
    common.widths.len() / common.count as usize
}

// Whether no row has more than four numbers, and each is a set's widths.
fn rows_fit(common: Common) -> bool
    requires { common.count ≤ most_common }
    ensures { result ≡ rows_fit common.entry.count common.entry.widths.now }
{
    let length = row_length(common);
    if length > slots::ROW {
        return false;
    }
    each_row_fits(common.widths, length, common.count as usize)
}

// Whether each of so many rows, without the zeros at its end, is a set's widths.
fn each_row_fits(widths: &[u32], length: usize, count: usize) -> bool
    requires { (length ≤ most_windows) × (count ≤ most_common) }
    ensures { result ≡ all_of row_fits (build (row_of length widths.now) count) }
{
    for i in 0..count {
        let row = lists::part(widths, i * length, length);
        if !window::widths_fit(slots::trimmed(row)) {
            return false;
        }
    }
    true
}

// Whether the rows are all of the widths, and the coefficients as many as these sum to.
fn agree(common: Common) -> bool
    requires { (common.count ≤ most_common) × (row_length common.count common.widths.now ≤ most_windows) }
    ensures { result ≡ common_agree common.entry.count common.entry.widths.now common.entry.coefficients.now }
{
    let length = row_length(common);
    if common.count as usize * length != common.widths.len() {
        return false;
    }
    common.coefficients.len() as u64 == lists::total_u32(common.widths)
}

// Every slot becomes what its row says; past the last set a row has no number.
pub(crate) fn put_common(
    widths: &mut [u32],
    coefficients: &mut [f64],
    common: Common,
    length: usize,
)
    requires { Long widths.old coefficients.old × (length ≤ most_windows) }
    ensures { table widths.new coefficients.new ≡ started length common.entry.widths.now common.entry.coefficients.now (table widths.old coefficients.old) }
{
    for slot in 0..SLOTS {
        put_row(widths, coefficients, slot, common, length);
    }
}

// A slot becomes what its row says.
fn put_row(widths: &mut [u32], coefficients: &mut [f64], slot: usize, common: Common, length: usize)
    requires { Within slot widths.old coefficients.old × (length ≤ most_windows) }
    ensures { table widths.new coefficients.new ≡ put_in slot (common_slot length common.entry.widths.now common.entry.coefficients.now slot) (table widths.old coefficients.old) }
{
    let from = slot * length;
    let row = lists::part(common.widths, from, length);
    let before = lists::total_u32(lists::part(common.widths, 0, from)) as usize;
    let count = lists::total_u32(row) as usize;
    let taps = lists::part(common.coefficients, before, count);
    slots::put_set(widths, coefficients, slot, row, taps);
}
