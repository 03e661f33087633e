// Pages of rows.
ghost use Rattle.std.specs.Prelude.{◌≡◌};
ghost use Rattle.sheets.specs.declared.pages.TheConstants.{ROWS_TO_A_PAGE};
ghost use Rattle.sheets.specs.Pages.{RoundedUp, page_count};

pub const ROWS_TO_A_PAGE: u32 = 20;

// How many pages so many rows take; a log and a timeline count theirs by it.
pub fn pages(rows: u32) -> u32
    ensures answer { result ≡ page_count rows }
    ensures rounded { RoundedUp rows ROWS_TO_A_PAGE result }
{
    rows.div_ceil(ROWS_TO_A_PAGE)
}
