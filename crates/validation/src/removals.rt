// The forms of a cancel, a mass cancel and an opening.
ghost use Rattle.std.specs.Prelude.{◌≡◌};
ghost use Rattle.validation.specs.Removals.{validate_cancel, validate_mass_cancel, validate_opening};

use crate::cells::{DAYS, FIRMS, IDENTIFIERS, INVESTORS, TAGS, filled, side_in};
use forms::form::{CancelForm, MassCancelForm, OpeningForm};
use forms::refusal::Refusal;
use matching::removal::CancelFilter;

/// Whose order or stop is to be cancelled, by its number (rules 14).
#[derive(Clone, Copy)]
pub struct CancelRequest {
    pub firm: u16,
    pub number: u32,
}

/// What the form asks for, or the first of 7 and 8 that applies (numbers 5).
pub fn validate_cancel(form: CancelForm) -> Result<CancelRequest, Refusal>
    ensures { result ≡ validate_cancel form }
{
    let firm = filled(1, form.firm)?;
    let number = filled(2, form.number)?;
    let firm = FIRMS.read(1, firm)?;
    let number = IDENTIFIERS.read(2, number)?;
    Ok(CancelRequest { firm, number })
}

/// What the form asks for, or the first of 7 and 8 that applies (numbers 5).
pub fn validate_mass_cancel(form: MassCancelForm) -> Result<CancelFilter, Refusal>
    ensures { result ≡ validate_mass_cancel form }
{
    let firm = FIRMS.read(1, filled(1, form.firm)?)?;
    let side = form.side.map(|n| side_in(2, n)).transpose()?;
    let tag = form.tag.map(|n| TAGS.read(3, n)).transpose()?;
    let investor = form.investor.map(|n| INVESTORS.read(4, n)).transpose()?;
    Ok(CancelFilter {
        firm,
        side,
        tag,
        investor,
    })
}

/// The day that is to be opened, or the first of 7 and 8 that applies (numbers 5).
pub fn validate_opening(form: OpeningForm) -> Result<u16, Refusal>
    ensures { result ≡ validate_opening form }
{
    DAYS.read(1, filled(1, form.day)?)
}
