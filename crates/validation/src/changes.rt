// The form of a change.
ghost use Rattle.std.specs.Prelude.{◌≡◌};
ghost use Rattle.validation.specs.Changes.{validate_change};

use crate::cells::{FIRMS, IDENTIFIERS, LOTS, LOTS_OR_NONE, filled, price_if_filled, validity_in};
use forms::form::ChangeForm;
use forms::refusal::Refusal;
use matching::amendment::Amendment;

/// Whose order is to be changed, by its number, and how (rules 13).
#[derive(Clone, Copy)]
pub struct AmendRequest {
    pub firm: u16,
    pub number: u32,
    pub change: Amendment,
}

/// What the form asks for, or the first of 7, 8 and 9 that applies (numbers 5).
pub fn validate_change(form: ChangeForm) -> Result<AmendRequest, Refusal>
    ensures { result ≡ validate_change form }
{
    let firm = filled(1, form.firm)?;
    let client = filled(2, form.client)?;
    let number = filled(3, form.number)?;
    let firm = FIRMS.read(1, firm)?;
    let client = IDENTIFIERS.read(2, client)?;
    let number = IDENTIFIERS.read(3, number)?;
    let price = price_if_filled(4, form.price)?;
    let quantity = form.quantity.map(|n| LOTS.read(5, n)).transpose()?;
    let disclosed = form.disclosed.map(|n| LOTS_OR_NONE.read(6, n)).transpose()?;
    let validity = form.validity.map(|n| validity_in(7, n)).transpose()?;
    if validity.is_some_and(|v| v.is_immediate()) {
        return Err(Refusal::Barred);
    }
    Ok(AmendRequest {
        firm,
        number,
        change: Amendment {
            client,
            price,
            quantity,
            disclosed,
            validity,
        },
    })
}
