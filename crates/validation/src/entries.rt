// The form of an entry.
ghost use Rattle.std.specs.Prelude.{◌≡◌, false, Some, Ok};
ghost use Rattle.validation.specs.Cells.{blanks_first};
ghost use Rattle.validation.specs.Entries.{price_wrong, trigger_wrong, type_in_cell, wrong_blank, order_type_of, typed_entry, validate_entry};

use crate::cells::{
    FIRMS, IDENTIFIERS, INVESTORS, LOTS, LOTS_OR_NONE, TAGS, TypeCode, filled, price_if_filled,
    side_in, validity_in,
};
use crate::combinations::is_barred;
use forms::form::EntryForm;
use forms::refusal::Refusal;
use matching::new_order::{NewOrder, OrderType};
use orders::price::Price;

impl TypeCode {
    // Price is filled exactly with a limit order and a stop.
    fn has_price(self) -> bool
        ensures { result ≡ price_wrong (Some self) false }
    {
        self != TypeCode::Market
    }

    // Trigger is filled exactly with a stop.
    fn has_trigger(self) -> bool
        ensures { result ≡ trigger_wrong (Some self) false }
    {
        self == TypeCode::StopLimit
    }
}

fn type_in_cell(cell: Option<u8>) -> Option<TypeCode>
    ensures { result ≡ type_in_cell cell }
{
    TypeCode::try_from(cell?).ok()
}

// Which cells must be filled, and which blank.
fn check_blanks(form: EntryForm) -> Result<(), Refusal>
    ensures { result ≡ blanks_first (wrong_blank form) (Ok tt) }
{
    let order_type = type_in_cell(form.order_type);
    filled(1, form.firm)?;
    filled(2, form.client)?;
    filled(3, form.side)?;
    filled(4, form.order_type)?;
    filled(5, form.validity)?;
    if order_type.is_some_and(|k| k.has_price() != form.price.is_some()) {
        return Err(Refusal::WrongBlank { cell: 6 });
    }
    if order_type.is_some_and(|k| k.has_trigger() != form.trigger.is_some()) {
        return Err(Refusal::WrongBlank { cell: 7 });
    }
    filled(8, form.quantity)?;
    Ok(())
}

// The type with its prices. The type cell is out of range where a price is missing, which the check
// of the blanks has ruled out.
fn order_type_of(
    order_type: TypeCode,
    price: Option<Price>,
    trigger: Option<Price>,
) -> Result<OrderType, Refusal>
    ensures { result ≡ order_type_of order_type price trigger }
{
    match (order_type, price, trigger) {
        (TypeCode::Limit, Some(limit), _) => Ok(OrderType::Limit(limit)),
        (TypeCode::Market, _, _) => Ok(OrderType::Market),
        (TypeCode::StopLimit, Some(limit), Some(trigger)) => Ok(OrderType::StopLimit {
            limit,
            trigger,
        }),
        _ => Err(Refusal::OutOfRange { cell: 4 }),
    }
}

// Every cell within its range. Cells that must be filled were checked before; a blank one reads 0.
fn typed_entry(form: EntryForm) -> Result<NewOrder, Refusal>
    ensures { result ≡ typed_entry form }
{
    let firm = FIRMS.read(1, form.firm.unwrap_or(0))?;
    let client = IDENTIFIERS.read(2, form.client.unwrap_or(0))?;
    let side = side_in(3, form.side.unwrap_or(0))?;
    let order_type = type_in_cell(form.order_type).ok_or(Refusal::OutOfRange { cell: 4 })?;
    let validity = validity_in(5, form.validity.unwrap_or(0))?;
    let price = price_if_filled(6, form.price)?;
    let trigger = price_if_filled(7, form.trigger)?;
    let quantity = LOTS.read(8, form.quantity.unwrap_or(0))?;
    let disclosed = LOTS_OR_NONE.read(9, form.disclosed.unwrap_or(0))?;
    let minimum = LOTS_OR_NONE.read(10, form.minimum.unwrap_or(0))?;
    let investor = INVESTORS.read(11, form.investor.unwrap_or(0))?;
    let tag = TAGS.read(12, form.tag.unwrap_or(0))?;
    let order_type = order_type_of(order_type, price, trigger)?;
    Ok(NewOrder {
        firm,
        client,
        side,
        order_type,
        validity,
        quantity,
        disclosed,
        minimum,
        investor,
        tag,
    })
}

/// What the form asks for, or the first of 7, 8 and 9 that applies (numbers 5).
pub fn validate_entry(form: EntryForm) -> Result<NewOrder, Refusal>
    ensures { result ≡ validate_entry form }
{
    check_blanks(form)?;
    let new_order = typed_entry(form)?;
    if is_barred(new_order) {
        return Err(Refusal::Barred);
    }
    Ok(new_order)
}
