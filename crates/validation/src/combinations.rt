// Which combinations of type, validity and quantities are barred.
ghost use Rattle.std.specs.Prelude.{◌≡◌};
ghost use Rattle.validation.specs.Combinations.{disclosed_barred, barred};

use matching::new_order::{NewOrder, OrderType};
use orders::side::Validity;

/// An order is shown in at most 16 parts: one shown and 15 hidden (rules 3).
pub const MOST_PARTS: u64 = 16;

/// Whether a disclosed does not fit a quantity, both in lots (rules 8, 13).
pub fn is_disclosed_barred(quantity: u32, disclosed: u32) -> bool
    ensures { result ≡ disclosed_barred quantity disclosed }
{
    quantity < disclosed
        || (disclosed > 0 && MOST_PARTS * u64::from(disclosed) < u64::from(quantity))
}

/// Whether the values of an entry do not go together (rules 8).
pub fn is_barred(new_order: NewOrder) -> bool
    ensures { result ≡ barred new_order }
{
    let NewOrder {
        order_type,
        validity,
        quantity,
        disclosed,
        minimum,
        ..
    } = new_order;
    match (order_type, validity) {
        (OrderType::StopLimit { .. }, Validity::Ioc | Validity::Fok) => true,
        (OrderType::StopLimit { .. }, _) if minimum > 0 => true,
        (_, Validity::Ioc | Validity::Fok) if disclosed > 0 => true,
        _ if quantity < minimum => true,
        _ => is_disclosed_barred(quantity, disclosed),
    }
}
