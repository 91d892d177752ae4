// Prices, in hundredths of the currency (rules 2).
ghost use Rattle.std.specs.Prelude.{◌≡◌};
ghost use Rattle.orders.specs.Prices.{level, in_price_range};

/// A price in hundredths of the currency. An absent price is an `Option`, never a number.
#[derive(Clone, Copy, Debug, PartialEq, Eq, PartialOrd, Ord)]
pub struct Price {
    pub hundredths: u32,
}

/// The lowest price that an order may carry: 0,01.
pub const LOWEST: u32 = 1;

/// The highest price that an order may carry: 999999,99.
pub const HIGHEST: u32 = 99_999_999;

impl Price {
    /// How high the price is: prices compare by it alone.
    pub fn level(self) -> u32
        ensures { result ≡ level self }
    {
        self.hundredths
    }

    /// Whether an order may carry the price (rules 2).
    pub fn is_in_range(self) -> bool
        ensures { result ≡ in_price_range self }
    {
        (LOWEST..=HIGHEST).contains(&self.hundredths)
    }
}
