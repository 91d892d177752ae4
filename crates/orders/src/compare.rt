// Prices, sides and ranks compare by their derives, and as the definitions say.
ghost use Rattle.std.specs.Prelude.{◌≡◌};
ghost use Rattle.std.specs.Ordering.{is_lt, is_some_and};
ghost use Rattle.orders.specs.declared.price.Price.{Price as PriceValue};
ghost use Rattle.orders.specs.declared.rank.Rank.{Rank as RankValue};
ghost use Rattle.orders.specs.declared.side.Side.{Side as SideValue};
ghost use Rattle.orders.specs.Prices.{same_price};
ghost use Rattle.orders.specs.Ranks.{ranks_ahead, same_rank};
ghost use Rattle.orders.specs.Sides.{same_side};

use crate::price::Price;
use crate::rank::Rank;
use crate::side::Side;

/// What the derives of `Price`, `Side` and `Rank` mean: equal ones are the same, and the lesser
/// rank is ahead (rules 4).
pub fn derived_as_defined()
    ensures prices { (a b : PriceValue) → ⟦<Price as PartialEq>⟧.eq a b ≡ same_price a b }
    ensures sides { (a b : SideValue) → ⟦<Side as PartialEq>⟧.eq a b ≡ same_side a b }
    ensures ranks { (a b : RankValue) → ⟦<Rank as PartialEq>⟧.eq a b ≡ same_rank a b }
    ensures ahead { (a b : RankValue) → is_lt (⟦<Rank as Ord>⟧.cmp a b) ≡ ranks_ahead a b }
    ensures less { (a b : RankValue) →
        is_some_and is_lt (⟦<Rank as PartialOrd>⟧.partial_cmp a b) ≡ ranks_ahead a b }
{}
