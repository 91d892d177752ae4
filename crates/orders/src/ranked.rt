// What has a number and belongs to a firm, and what has a rank besides (rules 4).
ghost use Rattle.std.specs.Prelude.{◌≡◌, ℕ, true, false};
ghost use Rattle.orders.specs.declared.rank.Rank.{Rank as RankValue};
ghost use Rattle.orders.specs.Ranks.{ranks_ahead, order_key, order_rank, stop_rank};
ghost use Rattle.orders.specs.RanksLemmas.{ranks_ahead_irreflexive, ranks_ahead_transitive, ranks_ahead_connected};

use crate::price::Price;
use crate::rank::{HIGHEST_KEY, Rank};
use crate::row::{OrderRow, StopRow};
use crate::side::Side;

/// What has a number, and belongs to a firm that knows it by a client number.
pub trait Numbered {
    ghost number: { Self → ℕ };

    ghost firm: { Self → ℕ };

    ghost client: { Self → ℕ };

    fn number(&self) -> u32
        ensures { result ≡ number self.now };

    fn firm(&self) -> u16
        ensures { result ≡ firm self.now };

    fn client(&self) -> u32
        ensures { result ≡ client self.now };
}

/// What has a rank. Nothing ranks ahead of itself, ranking ahead carries along a chain, and of two
/// different ranks one is ahead (rules 4).
pub trait Ranked: Numbered {
    ghost rank: { Self → RankValue };

    fn rank(&self) -> Rank
        ensures { result ≡ rank self.now };

    ghost irreflexive: { (a : Self) → ranks_ahead (rank a) (rank a) ≡ false };

    ghost transitive: { (a b c : Self) →
        ranks_ahead (rank a) (rank b) ≡ true →
        ranks_ahead (rank b) (rank c) ≡ true →
        ranks_ahead (rank a) (rank c) ≡ true };

    ghost connected: { (a b : Self) →
        ranks_ahead (rank a) (rank b) ≡ false →
        ranks_ahead (rank b) (rank a) ≡ false →
        rank a ≡ rank b };
}

// The key of an order by its limit. A stop has the key that an order of the other side has at its
// trigger.
fn key(side: Side, price: Price) -> u32
    ensures { result ≡ order_key side price }
{
    match side {
        Side::Buy => HIGHEST_KEY - price.level(),
        Side::Sell => price.level(),
    }
}

impl Numbered for OrderRow {
    ghost number = { λ r. r.number };

    ghost firm = { λ r. r.firm };

    ghost client = { λ r. r.client };

    fn number(&self) -> u32 {
        self.number
    }

    fn firm(&self) -> u16 {
        self.firm
    }

    fn client(&self) -> u32 {
        self.client
    }
}

impl Ranked for OrderRow {
    ghost rank = { order_rank };

    ghost irreflexive = { λ a. ranks_ahead_irreflexive (order_rank a) };

    ghost transitive = { λ a b c.
        ranks_ahead_transitive (order_rank a) (order_rank b) (order_rank c) };

    ghost connected = { λ a b. ranks_ahead_connected (order_rank a) (order_rank b) };

    fn rank(&self) -> Rank {
        Rank {
            key: key(self.side, self.price),
            turn: self.turn,
            number: self.number,
        }
    }
}

impl Numbered for StopRow {
    ghost number = { λ r. r.order.number };

    ghost firm = { λ r. r.order.firm };

    ghost client = { λ r. r.order.client };

    fn number(&self) -> u32 {
        self.order.number
    }

    fn firm(&self) -> u16 {
        self.order.firm
    }

    fn client(&self) -> u32 {
        self.order.client
    }
}

impl Ranked for StopRow {
    ghost rank = { stop_rank };

    ghost irreflexive = { λ a. ranks_ahead_irreflexive (stop_rank a) };

    ghost transitive = { λ a b c.
        ranks_ahead_transitive (stop_rank a) (stop_rank b) (stop_rank c) };

    ghost connected = { λ a b. ranks_ahead_connected (stop_rank a) (stop_rank b) };

    fn rank(&self) -> Rank {
        Rank {
            key: key(self.order.side.opposite(), self.trigger),
            turn: self.order.turn,
            number: self.order.number,
        }
    }
}
