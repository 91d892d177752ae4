// The laws of every run, above any book: each is the contract of a function that does nothing else.
#![tactic(auto)]

pub mod calls;
pub mod days;

ghost use Rattle.laws.specs.Runs.{AlwaysLawful, AlwaysFair};
ghost use Rattle.laws.specs.Reaching.{ReachMeans, AlwaysFilled};
ghost use Rattle.laws.specs.WithinRoom.{AlwaysWithinRoom, EnteredAsRequested, ChangedAsRequested};
ghost use Rattle.laws.specs.Counterexamples.{Counterexamples};

/// After setting up and after every step, every lot is accounted for, no bid meets an offer and no
/// stop is ripe.
pub fn always_lawful()
    ensures { AlwaysLawful }
{}

/// No trade passes a limit or a turn, by a tally of the lines and forms alone, which holds both
/// orders.
pub fn always_fair()
    ensures { AlwaysFair }
{}

/// Inside a step neither the tape nor the stamps run out, no number is put twice, and no refill is
/// refused (rules 7).
pub fn always_within_room()
    ensures { AlwaysWithinRoom }
{}

/// An accepted entry, or change, has the quantity, the open, shown and disclosed lots that it asks
/// for (rules 8, 13).
pub fn as_requested()
    ensures entered { EnteredAsRequested }
    ensures changed { ChangedAsRequested }
{}

/// Each law can be broken: by a lost or doubled lot, by a trade out of turn, past a limit or with
/// an unknown order, by a bid at an offer's price, by a ripe stop.
pub fn laws_can_fail()
    ensures { Counterexamples }
{}

/// Reach is what an order that had no end of lots would trade (rules 9); so an entry that wants
/// all, or a minimum, trades that or nothing (rules 8).
pub fn reach_means()
    ensures lots { ReachMeans }
    ensures filled { AlwaysFilled }
{}
