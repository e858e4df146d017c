//! Laws of the definitions: each is the contract of a function that does nothing.
ghost use Rattle.sg_units.specs.Laws.{ConsistencyIsTested};
ghost use Rattle.sg_units.specs.Laws.{EachRegistrantHolds, GenerationCountsChanges};
ghost use Rattle.sg_units.specs.Laws.{NoConditionForAnother, NothingRaisedForCaller, OneHolder};
ghost use Rattle.sg_units.specs.Laws.{OneKeyEach, OthersAreRefused, OthersStayPending};
ghost use Rattle.sg_units.specs.Laws.{QueuesKeepTheirLimits, ReservationsStayConsistent};
ghost use Rattle.sg_units.specs.Laws.{ResetsAreReportedFirst, SharersAreAllowed};

/// A unit attention condition that is established for one initiator is pending for no other.
pub fn no_condition_for_another()
    ensures { NoConditionForAnother }
{}

/// After the condition of a reset is established, the oldest condition covers it. So the next
/// command that reports a condition reports a reset.
pub fn resets_are_reported_first()
    ensures { ResetsAreReportedFirst }
{}

/// A condition that is no reset's stays pending whatever is established.
pub fn others_stay_pending()
    ensures { OthersStayPending }
{}

/// PERSISTENT RESERVE OUT establishes nothing for the initiator that sent it.
pub fn nothing_raised_for_caller()
    ensures { NothingRaisedForCaller }
{}

/// An initiator is registered under one key.
pub fn one_key_each()
    ensures { OneKeyEach }
{}

/// Under a type that is not all registrants a reservation has one holder, which is registered.
pub fn one_holder()
    ensures { OneHolder }
{}

/// Under an all registrants type the holders are the registrants, and there is at least one.
pub fn each_registrant_holds()
    ensures { EachRegistrantHolds }
{}

/// An initiator that does not hold or share a reservation is refused writing under every type, and
/// reading under the exclusive access types.
pub fn others_are_refused()
    ensures { OthersAreRefused }
{}

/// A holder, and a registrant that shares a reservation, is refused nothing.
pub fn sharers_are_allowed()
    ensures { SharersAreAllowed }
{}

/// PRGENERATION is incremented by each command that changes a registration, and by at most one.
pub fn generation_counts_changes()
    ensures { GenerationCountsChanges }
{}

/// Registrations and reservation that are consistent stay so after PERSISTENT RESERVE OUT, and
/// after a power cycle.
pub fn reservations_stay_consistent()
    ensures { ReservationsStayConsistent }
{}

/// The test of registrations and a reservation says whether they are consistent.
pub fn consistency_is_tested()
    ensures { ConsistencyIsTested }
{}

/// The queues of unit attentions stay within their limits if the oldest condition of one, or a given
/// one, is cleared, if conditions are raised, and in a power cycle.
pub fn queues_keep_their_limits()
    ensures { QueuesKeepTheirLimits }
{}
