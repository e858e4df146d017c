//! Laws of the definitions: each is the contract of a function that does nothing, or calls those
//! whose laws it follows from.
ghost use Rattle.sg_fencing.specs.Fencing.{EqualViewsEndAlike, HolderIsAsIfAlone};
ghost use Rattle.sg_fencing.specs.Fencing.{OthersAreShutOut, OthersLeaveTheView, OthersReadNothing};
ghost use Rattle.sg_fencing.specs.Fencing.{OnlyPreemptionEnds, OthersSeeNoBlock};
ghost use Rattle.sg_fencing.specs.Group.{EqualGroupViewsEndAlike, EqualGroupViewsRunAlike};
ghost use Rattle.sg_fencing.specs.Group.{NewcomersAreSeen, OutsidersMayBeLeftOut};
ghost use Rattle.sg_fencing.specs.Laws.{ConflictChangesNothing, OnlyReadsReturnData, OnlyWritesChangeBlocks};
ghost use Rattle.sg_fencing.specs.Laws.{OtherCommandsLeaveTheDisk, OtherCommandsLeaveTheUnit};
ghost use Rattle.sg_fencing.specs.Laws.{RefusedByReservation};
ghost use Rattle.sg_fencing.specs.Laws.{RefusedChangesNothing, RefusedReturnsNothing};
ghost use Rattle.sg_fencing.specs.Laws.{WritesOverUsedAddressesAreNeverRefusedForSpace};
ghost use Rattle.sg_fencing.specs.Laws.{WritesThatNothingForbidsEndWithGood};
ghost use Rattle.sg_fencing.specs.PowerCycles.{BlocksAndSavedPagesStay, FencedOffThroughPowerCycles};
ghost use Rattle.sg_fencing.specs.PowerCycles.{HolderIsAsIfAloneThroughPowerCycles, OthersAreGone};
ghost use Rattle.sg_fencing.specs.PowerCycles.{PersistentOnesStay, PowerOnIsPendingForEach, TwoAreOne};
ghost use Rattle.sg_fencing.specs.PowerCycles.{TheLastRegisterDecides};
ghost use Rattle.sg_fencing.specs.Registrants.{FencedOffAreKeptOut, FencedOffLeaveTheView};
ghost use Rattle.sg_fencing.specs.Registrants.{FencedOffReadNothing, FencedOffSeeNoBlock};
ghost use Rattle.sg_fencing.specs.Registrants.{FencedOffWriteNothing, HoldersHandOver};
ghost use Rattle.sg_fencing.specs.Registrants.{NoBlockIsSeenOverAList, OldKeysAreRefused};
ghost use Rattle.sg_fencing.specs.Registrants.{OnlyRegisteringRegisters, OthersAreRegisteredTogether};
ghost use Rattle.sg_fencing.specs.Registrants.{OutsidersChangeNothing, TheRefusedStayUnregistered};
ghost use Rattle.sg_fencing.specs.Registrants.{PreemptedAreUnregistered, PreemptedWriteNothing};
ghost use Rattle.sg_fencing.specs.Registrants.{PreemptingSendersStayRegistered, PreemptionKeepsAReservation};
ghost use Rattle.sg_fencing.specs.WithFaults.{FaultsLetNobodyPastTheHolder, FaultsLetNobodyThrough};
ghost use Rattle.sg_fencing.specs.WithFaults.{FaultsRegisterNobody, FencedOffThroughFaults};
ghost use Rattle.sg_fencing.specs.WithFaults.{PreemptedStayFencedOut};

use sg_store::laws::remapping_takes_what_is_needed;
use sg_target::laws::{
    faults_only_drop_or_shorten, limits_are_kept, only_passed_commands_end_with_good,
    refused_commands_stay_refused, writes_over_used_addresses_have_space,
};
use sg_units::laws::{one_key_each, others_are_refused};
use sg_wire::laws::commands_have_their_class;

/// An operation that does not write to the medium leaves the blocks as they are. So write
/// protection need not stop a command that asks for it.
pub fn only_writes_change_blocks()
    ensures { OnlyWritesChangeBlocks }
{}

/// The answer to an operation that does not read from the medium is the same whatever the data of the
/// mapped blocks is.
pub fn only_reads_return_data()
    ensures { OnlyReadsReturnData }
{
    remapping_takes_what_is_needed();
}

/// Only WRITE, WRITE AND VERIFY, WRITE SAME, COMPARE AND WRITE, ORWRITE, WRITE ATOMIC, UNMAP, FORMAT UNIT
/// and the erases of SANITIZE change blocks. Every other command leaves the disk as it was, whatever its
/// answer is. SYNCHRONIZE CACHE and WRITE LONG do so too, although a reservation treats them as commands
/// that write.
pub fn other_commands_leave_the_disk()
    ensures { OtherCommandsLeaveTheDisk }
{}

/// Only these, MODE SELECT, PERSISTENT RESERVE OUT and START STOP UNIT change the unit. Every other
/// command, whatever its answer is, only clears conditions that are pending for its initiator.
pub fn other_commands_leave_the_unit()
    ensures { OtherCommandsLeaveTheUnit }
{}

/// A WRITE whose addresses are all mapped or anchored takes no more of the pool. So no check
/// refuses it for space: its answer is not SPACE ALLOCATION FAILED WRITE PROTECT.
pub fn writes_over_used_addresses_are_never_refused_for_space()
    ensures { WritesOverUsedAddressesAreNeverRefusedForSpace }
{
    writes_over_used_addresses_have_space();
}

/// A WRITE ends with GOOD if nothing forbids it. No unit attention is pending for its initiator,
/// and the reservation, if there is one, lets the initiator write. The unit is not stopped. The
/// blocks are on the disk, and the page Block Limits allows their number. The data-out has their
/// bytes. SWP is not set. Each address is mapped or anchored.
pub fn writes_that_nothing_forbids_end_with_good()
    ensures { WritesThatNothingForbidsEndWithGood }
{
    commands_have_their_class();
    writes_over_used_addresses_have_space();
}

/// A command that does not end with GOOD changes no block, mode page, registration or reservation,
/// and not PRGENERATION. It may clear the unit attention that it reports.
pub fn refused_changes_nothing()
    ensures { RefusedChangesNothing }
{}

/// A command that does not end with GOOD returns no data-in.
pub fn refused_returns_nothing()
    ensures { RefusedReturnsNothing }
{}

/// A command that ends with RESERVATION CONFLICT changes nothing.
pub fn conflict_changes_nothing()
    ensures { ConflictChangesNothing }
{}

/// Each command that the reservation does not allow to its initiator ends with RESERVATION CONFLICT,
/// unless a unit attention that outranks a conflict is pending for the initiator.
pub fn refused_by_reservation()
    ensures { RefusedByReservation }
{}

/// Fencing. An initiator holds a write exclusive or an exclusive access reservation before and
/// after a command of another initiator. Then that command leaves the holder's view as it was: the
/// blocks, the mode pages, its unit attentions, its reservation key and the reservation. It may only
/// start a unit that is stopped.
pub fn others_leave_the_view_of_a_holder()
    ensures { OthersLeaveTheView }
{
    limits_are_kept();
    others_are_refused();
    commands_have_their_class();
}

/// Of the commands of other initiators only PERSISTENT RESERVE OUT with CLEAR, PREEMPT or PREEMPT
/// AND ABORT ends such a reservation.
pub fn only_preemption_ends_a_reservation()
    ensures { OnlyPreemptionEnds }
{}

/// An initiator that holds such a reservation has equal views in two states of one disk. Then a
/// command of it, except REGISTER AND MOVE, ends with equal views in both. The answers are equal too,
/// except to PERSISTENT RESERVE IN and PERSISTENT RESERVE OUT.
pub fn equal_views_of_a_holder_end_alike()
    ensures { EqualViewsEndAlike }
{
    one_key_each();
}

/// While such a reservation is held, no command of another initiator that writes ends with GOOD.
/// Under exclusive access no command of another initiator that reads ends with GOOD either.
pub fn others_are_shut_out()
    ensures { OthersAreShutOut }
{
    others_are_refused();
}

/// If an initiator holds an exclusive access reservation, the answer to another initiator is the
/// same whatever the blocks are, and whichever are mapped. Only LOG SENSE of page 0Ch shows how many
/// are used.
pub fn others_see_no_block()
    ensures { OthersSeeNoBlock }
{
    others_are_refused();
    commands_have_their_class();
}

/// An initiator holds such a reservation before and after each command of a list. Then its view in
/// the end is the view after its own commands only. So are the answers to its commands, except to
/// PERSISTENT RESERVE IN and PERSISTENT RESERVE OUT. No other initiator may start a stopped unit, and this
/// one may not try to give the reservation away.
pub fn a_holder_is_served_as_if_alone()
    ensures { HolderIsAsIfAlone }
{
    limits_are_kept();
    others_are_refused();
    one_key_each();
    commands_have_their_class();
}

/// Over a list of commands, while an initiator holds an exclusive access reservation, no command of
/// another that reads ends with GOOD.
pub fn others_read_nothing()
    ensures { OthersReadNothing }
{
    limits_are_kept();
    others_are_refused();
}

/// Fencing by registration. While a reservation of any type is held, no command that writes ends
/// with GOOD if its initiator is not registered. Under the exclusive access types no command that
/// reads does.
pub fn the_unregistered_are_kept_out()
    ensures { FencedOffAreKeptOut }
{
    others_are_refused();
}

/// While a reservation of any type is held, an unregistered initiator's command leaves the view of
/// every other initiator as it was. It may only start a unit that is stopped, and on an extended disk
/// it may register others together with itself.
pub fn the_unregistered_leave_every_view()
    ensures { FencedOffLeaveTheView }
{
    others_are_refused();
    commands_have_their_class();
}

/// While a reservation of an exclusive access type is held, an initiator that is not registered
/// gets the same answer whatever the blocks are. Only LOG SENSE of page 0Ch shows how many are used.
pub fn the_unregistered_see_no_block()
    ensures { FencedOffSeeNoBlock }
{
    others_are_refused();
    commands_have_their_class();
}

/// An initiator that is not registered becomes registered only by a REGISTER, a REGISTER AND IGNORE
/// EXISTING KEY or a REGISTER AND MOVE that asks for it. The command has a key other than zero, and ends
/// with GOOD. It is the initiator's own, or on an extended disk names it.
pub fn only_registering_registers()
    ensures { OnlyRegisteringRegisters }
{}

/// If another initiator's command registers one, it registers its sender, too, which was not registered,
/// and both have one key afterwards. Or the sender was the one holder of a reservation, which the other
/// takes over. Only an extended disk does that, for SPEC_I_PT and by REGISTER AND MOVE. So a registrant
/// registers nobody else unless it gives its reservation away.
pub fn others_are_registered_together()
    ensures { OthersAreRegisteredTogether }
{}

/// A REGISTER AND MOVE that ends with GOOD was sent by the one holder of a reservation. The initiator that
/// it names takes the reservation over, and is registered under its key; with UNREG the sender is not any
/// more. PRGENERATION and APTPL change as by REGISTER, and no block, page, unit attention or other key.
pub fn holders_hand_over()
    ensures { HoldersHandOver }
{}

/// An unregistered initiator stays unregistered over a list of commands if no command that asks to
/// register it ends with GOOD. It may send REGISTER with the key that it had, or with
/// the key zero, as often as it likes.
pub fn the_refused_stay_unregistered()
    ensures { TheRefusedStayUnregistered }
{}

/// An initiator that is not registered may send REGISTER with the key that it had before. The disk
/// refuses that, and any other RESERVATION KEY than zero.
pub fn old_keys_are_refused()
    ensures { OldKeysAreRefused }
{}

/// Over a list of commands, none that writes ends with GOOD if it finds a reservation of any type
/// and its initiator unregistered.
pub fn the_unregistered_write_nothing()
    ensures { FencedOffWriteNothing }
{
    others_are_refused();
}

/// Over a list of commands, none that reads ends with GOOD if it finds a reservation of an
/// exclusive access type and its initiator unregistered.
pub fn the_unregistered_read_nothing()
    ensures { FencedOffReadNothing }
{
    others_are_refused();
}

/// An initiator stays unregistered over a list of commands. Whenever it sends a command, a
/// reservation of an exclusive access type is held. Then the answers to it are the same whatever
/// the blocks were before the list. Only LOG SENSE of page 0Ch shows how many are used.
pub fn the_unregistered_see_no_block_over_a_list()
    ensures { NoBlockIsSeenOverAList }
{
    others_are_refused();
    commands_have_their_class();
}

/// A reservation of any type is held, and each sender of a list of commands stays unregistered.
/// Then the list leaves the view of every initiator that sends none of them as it was. It may only
/// start a unit that is stopped.
pub fn the_unregistered_change_nothing()
    ensures { OutsidersChangeNothing }
{
    limits_are_kept();
    others_are_refused();
    commands_have_their_class();
}

/// A group sees the same in two states of one disk, and the same unit attentions are pending for an
/// initiator. Then each command of that initiator ends with equal answers in both, and the group
/// sees the same afterwards.
pub fn equal_views_of_a_group_end_alike()
    ensures { EqualGroupViewsEndAlike }
{}

/// A group sees the same in two states of one disk. The same unit attentions are pending for each
/// sender of a list of commands. Then the answers are equal in both, and the group sees the same in
/// the end.
pub fn equal_views_of_a_group_run_alike()
    ensures { EqualGroupViewsRunAlike }
{}

/// If a command of an unregistered initiator registers it, the group sees three changes: its
/// registration, with those of others that the command names; the next PRGENERATION; and APTPL of its
/// parameter list. Nothing that another initiator sees for itself has changed.
pub fn a_new_registration_is_seen()
    ensures { NewcomersAreSeen }
{}

/// Some initiators stay unregistered over a list of commands of registrants and others. Whenever
/// one of them sends a command, a reservation of any type is held. None of them starts a stopped unit;
/// the unit of a base disk is never stopped. Then their commands may be left out. Without these, the
/// answers to all others are the same, and so is what the others see in the end.
pub fn outsiders_may_be_left_out()
    ensures { OutsidersMayBeLeftOut }
{
    limits_are_kept();
    others_are_refused();
    commands_have_their_class();
}

/// After a PREEMPT or a PREEMPT AND ABORT that ends with GOOD, no initiator but its sender is
/// registered that was registered under its key.
pub fn preemption_unregisters()
    ensures { PreemptedAreUnregistered }
{
    one_key_each();
}

/// A PREEMPT or a PREEMPT AND ABORT ends with GOOD while a reservation is held. If any initiator is
/// registered after it, a reservation is held after it too. So an initiator that has lost its
/// registration is fenced off.
pub fn preemption_keeps_a_reservation()
    ensures { PreemptionKeepsAReservation }
{}

/// The sender of a PREEMPT or a PREEMPT AND ABORT that ends with GOOD stays registered, unless the
/// key is its own. So if a reservation is held, a PREEMPT of another key leaves a reservation held.
pub fn preempting_senders_stay_registered()
    ensures { PreemptingSendersStayRegistered }
{
    one_key_each();
}

/// After a PREEMPT or a PREEMPT AND ABORT of its key, an initiator writes nothing while a
/// reservation of any type is held. Over a list of commands, this lasts until the disk grants it a
/// registration again.
pub fn the_preempted_write_nothing()
    ensures { PreemptedWriteNothing }
{
    others_are_refused();
    one_key_each();
}

/// After a power cycle the blocks are as they were, and the saved mode pages are the current ones.
pub fn blocks_and_saved_pages_outlive_power()
    ensures { BlocksAndSavedPagesStay }
{}

/// If registrations and reservation persist through a power loss, a power cycle leaves them as they
/// were, and they persist through the next one too. PRGENERATION is 0 (SPC-4, 6.15.2).
pub fn persistent_reservations_outlive_power()
    ensures { PersistentOnesStay }
{}

/// If registrations and reservation do not persist through a power loss, a power cycle leaves no
/// registration and no reservation, as on a new disk.
pub fn other_reservations_end_with_power()
    ensures { OthersAreGone }
{}

/// Commands and power cycles happen in any order. Afterwards registrations and reservation persist
/// through a power loss exactly if the last command that counts set APTPL. REGISTER, REGISTER AND
/// IGNORE EXISTING KEY and REGISTER AND MOVE count if they end with GOOD. None of them counts if an
/// unregistered initiator sends it with the key zero.
pub fn the_last_register_decides()
    ensures { TheLastRegisterDecides }
{
    refused_changes_nothing();
}

/// After a power cycle one unit attention is pending for each initiator, POWER ON, and none that
/// was pending before.
pub fn power_on_is_pending_for_each_initiator()
    ensures { PowerOnIsPendingForEach }
{}

/// Two power cycles in a row are as one.
pub fn two_power_cycles_are_one()
    ensures { TwoAreOne }
{}

/// Over a list of commands and power cycles, an unregistered initiator writes nothing while a
/// reservation is held. This lasts until the disk grants it a registration.
pub fn the_unregistered_write_nothing_through_power_cycles()
    ensures { FencedOffThroughPowerCycles }
{
    others_are_refused();
}

/// An initiator holds a reservation that nobody shares before and after each command and power
/// cycle of a list, and does not try to give it away. Registrations persist at each power cycle of a
/// run of only its own commands and the power cycles. Then its view in the end is the view after that
/// run. So are the answers to its commands, except to PERSISTENT RESERVE IN and PERSISTENT RESERVE
/// OUT. So at a power cycle a holder sees POWER ON and the saved mode pages, and nothing more.
pub fn a_holder_is_served_as_if_alone_through_power_cycles()
    ensures { HolderIsAsIfAloneThroughPowerCycles }
{
    limits_are_kept();
    others_are_refused();
    one_key_each();
    commands_have_their_class();
}

/// Faults let nobody through a fence. A reservation of any type is held, and an initiator is not
/// registered. Whatever faults are armed, none of its commands that write ends with GOOD. Under the
/// exclusive access types none that reads does, and the answers to it are the same whatever the blocks
/// are. Only LOG SENSE of page 0Ch shows how many are used. Each of its commands leaves the view of every
/// other initiator as it was, unless it registers that one, and what is left of the faults for it.
pub fn faults_let_nobody_through()
    ensures { FaultsLetNobodyThrough }
{
    faults_only_drop_or_shorten();
    refused_commands_stay_refused();
    others_are_refused();
    commands_have_their_class();
}

/// An initiator holds a write exclusive or an exclusive access reservation. Whatever faults are armed,
/// no command of another that writes ends with GOOD. Under exclusive access none that reads does, and
/// the answers to others are the same whatever the blocks are. Only LOG SENSE of page 0Ch shows how many
/// are used. A command of another leaves what is left of the faults for the holder. If the holder still
/// holds after it, it leaves the holder's view as it was.
pub fn faults_let_nobody_past_the_holder()
    ensures { FaultsLetNobodyPastTheHolder }
{
    limits_are_kept();
    faults_only_drop_or_shorten();
    refused_commands_stay_refused();
    others_are_refused();
    commands_have_their_class();
}

/// Whatever faults are armed, an unregistered initiator becomes registered only by a REGISTER, a
/// REGISTER AND IGNORE EXISTING KEY or a REGISTER AND MOVE that asks for it. The command has a key other
/// than zero, and ends with GOOD on a disk without faults. A fault can report it as failed.
pub fn faults_register_nobody()
    ensures { FaultsRegisterNobody }
{
    faults_only_drop_or_shorten();
}

/// An unregistered initiator stays fenced out while a reservation is held, over commands and happenings.
/// These may arm faults and take them away. This lasts until a command that asks to register it does so.
pub fn the_unregistered_stay_fenced_out_through_faults()
    ensures { FencedOffThroughFaults }
{
    limits_are_kept();
    faults_only_drop_or_shorten();
    refused_commands_stay_refused();
    others_are_refused();
    commands_have_their_class();
}

/// After a PREEMPT or a PREEMPT AND ABORT of its key that ends with GOOD, an initiator is fenced out
/// while a reservation is held, whatever faults are armed. This lasts until a command that asks to
/// register it does so.
pub fn the_preempted_stay_fenced_out_through_faults()
    ensures { PreemptedStayFencedOut }
{
    limits_are_kept();
    faults_only_drop_or_shorten();
    refused_commands_stay_refused();
    only_passed_commands_end_with_good();
    others_are_refused();
    one_key_each();
    commands_have_their_class();
}
