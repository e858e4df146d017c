//! Laws of the definitions: each is the contract of a function that does nothing.
ghost use Rattle.sg_wire.specs.Laws.{AnswersAreInTheirBuffers, CommandsHaveTheirClass};
ghost use Rattle.sg_wire.specs.Laws.{PartsArePutInTurn, PartsAreReplaced, PrefixesAreRefused};
ghost use Rattle.sg_wire.specs.Laws.{ProfilesAreClosed, ProfilesOnlyAdd, UsageDataIsEvaluated};

/// A disk reads no CDB as a command that its profile lacks.
pub fn profiles_are_closed()
    ensures { ProfilesAreClosed }
{}

/// A profile only adds. If a CDB is a command on a disk, it is the same command, of the same class,
/// on each disk that has the command. The CDB has the same row there. A unit attention blocks the
/// command on each of these disks or on none. An extended disk allows each bit of a CDB that a base
/// disk allows.
pub fn profiles_only_add()
    ensures { ProfilesOnlyAdd }
{}

/// A proper prefix of a command's CDB is no command on a disk that has the command: without a byte it
/// is refused as empty, and otherwise as cut at its end.
pub fn prefixes_are_refused()
    ensures { PrefixesAreRefused }
{}

/// The class of a CDB decides whether another initiator's reservation conflicts with it. The class
/// is read before the CDB is decoded: a CDB that is a command has the class of that command.
pub fn commands_have_their_class()
    ensures { CommandsHaveTheirClass }
{}

/// If an answer was put whole, its first bytes, up to the limit, are at the beginning of the
/// buffer. The bytes of the buffer after them are as they were.
pub fn answers_are_in_their_buffers()
    ensures { AnswersAreInTheirBuffers }
{}

/// Parts of an answer that are put one after the other are put as one, and putting no byte changes
/// nothing.
pub fn parts_are_put_in_turn()
    ensures { PartsArePutInTurn }
{}

/// Replacing a part of an answer by one of the same length is as if the new part had been put at
/// first. All that was written before is still there.
pub fn parts_are_replaced()
    ensures { PartsAreReplaced }
{}

/// A bit of CDB USAGE DATA (SPC-4, 6.35.3) is set exactly if the disk evaluates it. Such a bit is in
/// a field that is not ignored, or it is another bit with a meaning. This is true of each command
/// and each bit, except in the operation code and the service action. If CDB USAGE DATA has each bit
/// of a CDB's byte, the disk does not refuse the CDB for this byte.
pub fn usage_data_is_evaluated()
    ensures { UsageDataIsEvaluated }
{}
