//! The layout of C's records in memory. Each law is the contract of a function that does nothing.
ghost use Rattle.sg_embed.specs.InMemory.{LiesAs};
ghost use Rattle.sg_embed.specs.Structs.{mdl_call, mdl_command, mdl_damage, mdl_fault};
ghost use Rattle.sg_embed.specs.Structs.{mdl_happening, mdl_identity, mdl_reply, mdl_sense};
ghost use Rattle.sg_embed.specs.Structs.{mdl_wanted};
ghost use Rattle.sg_embed.specs.contracts.command.CommandRecord.{the_row as command_record};
ghost use Rattle.sg_embed.specs.contracts.fault.FaultRecord.{the_row as fault_record};
ghost use Rattle.sg_embed.specs.contracts.file_record.DamageRecord.{the_row as damage_record};
ghost use Rattle.sg_embed.specs.contracts.file_record.FileCallRecord.{the_row as file_call_record};
ghost use Rattle.sg_embed.specs.contracts.file_record.WantedRecord.{the_row as wanted_record};
ghost use Rattle.sg_embed.specs.contracts.happening.HappeningRecord.{the_row as happening_record};
ghost use Rattle.sg_embed.specs.contracts.record.IdentityRecord.{the_row as identity_record};
ghost use Rattle.sg_embed.specs.contracts.record.ReplyRecord.{the_row as reply_record};
ghost use Rattle.sg_embed.specs.contracts.record.SenseRecord.{the_row as sense_record};

/// A [`ReplyRecord`](crate::ReplyRecord) lies in memory as the header declares `mdl_reply`.
pub fn a_reply_lies_as_in_the_header()
    ensures bytes { LiesAs reply_record 64 mdl_reply }
{}

/// An [`IdentityRecord`](crate::IdentityRecord) lies in memory as the header declares
/// `mdl_identity`.
pub fn an_identity_lies_as_in_the_header()
    ensures bytes { LiesAs identity_record 48 mdl_identity }
{}

/// A [`SenseRecord`](crate::SenseRecord) lies in memory as the header declares `mdl_sense`.
pub fn sense_fields_lie_as_in_the_header()
    ensures bytes { LiesAs sense_record 16 mdl_sense }
{}

/// A [`CommandRecord`](crate::CommandRecord) lies in memory as the header declares `mdl_command`.
pub fn a_command_lies_as_in_the_header()
    ensures bytes { LiesAs command_record 32 mdl_command }
{}

/// A [`FaultRecord`](crate::FaultRecord) lies in memory as the header declares `mdl_fault`.
pub fn a_fault_lies_as_in_the_header()
    ensures bytes { LiesAs fault_record 40 mdl_fault }
{}

/// A [`HappeningRecord`](crate::HappeningRecord) lies in memory as the header declares
/// `mdl_happening`.
pub fn a_happening_lies_as_in_the_header()
    ensures bytes { LiesAs happening_record 72 mdl_happening }
{}

/// A [`WantedRecord`](crate::WantedRecord) lies in memory as `embed/mehdalung.c` declares
/// `mdl_wanted`.
pub fn what_is_wanted_lies_as_c_declares_it()
    ensures bytes { LiesAs wanted_record 80 mdl_wanted }
{}

/// A [`DamageRecord`](crate::DamageRecord) lies in memory as the header declares `mdl_damage`.
pub fn damage_lies_as_in_the_header()
    ensures bytes { LiesAs damage_record 16 mdl_damage }
{}

/// A [`FileCallRecord`](crate::FileCallRecord) lies in memory as `embed/mehdalung.c` declares
/// `mdl_call`.
pub fn a_call_on_a_file_lies_as_c_declares_it()
    ensures bytes { LiesAs file_call_record 32 mdl_call }
{}
