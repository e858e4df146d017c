// Which commands owe a flush.
ghost use Rattle.std.specs.Prelude.{◌≡◌};
ghost use Rattle.sg_pages.specs.ModePage.{caches_writes as caches_writes_of};
ghost use Rattle.sg_target.specs.Armed.{Armed};
ghost use Rattle.sg_kept.specs.Owing.{forces_unit_access, owes_by, owes_flush, writes_and_verifies};

use sg_target::Operation;

/// FUA, in byte 1 of a CDB of more than six bytes (SBC-3, 5.11 and 5.33).
const FUA: u8 = 0x08;

const READ_6: u8 = 0x08;

const WRITE_6: u8 = 0x0A;

const WRITE_AND_VERIFY_10: u8 = 0x2E;

const WRITE_AND_VERIFY_12: u8 = 0xAE;

const WRITE_AND_VERIFY_16: u8 = 0x8E;

fn forces_unit_access(cdb: &[u8]) -> bool
    ensures { result ≡ forces_unit_access cdb.now }
{
    match cdb {
        [code, flags, ..] => !(*code == READ_6 || *code == WRITE_6) && *flags & FUA != 0,
        _ => false,
    }
}

fn writes_and_verifies(cdb: &[u8]) -> bool
    ensures { result ≡ writes_and_verifies cdb.now }
{
    match cdb {
        [code, ..] => {
            *code == WRITE_AND_VERIFY_10
                || (*code == WRITE_AND_VERIFY_12 || *code == WRITE_AND_VERIFY_16)
        }
        _ => false,
    }
}

fn owes_by(cdb: &[u8], operation: &Operation<'_>) -> bool
    ensures { result ≡ owes_by cdb.now operation.now }
{
    match operation {
        Operation::Write(_) => forces_unit_access(cdb) || writes_and_verifies(cdb),
        Operation::Read(_) | Operation::CompareAndWrite(_) | Operation::OrWrite(_) => {
            forces_unit_access(cdb)
        }
        Operation::Verify(_)
        | Operation::Compare(_)
        | Operation::CompareEach { .. }
        | Operation::Synchronize(_)
        | Operation::StartStop { .. }
        | Operation::UnmapAll(_)
        | Operation::ChangeModes { .. }
        | Operation::ChangeReservations { .. } => true,
        _ => false,
    }
}

/// Returns `true` if all that was changed so far has to be in the file before a command is answered.
/// After the command, the write cache is on or off.
pub(crate) fn owes_flush(caches_writes: bool, cdb: &[u8], operation: &Option<Operation<'_>>) -> bool
    ensures { (after : Armed) → caches_writes ≡ caches_writes_of after.state.modes
        → result ≡ owes_flush after cdb.now operation.now }
{
    !caches_writes
        || match operation {
            Some(operation) => owes_by(cdb, operation),
            None => false,
        }
}
