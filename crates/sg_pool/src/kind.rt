// The kind of a record decides the status that GET LBA STATUS reports for its addresses, and the
// bytes that a read returns. This file knows no table and no order.
ghost use Rattle.std.specs.Prelude.{◌≡◌, ◌<◌, length, option_map, IfSome, Some};
ghost use Rattle.sg_store.specs.Disk.{data_in};
ghost use Rattle.sg_pool.specs.MappedRecords.{mapping_in, status_of_kind};
ghost use Rattle.sg_table.specs.declared.run.Run.{Run as RunModel};

use crate::slot_blocks::{SlotBlocks, ZERO_BLOCK};
use sg_store::BLOCK_LENGTH;
use sg_store::lba_status::ProvisioningStatus;
use sg_table::{Kind, Run};

/// The provisioning status of addresses whose record has a kind.
pub fn status_of(kind: Kind) -> ProvisioningStatus
    ensures { result ≡ status_of_kind kind }
{
    match kind {
        Kind::Data => ProvisioningStatus::Mapped,
        Kind::Anchored => ProvisioningStatus::Anchored,
    }
}

/// Reads the block of a record's first address: the block of its slot, or zeros if it is anchored.
pub(crate) fn read_first(blocks: &SlotBlocks, run: Run, bytes: &mut [u8])
    requires slot { run.first < length blocks.now }
    requires byte_count { length bytes.old ≡ BLOCK_LENGTH }
    ensures { bytes.new ≡ data_in (Some (mapping_in blocks.now run.first run.kind)) }
{
    match run.kind {
        Kind::Data => bytes.copy_from_slice(blocks.get(run.first)),
        Kind::Anchored => bytes.fill(0),
    }
}

/// The block of an address by the record that begins there: the block of the record's slot. It is
/// zeros if the record is anchored, and if there is none.
pub(crate) fn found_block(blocks: &SlotBlocks, found: Option<Run>) -> &[u8]
    requires slot { IfSome found (λ run. run.first < length blocks.now) }
    ensures block { result.now ≡ data_in (option_map (λ (run : RunModel).
        mapping_in blocks.now run.first run.kind) found) }
    ensures byte_count { length result.now ≡ BLOCK_LENGTH }
{
    let Some(run) = found else {
        return &ZERO_BLOCK;
    };
    match run.kind {
        Kind::Data => blocks.get(run.first),
        Kind::Anchored => &ZERO_BLOCK,
    }
}
