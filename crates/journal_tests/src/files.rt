// A file that was laid out by hand from the description of the format, and its end.
ghost use Rattle.std.specs.Prelude.{◌≡◌, ◌≤◌, ◌^◌, ℕ, List, [], IfOk, OnOk, vec_len};
ghost use Rattle.sg_journal.specs.MemoryBytes.{source_left, source_taken};
ghost use Rattle.sg_journal.specs.Reading.{HasEnded, HasFound};
ghost use Rattle.sg_journal.specs.JournalState.{HasBatches};

use sg_journal::{Batch, Device, Journal, Memory, MemorySource, OpenError, Reader};
use std::alloc::{AllocError, Global};
use std::test::Fail;

/// A file with sectors of 512 bytes. It has one batch, whose records are the bytes 7 and 8, and a
/// gate. The sum of the records is 15, and the sum of the sums of their prefixes is 22.
pub(crate) fn file_of_one_batch(alloc: Global) -> Result<Vec<u8>, AllocError>
    ensures { IfOk result (λ file. vec_len file ≡ 2048) }
{
    let mut file = vec![in alloc; 0; 2048]?;
    file[..16].copy_from_slice(b"MEHDDISK\0\0\0\x04\0\0\x02\0");
    file[512] = 1;
    file[1024 + 7] = 2;
    file[1024 + 11] = 22;
    file[1024 + 15] = 15;
    file[1024 + 16] = 7;
    file[1024 + 17] = 8;
    Ok(file)
}

/// Reads all batches of a file. The last is in `batch`.
fn read_all(reader: &mut Reader<MemorySource>, batch: &mut Batch) -> Result<(), OpenError>
    requires found { (bs : List (List ℕ)) × HasFound source_taken source_left reader.old bs }
    requires sector { batch.old.sector ≡ reader.old.sector }
    ensures ended { OnOk result (HasEnded reader.new) }
    ensures found { OnOk result ((bs : List (List ℕ)) ×
        HasFound source_taken source_left reader.new bs) }
    ensures sector { batch.new.sector ≡ reader.new.sector }
{
    loop {
        if !reader.next(batch)? {
            return Ok(());
        }
    }
}

/// Reads a file to its end. Returns its journal, and its last batch.
pub(crate) fn opened(alloc: Global, bytes: Vec<u8>) -> Result<(Journal<Memory>, Batch), Fail>
    ensures batches { IfOk result (λ r. (bs : List (List ℕ)) ×
        HasBatches ⟦<Memory as Device>⟧.seen ⟦<Memory as Device>⟧.may_leave r.0 bs []) }
    ensures sector { IfOk result (λ r. r.1.sector ≡ r.0.sector) }
    ensures length { IfOk result (λ r. r.0.length ≤ 2 ^ 61) }
{
    let mut reader = match Reader::open(MemorySource::new(alloc, bytes)) {
        Ok(reader) => reader,
        Err((error, _)) => return Err(Fail::from(error)),
    };
    let mut batch = Batch::new(alloc, reader.sector)?;
    read_all(&mut reader, &mut batch)?;
    let journal = match reader.into_journal() {
        Ok(journal) => journal,
        Err((error, _)) => return Err(Fail::from(error)),
    };
    if journal.length > 1 << 61 {
        return Err(Fail::from("the file is too long"));
    }
    Ok((journal, batch))
}
