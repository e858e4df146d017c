// Files that are written and read again.
use crate::files::{file_of_one_batch, opened};
use sg_journal::ROOM_AHEAD;
use std::test::Fail;

#[test]
fn a_file_is_made_by_the_first_flush(rt: HostRuntime) -> Result<(), Fail> {
    let alloc = rt.alloc();
    let (mut journal, mut batch) = opened(alloc, Vec::new(alloc))?;
    batch.clear();
    batch.push(&[7, 8]);
    journal.flush(&mut batch)?;
    let file = journal.device.bytes();
    assert_eq!(rt; file.len(), 4 * 4096);
    assert!(rt; file.starts_with(b"MEHDDISK\0\0\0\x04\0\0\x10\0\0"));
    assert!(rt; file.get(4096..4098) == Some([1, 0].as_slice()));
    let body = [0, 0, 0, 0, 0, 0, 0, 2, 0, 0, 0, 22, 0, 0, 0, 15, 7, 8, 0];
    assert!(rt; file.get(8192..8211) == Some(body.as_slice()));
    assert_eq!(rt; file.get(3 * 4096), Some(&0));
    let (journal, batch) = opened(alloc, file.to_vec(alloc)?)?;
    assert!(rt; batch.records() == [7, 8].as_slice());
    assert_eq!(rt; journal.end, 3 * 4096);
    Ok(())
}

/// The words are 01000002h, FFFFFFFFh and 3. So the sums of the prefixes are 01000002h, 01000001h and
/// 01000004h, the last of which is the sum, and the sum of the three is 03000007h.
#[test]
fn a_checksum_is_over_words(rt: HostRuntime) -> Result<(), Fail> {
    let alloc = rt.alloc();
    let (mut journal, mut batch) = opened(alloc, file_of_one_batch(alloc)?)?;
    batch.clear();
    batch.push(&[1, 0, 0, 2, 255, 255, 255, 255, 3]);
    journal.flush(&mut batch)?;
    let fields = [0, 0, 0, 0, 0, 0, 0, 9, 3, 0, 0, 7, 1, 0, 0, 4];
    assert!(rt; journal.device.bytes().get(2048..2064) == Some(fields.as_slice()));
    Ok(())
}

#[test]
fn a_torn_end_is_repaired_by_the_first_flush(rt: HostRuntime) -> Result<(), Fail> {
    let alloc = rt.alloc();
    let mut file = file_of_one_batch(alloc)?;
    file[1536] = 1;
    let (mut journal, mut batch) = opened(alloc, file)?;
    batch.clear();
    batch.push(&[7, 9]);
    journal.flush(&mut batch)?;
    let file = journal.device.bytes();
    assert_eq!(rt; file.len(), 2048 + ROOM_AHEAD);
    let (journal, batch) = opened(alloc, file.to_vec(alloc)?)?;
    assert!(rt; batch.records() == [7, 9].as_slice());
    assert_eq!(rt; journal.end, 2560);
    Ok(())
}

#[test]
fn the_next_batch_is_written_into_the_room(rt: HostRuntime) -> Result<(), Fail> {
    let alloc = rt.alloc();
    let (mut journal, mut batch) = opened(alloc, file_of_one_batch(alloc)?)?;
    batch.clear();
    batch.push(&[7, 9]);
    journal.flush(&mut batch)?;
    let length = 2048 + ROOM_AHEAD;
    assert_eq!(rt; journal.device.bytes().len(), length);
    let (mut journal, mut batch) = opened(alloc, journal.device.bytes().to_vec(alloc)?)?;
    assert!(rt; batch.records() == [7, 9].as_slice());
    assert_eq!(rt; journal.end, 2560);
    batch.clear();
    batch.push(&[6]);
    journal.flush(&mut batch)?;
    assert_eq!(rt; journal.device.bytes().len(), length);
    let (journal, batch) = opened(alloc, journal.device.bytes().to_vec(alloc)?)?;
    assert!(rt; batch.records() == [6].as_slice());
    assert_eq!(rt; journal.end, 3584);
    Ok(())
}

#[test]
fn a_batch_that_waits_counts_after_a_commit(rt: HostRuntime) -> Result<(), Fail> {
    let alloc = rt.alloc();
    let (mut journal, mut batch) = opened(alloc, file_of_one_batch(alloc)?)?;
    batch.clear();
    batch.push(&[5]);
    journal.flush(&mut batch)?;
    batch.clear();
    batch.push(&[9]);
    journal.write(&mut batch)?;
    assert_eq!(rt; journal.end, 2560);
    let (waiting, read) = opened(alloc, journal.device.bytes().to_vec(alloc)?)?;
    assert!(rt; read.records() == [5].as_slice());
    assert_eq!(rt; waiting.end, 2560);
    journal.commit(&mut batch)?;
    let (committed, read) = opened(alloc, journal.device.bytes().to_vec(alloc)?)?;
    assert!(rt; read.records() == [9].as_slice());
    assert_eq!(rt; committed.end, 3584);
    Ok(())
}

#[test]
fn a_file_is_written_afresh(rt: HostRuntime) -> Result<(), Fail> {
    let alloc = rt.alloc();
    let (mut journal, mut batch) = opened(alloc, file_of_one_batch(alloc)?)?;
    batch.clear();
    batch.push(&[5]);
    journal.begin_rewrite(&mut batch)?;
    journal.rewrite(&mut batch)?;
    journal.finish_rewrite(&mut batch)?;
    let (journal, batch) = opened(alloc, journal.device.bytes().to_vec(alloc)?)?;
    assert!(rt; batch.records() == [5].as_slice());
    assert_eq!(rt; journal.end, 1536);
    Ok(())
}
