// Files that are opened, and files that are refused.
use crate::files::{file_of_one_batch, opened};
use sg_journal::{Batch, Fault, MemorySource, OpenError, Reader};
use std::test::Fail;

#[test]
fn a_file_is_read(rt: HostRuntime) -> Result<(), Fail> {
    let alloc = rt.alloc();
    let (journal, batch) = opened(alloc, file_of_one_batch(alloc)?)?;
    assert!(rt; batch.records() == [7, 8].as_slice());
    assert_eq!(rt; journal.sector, 512);
    assert_eq!(rt; journal.end, 1536);
    Ok(())
}

#[test]
fn any_first_byte_but_1_closes_a_gate(rt: HostRuntime) -> Result<(), Fail> {
    let alloc = rt.alloc();
    let mut file = file_of_one_batch(alloc)?;
    file[512] = 2;
    let (journal, _) = opened(alloc, file)?;
    assert_eq!(rt; journal.end, 512);
    Ok(())
}

#[test]
fn a_damaged_batch_is_refused(rt: HostRuntime) -> Result<(), Fail> {
    let alloc = rt.alloc();
    let mut file = file_of_one_batch(alloc)?;
    file[1024 + 16] = 6;
    match Reader::open(MemorySource::new(alloc, file)) {
        Ok(mut reader) => {
            let mut batch = Batch::new(alloc, reader.sector)?;
            let read = reader.next(&mut batch);
            assert!(rt; read == Err(OpenError::File(Fault::Damaged { at: 512 })));
            Ok(())
        }
        Err((error, _)) => Err(Fail::from(error)),
    }
}

#[test]
fn other_files_are_refused(rt: HostRuntime) -> Result<(), Fail> {
    let alloc = rt.alloc();
    for (at, byte, fault) in [
        (0, b'm', Fault::NotADisk),
        (11, 1, Fault::OtherVersion(1)),
        (14, 3, Fault::Damaged { at: 12 }),
        (14, 16, Fault::NotADisk),
    ] {
        let mut file = file_of_one_batch(alloc)?;
        if let Some(place) = file.get_mut(at) {
            *place = byte;
        }
        match Reader::open(MemorySource::new(alloc, file)) {
            Ok(_) => return Err(Fail::from("the file is opened")),
            Err((error, _)) => assert!(rt; error == OpenError::File(fault), "{fault}"),
        }
    }
    Ok(())
}
