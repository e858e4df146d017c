// The request of the command line, in the forms that clap takes, and its refusals.
use crate::arguments::Arguments;
use crate::stop::Stop;
use sg_pages::PhysicalBlock;
use sg_target::Config;
use sg_wire::Profile;
use std::alloc::{AllocError, Global};
use std::test::Fail;

/// The words after the program's name, the disk's blocks, pool and profile, and the script's file.
const ASKED: [(&str, u64, u32, Profile, Option<&str>); 18] = [
    ("", 4_096, 4, Profile::Base, None),
    ("--blocks 1", 1, 4, Profile::Base, None),
    ("--blocks=0x1f --pool 5", 31, 5, Profile::Base, None),
    ("--pool 0X0a --blocks 1FH", 31, 10, Profile::Base, None),
    ("--pool 65536", 4_096, 65_536, Profile::Base, None),
    ("--blocks 1099511627776", 1 << 40, 4, Profile::Base, None),
    ("--script FILE", 4_096, 4, Profile::Base, Some("FILE")),
    ("--script=", 4_096, 4, Profile::Base, Some("")),
    (
        "--script=--blocks --pool 1",
        4_096,
        1,
        Profile::Base,
        Some("--blocks"),
    ),
    ("--script - --", 4_096, 4, Profile::Base, Some("-")),
    ("--profile base", 4_096, 4, Profile::Base, None),
    ("--profile extended", 4_096, 4, Profile::Extended, None),
    (
        "--profile extended --blocks 1",
        1,
        4,
        Profile::Extended,
        None,
    ),
    (
        "--pool 1 --profile=extended --blocks 2",
        2,
        1,
        Profile::Extended,
        None,
    ),
    (
        "--pool 4294967295 --profile extended",
        4_096,
        4_294_967_295,
        Profile::Extended,
        None,
    ),
    ("--profile extended-cut", 4_096, 4, Profile::Extended, None),
    (
        "--profile=extended-cut --blocks 2 --pool 4294967295",
        2,
        4_294_967_295,
        Profile::Extended,
        None,
    ),
    (
        "--pool 4294967295 --profile extended-512e",
        4_096,
        4_294_967_295,
        Profile::Extended,
        None,
    ),
];

/// The words after the program's name, and the message of the stop.
const REFUSED: [(&str, &str); 51] = [
    ("FILE", "usage"),
    ("-h", "usage"),
    ("--help", "usage"),
    ("--version", "usage"),
    ("--script", "usage"),
    ("--block 1", "usage"),
    ("-b 1", "usage"),
    ("--blocks 1 --blocks 1", "usage"),
    ("--blocks zz FILE", "usage"),
    ("--blocks=", "number"),
    ("--blocks ff", "number"),
    ("--blocks 18446744073709551616", "number"),
    ("--pool 18446744073709551616", "number"),
    ("--blocks 0 --pool zz", "number"),
    ("--pool 0 --blocks 0", "blocks"),
    ("--blocks 1099511627777", "blocks"),
    ("--blocks 18446744073709551615", "blocks"),
    ("--pool 0", "pool"),
    ("--pool 65537", "pool"),
    ("--pool 4294967297", "pool"),
    ("--profile extended --pool 0", "pool"),
    ("--profile extended --pool 4294967296", "pool"),
    ("--profile", "usage"),
    ("--profile base --profile base", "usage"),
    ("--profile Base", "profile"),
    ("--profile= --pool zz", "number"),
    ("--profile extende --blocks 0", "profile"),
    ("--profile extended --seed", "usage"),
    ("--seed 1", "usage"),
    ("--seed 1 --profile base", "usage"),
    ("--seed 1 --profile extende", "usage"),
    ("--seed zz --blocks zz", "usage"),
    ("--profile extended --seed zz", "number"),
    ("--profile extended --seed 0x10000000000000000", "number"),
    ("--profile extended --blocks 0 --seed -1", "usage"),
    (
        "--profile extended --blocks 0 --seed 0x1000000000000000",
        "seed",
    ),
    ("--profile extended-cu", "profile"),
    ("--profile extended-cut-", "profile"),
    ("--profile base-cut", "profile"),
    ("--profile base-cut --seed 1", "usage"),
    ("--profile extended-cut --pool 4294967296", "pool"),
    ("--profile extended-cut --seed 0x1000000000000000", "seed"),
    ("--profile extended-512", "profile"),
    ("--profile extended-512E", "profile"),
    ("--profile base-512e --seed 1", "usage"),
    ("--profile extended-512e --pool 4294967296", "pool"),
    ("--profile extended-512e --seed 0x1000000000000000", "seed"),
    ("--show-disk", "usage"),
    ("--show-disk FILE --show-disk FILE", "usage"),
    ("--show-disk FILE --disk FILE", "usage"),
    ("--blocks zz --show-disk FILE", "usage"),
];

/// The words after the program's name, and the file whose disk is shown.
const SHOWN: [(&str, Option<&str>); 4] = [
    ("--disk FILE --script SCRIPT", None),
    ("--show-disk FILE", Some("FILE")),
    ("--show-disk=--disk", Some("--disk")),
    ("--show-disk=", Some("")),
];

/// The words after the program's name, and the disk's serial number and local identifier.
const NAMED: [(&str, &[u8; 8], u64); 9] = [
    ("", b"00000001", 1),
    ("--profile extended", b"00000001", 1),
    ("--profile extended --seed 0", b"00000000", 0),
    (
        "--seed=0x123456789ABCDEF --profile extended",
        b"89abcdef",
        0x0123_4567_89AB_CDEF,
    ),
    (
        "--profile extended --seed 1152921504606846975",
        b"ffffffff",
        (1 << 60) - 1,
    ),
    ("--profile extended-cut", b"00000001", 1),
    ("--seed 0x12 --profile extended-cut", b"00000012", 0x12),
    ("--profile extended-512e", b"00000001", 1),
    ("--seed 0x13 --profile extended-512e", b"00000013", 0x13),
];

/// The words after the program's name, whether the disk takes less data-out than a command needs, and its
/// physical blocks.
const REPORTING: [(&str, bool, PhysicalBlock); 7] = [
    ("", false, PhysicalBlock::Of512),
    ("--profile base", false, PhysicalBlock::Of512),
    ("--profile extended", false, PhysicalBlock::Of512),
    ("--profile extended-cut", true, PhysicalBlock::Of512),
    (
        "--seed 2 --profile=extended-cut",
        true,
        PhysicalBlock::Of512,
    ),
    ("--profile extended-512e", false, PhysicalBlock::Of4096),
    (
        "--seed 2 --profile=extended-512e",
        false,
        PhysicalBlock::Of4096,
    ),
];

/// A command line: the program's name, and words with blanks between them.
fn words(alloc: Global, line: &str) -> Result<Vec<String>, AllocError> {
    let mut words = Vec::new(alloc);
    words.push(String::from_str(alloc, "sgrun")?)?;
    for word in line.split_whitespace() {
        words.push(String::from_str(alloc, word)?)?;
    }
    Ok(words)
}

/// The new disk that the words of a command line ask for.
fn disk_of<'a>(alloc: Global, words: &'a [String]) -> Result<Config, Stop<'a>> {
    Arguments::parse(alloc, words)?.disk.config()
}

#[test]
fn words_ask_for_a_disk_and_a_script(rt: HostRuntime) -> Result<(), Fail> {
    for (line, blocks, pool, profile, script) in ASKED {
        let words = words(rt.alloc(), line)?;
        let Ok(arguments) = Arguments::parse(rt.alloc(), words.as_slice()) else {
            return Err(Fail::from(line));
        };
        let Ok(disk) = arguments.disk.config() else {
            return Err(Fail::from(line));
        };
        assert_eq!(rt; disk.blocks(), blocks);
        assert_eq!(rt; disk.pool(), pool);
        assert_eq!(rt; disk.identity().profile(), profile);
        assert_eq!(rt; arguments.script, script);
    }
    Ok(())
}

#[test]
fn a_seed_names_the_disk(rt: HostRuntime) -> Result<(), Fail> {
    for (line, serial, local) in NAMED {
        let words = words(rt.alloc(), line)?;
        let Ok(disk) = disk_of(rt.alloc(), words.as_slice()) else {
            return Err(Fail::from(line));
        };
        let identity = disk.identity();
        assert!(rt; identity.serial() == serial && identity.local() == local);
    }
    Ok(())
}

#[test]
fn a_profile_says_what_data_out_is_taken_and_which_blocks_are_reported(
    rt: HostRuntime,
) -> Result<(), Fail> {
    for (line, takes, physical_block) in REPORTING {
        let words = words(rt.alloc(), line)?;
        let Ok(disk) = disk_of(rt.alloc(), words.as_slice()) else {
            return Err(Fail::from(line));
        };
        assert_eq!(rt; disk.identity().takes_short_data_out(), takes);
        assert_eq!(rt; disk.identity().physical_block(), physical_block);
    }
    Ok(())
}

#[test]
fn words_ask_for_what_a_file_has(rt: HostRuntime) -> Result<(), Fail> {
    for (line, shown) in SHOWN {
        let words = words(rt.alloc(), line)?;
        let Ok(arguments) = Arguments::parse(rt.alloc(), words.as_slice()) else {
            return Err(Fail::from(line));
        };
        assert_eq!(rt; arguments.shown, shown);
    }
    Ok(())
}

#[test]
fn words_are_refused(rt: HostRuntime) -> Result<(), Fail> {
    for (line, message) in REFUSED {
        let words = words(rt.alloc(), line)?;
        let Err(stop) = disk_of(rt.alloc(), words.as_slice()) else {
            return Err(Fail::from(line));
        };
        assert_eq!(rt; stop.message(), (message, ""));
    }
    Ok(())
}
