// The largest pool of each store.
use sg_block_map::BlockMap;
use sg_extent_map::ExtentMap;
use sg_plain_map::PlainMap;
use sg_store::Store;
use std::test::Fail;

/// A pool with links has at most 65,536 slots. A pool without links can have more.
#[test]
fn a_pool_is_no_larger_than_its_links_reach(rt: HostRuntime) -> Result<(), Fail> {
    assert!(rt; BlockMap::make(rt.alloc(), 1, 65_536).is_ok());
    assert!(rt; BlockMap::make(rt.alloc(), 1, 65_537).is_err());
    assert!(rt; PlainMap::make(rt.alloc(), 1, 65_536).is_ok());
    assert!(rt; PlainMap::make(rt.alloc(), 1, 65_537).is_err());
    assert!(rt; ExtentMap::make(rt.alloc(), 1, 65_537).is_ok());
    Ok(())
}
