// The smallest and the largest disk and pool, and the sizes just past them, in each profile.
use sg_pages::Identity;
use sg_target::{Config, ConfigFault};
use sg_wire::Profile;

const BLOCKS: Option<ConfigFault> = Some(ConfigFault::Blocks);

const POOL: Option<ConfigFault> = Some(ConfigFault::Pool);

#[test]
fn a_configuration_has_its_limits(rt: HostRuntime) {
    for (blocks, pool, base, extended) in [
        (1, 1, None, None),
        (4_096, 4, None, None),
        (1 << 40, 65_536, None, None),
        (0, 4, BLOCKS, BLOCKS),
        ((1 << 40) + 1, 4, BLOCKS, BLOCKS),
        (u64::MAX, 4, BLOCKS, BLOCKS),
        (1, 0, POOL, POOL),
        (1, 65_537, POOL, None),
        (1, u32::MAX, POOL, None),
        (0, 0, BLOCKS, BLOCKS),
        ((1 << 40) + 1, 65_537, BLOCKS, BLOCKS),
    ] {
        let identity = Identity::standard();
        assert_eq!(rt; Config::new(blocks, pool, identity).err(), base);
        let identity = identity.with_profile(Profile::Extended);
        assert_eq!(rt; Config::new(blocks, pool, identity).err(), extended);
    }
}
