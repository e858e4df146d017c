// Which commands a disk has, and its limits that depend on that.
ghost use Rattle.std.specs.Prelude.{◌≡◌, ◌≤◌};
ghost use Rattle.sg_wire.specs.Profile.{is_in, limits_of, maximum_transfer_length, rules_of};

use crate::initiator::Initiator;

/// A profile: which commands a disk has (docs/PROFILE.md). It is chosen when the disk is made.
#[derive(Clone, Copy, Debug, PartialEq, Eq)]
pub enum Profile {
    /// The commands that every disk has.
    Base,
    /// The commands of the base profile, and more.
    Extended,
}

/// The most blocks that a READ or a WRITE moves, on a disk of any profile.
pub const MAXIMUM_TRANSFER_LENGTH: u32 = 2048;

/// The most blocks that a WRITE SAME writes, on a disk of the base profile.
pub const MAXIMUM_WRITE_SAME_LENGTH: u32 = 65_536;

/// The limits of a disk that depend on its profile.
#[derive(Clone, Copy)]
pub struct Limits {
    /// The most blocks that a READ or a WRITE moves. The page Block Limits reports it (SBC-3, vital
    /// product data parameters).
    pub transfer_length: u32,
    /// The most blocks that a WRITE SAME writes. The page Block Limits reports it, too.
    pub write_same_length: u32,
    /// The most blocks that a COMPARE AND WRITE compares. The page Block Limits reports it, too.
    pub compare_and_write_length: u8,
    /// The most blocks that a WRITE ATOMIC writes. The page Block Limits reports it, too.
    pub atomic_transfer_length: u32,
    /// The most blocks that the pool can have. So at most so many addresses can be mapped or
    /// anchored at once (SBC-3, 4.7).
    pub pool: u32,
    /// The number of initiators that send commands. They are numbered from 0 on.
    pub initiators: u8,
}

const BASE_LIMITS: Limits = Limits {
    transfer_length: 256,
    write_same_length: MAXIMUM_WRITE_SAME_LENGTH,
    compare_and_write_length: 0,
    atomic_transfer_length: 0,
    pool: 65_536,
    initiators: 8,
};

const EXTENDED_LIMITS: Limits = Limits {
    transfer_length: MAXIMUM_TRANSFER_LENGTH,
    write_same_length: u16::MAX as u32,
    compare_and_write_length: u8::MAX,
    atomic_transfer_length: MAXIMUM_TRANSFER_LENGTH,
    pool: u32::MAX,
    initiators: Initiator::COUNT as u8,
};

/// What a disk does otherwise in one profile than in another. The extended profile follows the
/// standards.
#[derive(Clone, Copy)]
pub struct Rules {
    /// A count of 0 in SYNCHRONIZE CACHE reaches to the last block (SBC-3, 5.26).
    pub zero_reaches_last: bool,
    /// UNMAP ignores a descriptor of no block, wherever it points (SBC-3, 5.28.2).
    pub unmap_ignores_empty_extents: bool,
    /// MODE SELECT ignores NUMBER OF LOGICAL BLOCKS, because no list changes the capacity (SBC-3,
    /// 6.4.2).
    pub ignores_number_of_blocks: bool,
    /// MODE SELECT of no list is GOOD with any PF (SPC-4, 6.11).
    pub select_of_nothing_ignores_page_format: bool,
    /// Data-out that is too short is an ILLEGAL REQUEST, and no DATA PHASE ERROR (SPC-4, sense keys).
    pub short_data_out_is_illegal: bool,
    /// WRITE SAME takes data-out of one block, or with NDOB none, and no other length (SBC-3, 5.43).
    pub write_same_takes_exact_length: bool,
    /// SWP refuses a command only if it writes a block, with WRITE PROTECTED (SBC-3, 4.12).
    pub protects_only_writes: bool,
    /// A unit attention comes before a reservation conflict only if its additional sense code is 29h,
    /// the code of a reset (SAM-5, 5.3.3).
    pub only_resets_outrank_conflicts: bool,
    /// PREEMPT of key 0 is an error of the parameter list, unless an all registrants reservation is
    /// held (SPC-4, 5.13.11.4).
    pub preempt_needs_a_key: bool,
    /// A RELEASE of a registrant that holds nothing is GOOD with any TYPE (SPC-4, 5.13.11.2).
    pub release_of_nothing_ignores_type: bool,
    /// A field pointer into the list of a MODE SELECT goes to the first byte of a field of several
    /// bytes (SPC-4, 4.5.2.4.2).
    pub points_at_fields: bool,
    /// REGISTER can name other initiators by SPEC_I_PT. A registration can be for every target port by
    /// ALL_TG_PT (SPC-4, 6.16.3).
    pub specifies_ports: bool,
    /// ALLOW COMMANDS of REPORT CAPABILITIES (SPC-4, 6.15.4).
    pub allow_commands: u8,
    /// There is room for a registration of each initiator, and not for six only (SPC-4, 5.13, registering).
    pub has_room_for_all_registrations: bool,
}

const BASE_RULES: Rules = Rules {
    zero_reaches_last: false,
    unmap_ignores_empty_extents: false,
    ignores_number_of_blocks: false,
    select_of_nothing_ignores_page_format: false,
    short_data_out_is_illegal: false,
    write_same_takes_exact_length: false,
    protects_only_writes: false,
    only_resets_outrank_conflicts: false,
    preempt_needs_a_key: false,
    release_of_nothing_ignores_type: false,
    points_at_fields: false,
    specifies_ports: false,
    allow_commands: 0,
    has_room_for_all_registrations: false,
};

const EXTENDED_RULES: Rules = Rules {
    zero_reaches_last: true,
    unmap_ignores_empty_extents: true,
    ignores_number_of_blocks: true,
    select_of_nothing_ignores_page_format: true,
    short_data_out_is_illegal: true,
    write_same_takes_exact_length: true,
    protects_only_writes: true,
    only_resets_outrank_conflicts: true,
    preempt_needs_a_key: true,
    release_of_nothing_ignores_type: true,
    points_at_fields: true,
    specifies_ports: true,
    allow_commands: 3,
    has_room_for_all_registrations: true,
};

impl Profile {
    /// The limits of a disk of this profile.
    pub fn limits(self) -> Limits
        ensures value { result ≡ limits_of self }
        ensures at_most { result.transfer_length ≤ maximum_transfer_length }
    {
        match self {
            Profile::Base => BASE_LIMITS,
            Profile::Extended => EXTENDED_LIMITS,
        }
    }

    /// The rules of a disk of this profile.
    pub fn rules(self) -> Rules
        ensures { result ≡ rules_of self }
    {
        match self {
            Profile::Base => BASE_RULES,
            Profile::Extended => EXTENDED_RULES,
        }
    }

    /// Returns `true` if a disk of this profile has what belongs to a profile.
    pub fn has(self, belongs: Profile) -> bool
        ensures { result ≡ is_in belongs self }
    {
        match belongs {
            Profile::Base => true,
            Profile::Extended => matches!(self, Profile::Extended),
        }
    }
}
