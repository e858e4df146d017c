// The parameter lists of PERSISTENT RESERVE OUT, read, and the common one written.
ghost use Rattle.std.specs.Prelude.{◌≡◌, ◌+◌, ◌<◌, ◌≤◌, ◌^◌, [], false, length, drop, if◌then◌else◌};
ghost use Rattle.sg_wire.specs.OutList.{has_transport_ids, has_whole_ids, has_whole_move, list_length};
ghost use Rattle.sg_wire.specs.OutList.{list_of, move_list, out_list, transport_ids_at};
ghost use Rattle.sg_wire.specs.OutListBytes.{flag_byte, list_bytes, out_list_bytes};
ghost use Rattle.sg_wire.specs.TransportId.{named_initiators};

use crate::command::OutAction;
use crate::initiator::Initiator;
use crate::transport_ids::TransportIds;
use byteorder::{BigEndian, ByteOrder};

/// The parameter list of PERSISTENT RESERVE OUT (SPC-4, 6.16.3), or of REGISTER AND MOVE (SPC-4, 6.16.4).
#[derive(Drop)]
pub struct OutList<'a> {
    /// RESERVATION KEY: the key that the initiator is registered under.
    pub reservation_key: u64,
    /// SERVICE ACTION RESERVATION KEY: the key to register, or to preempt.
    pub service_action_key: u64,
    /// SPEC_I_PT: other initiators are to be registered too.
    pub spec_i_pt: bool,
    /// ALL_TG_PT: the registration is for every target port.
    pub all_tg_pt: bool,
    /// APTPL: registrations and reservation are to be kept through a power loss.
    pub aptpl: bool,
    /// UNREG of REGISTER AND MOVE: the initiator's own registration is to be removed.
    pub unreg: bool,
    /// RELATIVE TARGET PORT IDENTIFIER of REGISTER AND MOVE, and otherwise 0.
    pub port: u16,
    /// The TransportIDs of the other initiators that are to be registered: with SPEC_I_PT, or of
    /// REGISTER AND MOVE. Otherwise there are none.
    pub others: TransportIds<'a>,
}

// The bits of the byte of the flags.
const SPEC_I_PT: u8 = 0x08;

const ALL_TG_PT: u8 = 0x04;

const APTPL: u8 = 0x01;

const UNREG: u8 = 0x02;

impl<'a> OutList<'a> {
    /// The length of the fields of a list, in bytes. With SPEC_I_PT more follows.
    pub const LENGTH: usize = 24;

    /// The first byte of SERVICE ACTION RESERVATION KEY.
    pub const SERVICE_ACTION_KEY_AT: usize = 8;

    /// The byte of the flags.
    pub const FLAGS_AT: usize = 20;

    /// With SPEC_I_PT the first byte of TRANSPORTID PARAMETER DATA LENGTH.
    pub const TRANSPORT_IDS_LENGTH_AT: usize = 24;

    /// With SPEC_I_PT the first byte of the TransportIDs.
    pub const TRANSPORT_IDS_AT: usize = 28;

    /// The byte of UNREG and APTPL of REGISTER AND MOVE.
    pub const MOVE_FLAGS_AT: usize = 17;

    /// The first byte of RELATIVE TARGET PORT IDENTIFIER.
    pub const PORT_AT: usize = 18;

    /// The first byte of TRANSPORTID PARAMETER DATA LENGTH of REGISTER AND MOVE.
    pub const MOVED_TO_LENGTH_AT: usize = 20;

    /// The first byte of the TransportID of REGISTER AND MOVE.
    pub const MOVED_TO_AT: usize = 24;

    /// Returns `true` if a list has SPEC_I_PT, so that TransportIDs follow the fields.
    pub fn has_transport_ids(bytes: &[u8]) -> bool
        requires { list_length ≤ length bytes.now }
        ensures { result ≡ has_transport_ids bytes.now }
    {
        bytes[OutList::FLAGS_AT] & SPEC_I_PT != 0
    }

    /// Returns `true` if TRANSPORTID PARAMETER DATA LENGTH counts the bytes after it, and there are no
    /// more TransportIDs than initiators.
    pub fn has_whole_ids(bytes: &[u8]) -> bool
        ensures { result ≡ has_whole_ids bytes.now }
    {
        if bytes.len() < OutList::TRANSPORT_IDS_AT {
            return false;
        }
        let behind = bytes.len() - OutList::TRANSPORT_IDS_AT;
        let counted = BigEndian::read_u32(&bytes[OutList::TRANSPORT_IDS_LENGTH_AT..]);
        counted as usize == behind && behind <= TransportIds::LENGTH * Initiator::COUNT
    }

    /// Returns `true` if TRANSPORTID PARAMETER DATA LENGTH of a REGISTER AND MOVE counts the bytes after
    /// it.
    pub fn has_whole_move(bytes: &[u8]) -> bool
        ensures { result ≡ has_whole_move bytes.now }
    {
        if bytes.len() < OutList::MOVED_TO_AT {
            return false;
        }
        let counted = BigEndian::read_u32(&bytes[OutList::MOVED_TO_LENGTH_AT..]);
        counted as usize == bytes.len() - OutList::MOVED_TO_AT
    }

    /// Decodes the list of a service action. Bytes that have no field are ignored, and so is TRANSPORTID
    /// PARAMETER DATA LENGTH.
    pub fn read(action: OutAction, bytes: &'a [u8]) -> OutList<'a>
        requires { list_length ≤ length bytes.now }
        ensures { result ≡ list_of action bytes.now }
    {
        match action {
            OutAction::RegisterAndMove => OutList::read_move(bytes),
            _ => OutList::read_common(bytes),
        }
    }

    fn read_common(bytes: &'a [u8]) -> OutList<'a>
        requires { list_length ≤ length bytes.now }
        ensures { result ≡ out_list bytes.now }
    {
        let flags = bytes[OutList::FLAGS_AT];
        let spec_i_pt = OutList::has_transport_ids(bytes);
        OutList {
            reservation_key: BigEndian::read_u64(bytes),
            service_action_key: BigEndian::read_u64(&bytes[OutList::SERVICE_ACTION_KEY_AT..]),
            spec_i_pt,
            all_tg_pt: flags & ALL_TG_PT != 0,
            aptpl: flags & APTPL != 0,
            unreg: false,
            port: 0,
            others: others(spec_i_pt, bytes),
        }
    }

    fn read_move(bytes: &'a [u8]) -> OutList<'a>
        requires { list_length ≤ length bytes.now }
        ensures { result ≡ move_list bytes.now }
    {
        let flags = bytes[OutList::MOVE_FLAGS_AT];
        OutList {
            reservation_key: BigEndian::read_u64(bytes),
            service_action_key: BigEndian::read_u64(&bytes[OutList::SERVICE_ACTION_KEY_AT..]),
            spec_i_pt: false,
            all_tg_pt: false,
            aptpl: flags & APTPL != 0,
            unreg: flags & UNREG != 0,
            port: BigEndian::read_u16(&bytes[OutList::PORT_AT..]),
            others: ids_from(bytes, OutList::MOVED_TO_AT),
        }
    }

    /// The bytes of the fields of a service action other than REGISTER AND MOVE. Bytes that have no field
    /// are zero, and reading the bytes returns the list again, without TransportIDs.
    pub fn write(&self) -> [u8; OutList::LENGTH]
        ensures bytes { result ≡ out_list_bytes self.now }
        ensures reads_back { out_list result ≡ record self.now { unreg = false; port = 0; others = [] } }
    {
        list_bytes(
            self.reservation_key,
            self.service_action_key,
            self.flag_byte(),
        )
    }

    fn flag_byte(&self) -> u8
        ensures { result ≡ flag_byte self.now }
    {
        let spec_i_pt = if self.spec_i_pt { SPEC_I_PT } else { 0 };
        let all_tg_pt = if self.all_tg_pt { ALL_TG_PT } else { 0 };
        let aptpl = if self.aptpl { APTPL } else { 0 };
        spec_i_pt + all_tg_pt + aptpl
    }
}

/// The bytes of the keys and the flags of a list.
fn list_bytes(key: u64, action_key: u64, flags: u8) -> [u8; OutList::LENGTH]
    ensures bytes { result ≡ list_bytes key action_key flags }
    ensures key { key < 2 ^ 64 }
    ensures action_key { action_key < 2 ^ 64 }
{
    let mut bytes = [0; OutList::LENGTH];
    BigEndian::write_u64(&mut bytes, key);
    BigEndian::write_u64(&mut bytes[OutList::SERVICE_ACTION_KEY_AT..], action_key);
    bytes[OutList::FLAGS_AT] = flags;
    bytes
}

/// The TransportIDs behind the fields of a list, which has some only with SPEC_I_PT.
fn others(spec_i_pt: bool, bytes: &[u8]) -> TransportIds<'_>
    ensures { result ≡ if spec_i_pt then named_initiators (drop transport_ids_at bytes.now) else [] }
{
    let start = OutList::TRANSPORT_IDS_AT;
    if spec_i_pt && bytes.len() > start {
        ids_from(bytes, start)
    } else {
        TransportIds::new(&[])
    }
}

/// The TransportIDs of a list from a byte on.
#[tactic(auto, using(crate::proofs::OutListLemmas::rest))]
fn ids_from(bytes: &[u8], start: usize) -> TransportIds<'_>
    requires { start ≤ length bytes.now }
    ensures { result ≡ named_initiators (drop start bytes.now) }
{
    TransportIds::new(&bytes[start..])
}
