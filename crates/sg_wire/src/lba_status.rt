// The bytes of GET LBA STATUS parameter data: a header and descriptors (SBC-3, 5.4.2).
ghost use Rattle.std.specs.Prelude.{◌≡◌, ◌<◌, ◌^◌};
ghost use Rattle.sg_wire.specs.LbaStatus.{code_of, descriptor_bytes, status_data_length};
ghost use Rattle.sg_wire.specs.LbaStatus.{status_header};

use byteorder::{BigEndian, ByteOrder};

/// The length of the header of GET LBA STATUS parameter data, in bytes.
pub const STATUS_HEADER_LENGTH: usize = 8;

/// The length of an LBA status descriptor, in bytes.
pub const STATUS_DESCRIPTOR_LENGTH: usize = 16;

/// PROVISIONING STATUS: whether addresses are mapped or anchored (SBC-3, 5.4.2.2).
#[derive(Clone, Copy, Default)]
pub enum ProvisioningStatus {
    /// Mapped to a block of the pool.
    #[default]
    Mapped = 0,
    /// Not mapped.
    Deallocated = 1,
    /// Not mapped, but with a block of the pool.
    Anchored = 2,
}

impl ProvisioningStatus {
    /// PROVISIONING STATUS.
    fn code(self) -> u8
        ensures { result ≡ code_of self }
    {
        self as u8
    }
}

/// An LBA status descriptor: addresses in a row that have one provisioning status (SBC-3, 5.4.2.2).
#[derive(Clone, Copy, Default)]
pub struct StatusDescriptor {
    /// The first address.
    pub lba: u64,
    /// The number of addresses.
    pub count: u32,
    /// Their provisioning status.
    pub status: ProvisioningStatus,
}

impl StatusDescriptor {
    /// The bytes of the descriptor, big-endian.
    pub fn bytes(&self) -> [u8; STATUS_DESCRIPTOR_LENGTH]
        ensures { result ≡ descriptor_bytes self.now }
    {
        let mut bytes = [0; STATUS_DESCRIPTOR_LENGTH];
        BigEndian::write_u64(&mut bytes, self.lba);
        BigEndian::write_u32(&mut bytes[8..], self.count);
        bytes[12] = self.status.code();
        bytes
    }
}

/// The header of the parameter data of `count` descriptors (SBC-3, 5.4.2), whose length fits its
/// field. A store that finds the descriptors one by one puts it first with a count of 0, and
/// replaces it at the end.
pub fn status_header(count: usize) -> [u8; STATUS_HEADER_LENGTH]
    requires { status_data_length count < 2 ^ 32 }
    ensures { result ≡ status_header count }
{
    let length = STATUS_HEADER_LENGTH - 4 + STATUS_DESCRIPTOR_LENGTH * count;
    let mut bytes = [0; STATUS_HEADER_LENGTH];
    BigEndian::write_u32(&mut bytes, length as u32);
    bytes
}
