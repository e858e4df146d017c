// Sense keys with additional sense codes.
ghost use Rattle.std.specs.Prelude.{◌≡◌, ◌≤◌};
ghost use Rattle.sg_faults.specs.SenseCode.{key_code, key_with_code, sense_code_of};

/// A sense key (SPC-4, 4.5.6).
#[derive(Clone, Copy)]
pub enum SenseKey {
    NoSense = 0x0,
    RecoveredError = 0x1,
    NotReady = 0x2,
    MediumError = 0x3,
    HardwareError = 0x4,
    IllegalRequest = 0x5,
    UnitAttention = 0x6,
    DataProtect = 0x7,
    BlankCheck = 0x8,
    VendorSpecific = 0x9,
    CopyAborted = 0xA,
    AbortedCommand = 0xB,
    VolumeOverflow = 0xD,
    Miscompare = 0xE,
    Completed = 0xF,
}

impl SenseKey {
    /// The key with a code. None for Ch, which is reserved, and above Fh.
    pub fn with_code(code: u8) -> Option<SenseKey>
        ensures { result ≡ key_with_code code }
    {
        Some(match code {
            0x0 => SenseKey::NoSense,
            0x1 => SenseKey::RecoveredError,
            0x2 => SenseKey::NotReady,
            0x3 => SenseKey::MediumError,
            0x4 => SenseKey::HardwareError,
            0x5 => SenseKey::IllegalRequest,
            0x6 => SenseKey::UnitAttention,
            0x7 => SenseKey::DataProtect,
            0x8 => SenseKey::BlankCheck,
            0x9 => SenseKey::VendorSpecific,
            0xA => SenseKey::CopyAborted,
            0xB => SenseKey::AbortedCommand,
            0xD => SenseKey::VolumeOverflow,
            0xE => SenseKey::Miscompare,
            0xF => SenseKey::Completed,
            _ => return None,
        })
    }

    /// Its code.
    pub fn code(self) -> u8
        ensures value { result ≡ key_code self }
        ensures four_bits { result ≤ 15 }
    {
        self as u8
    }
}

/// A sense key with an additional sense code and its qualifier (SPC-4, 4.5).
#[derive(Clone, Copy)]
pub struct SenseCode {
    /// The sense key.
    pub key: SenseKey,
    /// The additional sense code.
    pub asc: u8,
    /// The additional sense code qualifier.
    pub ascq: u8,
}

impl SenseCode {
    /// A code by its numbers. None if no key has the number.
    pub fn new(key: u8, asc: u8, ascq: u8) -> Option<SenseCode>
        ensures { result ≡ sense_code_of key asc ascq }
    {
        let key = SenseKey::with_code(key)?;
        Some(SenseCode { key, asc, ascq })
    }
}
