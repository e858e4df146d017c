ghost use Rattle.std.specs.Prelude.{◌≡◌, ◌<◌};
ghost use Rattle.sg_wire.specs.Bits.{bits_of};
ghost use Rattle.sg_wire.specs.PageControl.{page_control_code, page_control_of, page_control_with};

/// PC of MODE SENSE, with its code: which values of the pages are requested (SPC-4, 6.13).
#[derive(Clone, Copy, Debug, PartialEq, Eq)]
pub enum PageControl {
    /// The current values.
    Current = 0,
    /// A mask of the bits that MODE SELECT may change.
    Changeable = 1,
    /// The default values.
    Default = 2,
    /// The saved values.
    Saved = 3,
}

impl PageControl {
    /// The values with a code. None if the code is not 0 to 3.
    pub fn with_code(code: u8) -> Option<PageControl>
        ensures { result ≡ page_control_with code }
    {
        Some(match code {
            0 => PageControl::Current,
            1 => PageControl::Changeable,
            2 => PageControl::Default,
            3 => PageControl::Saved,
            _ => return None,
        })
    }

    /// Their code, 0 to 3.
    pub fn code(self) -> u8
        ensures value { result ≡ page_control_code self }
        ensures bound { result < 4 }
    {
        self as u8
    }

    /// The values that the high two bits of a byte request.
    pub(super) fn of_byte(byte: u8) -> PageControl
        ensures { result ≡ page_control_of (bits_of byte 7 6) }
    {
        match (byte >> 6) & 0x03 {
            0 => PageControl::Current,
            1 => PageControl::Changeable,
            2 => PageControl::Default,
            _ => PageControl::Saved,
        }
    }
}
