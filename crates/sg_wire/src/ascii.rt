// The characters that a text may consist of.
ghost use Rattle.std.specs.Prelude.{◌≡◌};
ghost use Rattle.sg_wire.specs.Ascii.{is_printable};

/// Returns `true` if a byte is a printable ASCII character, 20h to 7Eh. The space is one (SPC-4,
/// 4.3.1).
#[inline(always)]
pub fn is_printable(byte: u8) -> bool
    ensures { result ≡ is_printable byte }
{
    matches!(byte, 0x20..=0x7E)
}
