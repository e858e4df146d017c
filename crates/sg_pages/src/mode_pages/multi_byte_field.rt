// Where a field pointer points if a byte is at fault (SPC-4, 4.5.2.4.2).
ghost use Rattle.std.specs.Prelude.{◌≡◌, ◌≤◌};
ghost use Rattle.sg_pages.specs.MultiByteField.{first_byte_of, has_byte};

/// A field of more than one byte, in a mode page or in a block descriptor.
#[derive(Clone, Copy)]
pub struct MultiByteField {
    /// The number of its first byte in the page or in the descriptor.
    pub first: u8,
    /// The number of its bytes.
    pub size: u8,
}

impl MultiByteField {
    fn has_byte(&self, byte: usize) -> bool
        ensures { result ≡ has_byte self.now byte }
    {
        let first = usize::from(self.first);
        first <= byte && byte < first + usize::from(self.size)
    }
}

/// The first byte of the field that a byte belongs to. A byte of none of these fields is a field of
/// its own.
pub(super) fn first_byte_of(fields: &[MultiByteField], byte: usize) -> usize
    ensures first { result ≡ first_byte_of fields.now byte }
    ensures bound { result ≤ byte }
{
    let mut first = byte;
    for field in fields {
        if field.has_byte(byte) {
            first = first.min(usize::from(field.first));
        }
    }
    first
}
