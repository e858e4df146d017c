// Data-out that an option gives, as a hexadecimal word.
ghost use Rattle.std.specs.Prelude.{◌≡◌, ◌≤◌, length};
ghost use Rattle.sg_tools.specs.DataOut.{data_out_of, max_data_out};

use crate::hex_word::read_hex;
use sg_wire::UnmapList;
use std::marker::Model;

/// The length of the longest data-out of a tool, in bytes. It is a list of UNMAP with the most
/// descriptors.
pub const MAX_DATA_OUT: usize = UnmapList::MAXIMUM_LENGTH;

/// The length of a logical block, in bytes.
pub(crate) const BLOCK_LENGTH: usize = 512;

/// At most [`MAX_DATA_OUT`] bytes of data-out.
#[derive(Drop)]
pub struct DataOut {
    buffer: [u8; MAX_DATA_OUT],
    length: usize,
    ghost at_most: { length ≤ max_data_out },
}

impl Model for DataOut {
    ghost use Rattle.std.specs.Prelude.{List, ℕ, take};

    ghost Value = { List ℕ };

    ghost view = { λ d. take d.length d.buffer };
}

impl DataOut {
    /// The bytes of a hexadecimal word. None if it is no such word, or if they are too many.
    pub(crate) fn of_word(word: &[u8]) -> Option<DataOut>
        ensures { result ≡ data_out_of word.now }
    {
        if word.len() > 2 * MAX_DATA_OUT {
            return None;
        }
        let mut buffer = [0; MAX_DATA_OUT];
        let length = read_hex(word, &mut buffer)?;
        Some(DataOut { buffer, length })
    }

    /// The bytes.
    pub fn as_slice(&self) -> &[u8]
        ensures bytes { result.now ≡ self.now }
        ensures at_most { length result.now ≤ max_data_out }
    {
        &self.buffer[..self.length]
    }
}
