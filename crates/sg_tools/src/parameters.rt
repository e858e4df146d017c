// The data-out that tools send: parameter lists as `sg_wire` writes them, and what options give.
ghost use Rattle.std.specs.Prelude.{◌≡◌, ◌≤◌, length};
ghost use Rattle.sg_wire.specs.Cut.{Puts};
ghost use Rattle.sg_wire.specs.FirstBytes.{overwritten};
ghost use Rattle.sg_tools.specs.ParameterLists.{max_data_out, parameter_list};

use crate::data_out::{BLOCK_LENGTH, DataOut, MAX_DATA_OUT};
use sg_wire::laws::answers_are_in_their_buffers;
use sg_wire::{Cut, OutList, UnmapList};

/// The data-out that a tool sends.
#[derive(Drop)]
pub enum Parameters {
    /// No byte.
    Nothing,
    /// The parameter list of UNMAP.
    Unmap(UnmapList),
    /// The parameter list of PERSISTENT RESERVE OUT.
    ReserveOut(OutList<'static>),
    /// Bytes that an option gives.
    Bytes(DataOut),
    /// A logical block, each of whose bytes is this one.
    Block(u8),
}

impl Parameters {
    /// Writes the parameter list and returns its length in bytes.
    pub(crate) fn write(&self, data_out: &mut [u8]) -> usize
        requires { max_data_out ≤ length data_out.old }
        ensures list { data_out.new ≡ overwritten (parameter_list self.now) data_out.old }
        ensures length { result ≡ length (parameter_list self.now) }
        ensures at_most { result ≤ max_data_out }
    {
        answers_are_in_their_buffers();
        let mut cut = Cut::new(data_out, MAX_DATA_OUT);
        self.put(&mut cut);
        cut.written()
    }

    fn put(&self, cut: &mut Cut)
        ensures list { Puts cut.old cut.new (parameter_list self.now) }
        ensures length { length (parameter_list self.now) ≤ max_data_out }
    {
        match self {
            Parameters::Nothing => cut.put(&[]),
            Parameters::Unmap(list) => list.write(cut),
            Parameters::ReserveOut(list) => cut.put(&list.write()),
            Parameters::Bytes(bytes) => cut.put(bytes.as_slice()),
            Parameters::Block(byte) => cut.put(&[*byte; BLOCK_LENGTH]),
        }
    }
}
