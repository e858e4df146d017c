// Data-in that is in no block, and its writing.
ghost use Rattle.std.specs.Prelude.{◌≡◌, ◌≤◌, length, min};
ghost use Rattle.sg_wire.specs.Cut.{Puts};
ghost use Rattle.sg_wire.specs.FirstBytes.{first_bytes, overwritten};
ghost use Rattle.sg_target.specs.DataIn.{data_of, longest_of};
ghost use Rattle.sg_target.specs.MadeReplies.{ReturnsData};
ghost use Rattle.sg_target.specs.State.{resources_of};

use crate::config::Config;
use crate::primary::{InquiryPage, LONGEST_INQUIRY_DATA, LONGEST_SENSE_DATA};
use crate::refusal::pending_sense;
use crate::reply::Reply;
use crate::reservation::write_reserve_in_data;
use crate::target::Target;
use sg_pages::{
    CAPACITY_10_LENGTH, CAPACITY_16_LENGTH, LONGEST_REPORT, MappingResources, Report,
    write_capacity_10, write_capacity_16,
};
use sg_store::Store;
use sg_units::{LONGEST_RESERVE_IN_DATA, Reservations, UnitAttention};
use sg_wire::laws::answers_are_in_their_buffers;
use sg_wire::{Cut, Format, InAction};

/// The data-in of a command that can't be refused any more and goes over no blocks.
#[derive(Clone, Copy)]
pub(crate) enum DataIn {
    /// The sense data of REQUEST SENSE.
    Sense {
        /// Whether the unit is stopped, which is reported without a condition.
        stopped: bool,
        /// The unit attention condition that is reported, if there is one.
        condition: Option<UnitAttention>,
        format: Format,
    },
    Inquiry(InquiryPage),
    /// The data that a service action of PERSISTENT RESERVE IN returns.
    Reservations(InAction),
    /// What the disk reports about itself, and its pool.
    Report(Report, MappingResources),
    Capacity10,
    Capacity16,
}

impl DataIn {
    /// The length of the longest data of its kind, in bytes.
    fn longest(self) -> usize
        ensures { result ≡ longest_of self }
    {
        match self {
            DataIn::Sense { .. } => LONGEST_SENSE_DATA,
            DataIn::Inquiry(_) => LONGEST_INQUIRY_DATA,
            DataIn::Reservations(_) => LONGEST_RESERVE_IN_DATA,
            DataIn::Report(..) => LONGEST_REPORT,
            DataIn::Capacity10 => CAPACITY_10_LENGTH,
            DataIn::Capacity16 => CAPACITY_16_LENGTH,
        }
    }

    /// Writes the data at the beginning of a buffer, at most `allocation_length` bytes of it.
    /// Returns the number of bytes that were written.
    pub(crate) fn write_up_to(
        self,
        allocation_length: usize,
        config: &Config,
        reservations: &Reservations,
        buf: &mut [u8],
    ) -> usize
        requires { min (longest_of self) allocation_length ≤ length buf.old }
        ensures length { let full = data_of config.now.identity config.now.blocks reservations.now self in
            result ≡ length (first_bytes allocation_length full) }
        ensures data_in { let full = data_of config.now.identity config.now.blocks reservations.now self in
            buf.new ≡ overwritten (first_bytes allocation_length full) buf.old }
    {
        let limit = self.longest().min(allocation_length);
        answers_are_in_their_buffers();
        let mut cut = Cut::new(buf, limit);
        self.write(config, reservations, &mut cut);
        cut.written()
    }

    #[tactic(auto, using(crate::proofs::LengthLemmas::data_lengths))]
    fn write(self, config: &Config, reservations: &Reservations, cut: &mut Cut)
        ensures data { Puts cut.old cut.new
            (data_of config.now.identity config.now.blocks reservations.now self) }
        ensures at_most { length (data_of config.now.identity config.now.blocks reservations.now self)
            ≤ longest_of self }
    {
        match self {
            DataIn::Sense {
                stopped,
                condition,
                format,
            } => pending_sense(stopped, condition).write(format, cut),
            DataIn::Inquiry(page) => page.write(config.identity(), config.blocks(), cut),
            DataIn::Reservations(action) => {
                write_reserve_in_data(config.rules(), action, reservations, cut)
            }
            DataIn::Report(report, pool) => { report.write(config.identity().profile(), pool, cut) }
            DataIn::Capacity10 => write_capacity_10(config.blocks(), cut),
            DataIn::Capacity16 => {
                write_capacity_16(config.blocks(), config.identity().physical_block(), cut)
            }
        }
    }
}

impl<S: Store> Target<S> {
    /// A report of the disk about itself.
    pub(crate) fn report(&self, report: Report) -> DataIn
        ensures { result ≡ DataIn.Report report (resources_of self.now.state) }
    {
        DataIn::Report(report, self.resources())
    }

    /// Returns data, at most `allocation_length` bytes of it.
    pub(crate) fn return_data(
        &self,
        data_in: DataIn,
        allocation_length: usize,
        buf: &mut [u8],
    ) -> Reply
        requires { min (longest_of data_in) allocation_length ≤ length buf.old }
        ensures { let state = self.now.state in
            let full = data_of state.identity state.disk.capacity state.reservations data_in in
            ReturnsData (first_bytes allocation_length full) result buf.old buf.new }
    {
        let config = &self.config;
        let written = data_in.write_up_to(allocation_length, config, &self.reservations, buf);
        Reply::without_blocks(written)
    }
}
