// MODE SENSE and MODE SELECT (SPC-4, 6).
ghost use Rattle.std.specs.Prelude.{◌≡◌, ◌≤◌, ◌<◌, ◌^◌, [], length, min, false};
ghost use Rattle.sg_pages.specs.DataLengths.{longest_list};
ghost use Rattle.sg_target.specs.Checks.{requested};
ghost use Rattle.sg_target.specs.Demands.{mode_select, mode_sense};
ghost use Rattle.sg_target.specs.Charge.{TakesStep, cost_bounds, step_before_alert};
ghost use Rattle.sg_target.specs.ModeCommands.{attentions_after, required_blocks};
ghost use Rattle.sg_target.specs.ModeCommands.{select_refusal, sense_refusal};
ghost use Rattle.sg_target.specs.State.{IsWithinLimits, profile_of};
ghost use Rattle.sg_wire.specs.Profile.{rules_of};

use crate::config::Config;
use crate::data_out::needed_data_out;
use crate::operation::Operation;
use crate::refusal::{Reason, Refusal};
use crate::reply::Reply;
use crate::target::Target;
use sg_pages::{Changed, LONGEST_MODE_LIST, ModeSelectFault, ModeSenseFault, ModeSenseRequest};
use sg_store::{Counts, Store};
use sg_units::{Raised, UnitAttention};
use sg_wire::laws::{answers_are_in_their_buffers, parts_are_put_in_turn};
use sg_wire::{CdbWidth, Cut, Initiator, ModeSelect6, ModeSelect10, ModeSense6, ModeSense10};
use std::marker::Model;

// Where fields are in the CDBs: PF of MODE SELECT, and PAGE CODE and SUBPAGE CODE of MODE SENSE.
const PAGE_FORMAT_BYTE: u16 = 1;

const PAGE_CODE_BYTE: u16 = 2;

const SUBPAGE_CODE_BYTE: u16 = 3;

// ---- MODE SENSE

/// The mode parameter list that a MODE SENSE requests.
#[derive(Drop)]
pub struct RequestedModes {
    request: ModeSenseRequest,
}

impl Model for RequestedModes {
    ghost use Rattle.sg_pages.specs.ModeSense.{RequestFields, fields_of};

    ghost Value = { RequestFields };

    ghost view = { λ r. fields_of r.request };
}

/// MODE SENSE(6). Its CDB has no LLBAA.
pub(crate) fn check_mode_sense_6(config: &Config, fields: ModeSense6) -> Operation<'static>
    ensures { result
        ≡ mode_sense config.now CdbWidth.Six false fields.page fields.allocation_length }
{
    let request = ModeSenseRequest {
        width: CdbWidth::Six,
        llbaa: false,
        page: fields.page,
        blocks: config.blocks(),
        profile: config.identity().profile(),
    };
    Operation::ReturnModes {
        request: RequestedModes { request },
        allocation_length: u16::from(fields.allocation_length),
    }
}

/// MODE SENSE(10).
pub(crate) fn check_mode_sense_10(config: &Config, fields: ModeSense10) -> Operation<'static>
    ensures { result
        ≡ mode_sense config.now CdbWidth.Ten fields.llbaa fields.page fields.allocation_length }
{
    let request = ModeSenseRequest {
        width: CdbWidth::Ten,
        llbaa: fields.llbaa,
        page: fields.page,
        blocks: config.blocks(),
        profile: config.identity().profile(),
    };
    Operation::ReturnModes {
        request: RequestedModes { request },
        allocation_length: fields.allocation_length,
    }
}

impl From<ModeSenseFault> for Refusal {
    ghost use Rattle.sg_target.specs.ModeCommands.{sense_refusal};

    ghost from_gives = { λ fault refusal. refusal ≡ sense_refusal fault };

    fn from(fault: ModeSenseFault) -> Refusal {
        let byte = match fault {
            ModeSenseFault::Page => PAGE_CODE_BYTE,
            ModeSenseFault::Subpage => SUBPAGE_CODE_BYTE,
        };
        Refusal::CheckCondition(Reason::InvalidFieldInCdb { byte })
    }
}

impl<S: Store> Target<S> {
    /// Returns a mode parameter list, unless the disk does not have the page.
    #[tactic(auto, using(crate::proofs::Space::room), unfolding(crate::specs::ModeCommands::mode_parameters))]
    pub(crate) fn return_modes(
        &mut self,
        initiator: Initiator,
        requested: &RequestedModes,
        allocation_length: u16,
        buf: &mut [u8],
    ) -> Reply
        requires limits { IsWithinLimits self.old.state }
        requires room { min longest_list allocation_length ≤ length buf.old }
        ensures { let operation = Operation.ReturnModes requested.now allocation_length in
            TakesStep (cost_bounds S.price S.least) (step_before_alert self.old.state initiator operation)
            [] self.old self.new result buf.old buf.new }
    {
        let limit = LONGEST_MODE_LIST.min(usize::from(allocation_length));
        answers_are_in_their_buffers();
        parts_are_put_in_turn();
        let mut cut = Cut::new(buf, limit);
        match self.modes.sense(&requested.request, &mut cut) {
            Ok(()) => Reply::without_blocks(cut.written()),
            Err(fault) => self.refuse(initiator, Refusal::from(fault), Counts::default()),
        }
    }
}

// ---- MODE SELECT

/// The parameter list of a MODE SELECT, in data-out. Its length is a field of two bytes at most.
#[derive(Drop)]
pub struct ModeList<'a> {
    bytes: &'a [u8],
}

impl<'a> Model for ModeList<'a> {
    ghost use Rattle.std.specs.Prelude.{List, ℕ, ◌<◌, ◌^◌, length};

    ghost Value = { List ℕ };

    ghost view = { λ l. l.bytes.now };

    ghost invariant = { λ l. length l.bytes.now < 2 ^ 16 };
}

/// MODE SELECT(6).
pub(crate) fn check_mode_select_6<'a>(
    config: &Config,
    fields: ModeSelect6,
    data_out: &'a [u8],
) -> Result<Operation<'a>, Refusal>
    ensures { result ≡ requested (mode_select config.now CdbWidth.Six fields.pf fields.sp
        fields.list_length data_out.now) data_out.now }
{
    let list_length = u16::from(fields.list_length);
    check_mode_select(
        config,
        CdbWidth::Six,
        fields.pf,
        fields.sp,
        list_length,
        data_out,
    )
}

/// MODE SELECT(10).
pub(crate) fn check_mode_select_10<'a>(
    config: &Config,
    fields: ModeSelect10,
    data_out: &'a [u8],
) -> Result<Operation<'a>, Refusal>
    ensures { result ≡ requested (mode_select config.now CdbWidth.Ten fields.pf fields.sp
        fields.list_length data_out.now) data_out.now }
{
    check_mode_select(
        config,
        CdbWidth::Ten,
        fields.pf,
        fields.sp,
        fields.list_length,
        data_out,
    )
}

fn check_mode_select<'a>(
    config: &Config,
    width: CdbWidth,
    pf: bool,
    sp: bool,
    list_length: u16,
    data_out: &'a [u8],
) -> Result<Operation<'a>, Refusal>
    ensures { result
        ≡ requested (mode_select config.now width pf sp list_length data_out.now) data_out.now }
{
    if !pf && !(config.rules().select_of_nothing_ignores_page_format && list_length == 0) {
        return Err(Refusal::CheckCondition(Reason::InvalidFieldInCdb {
            byte: PAGE_FORMAT_BYTE,
        }));
    }
    let bytes = needed_data_out(config, data_out, usize::from(list_length))?;
    Ok(Operation::ChangeModes {
        width,
        sp,
        list: ModeList { bytes },
    })
}

impl<S: Store> Target<S> {
    /// Sets the mode pages to a parameter list's pages, unless something is wrong with the list.
    // Not inlined: the stack frame of every command would have room for the pages.
    #[inline(never)]
    #[tactic(auto, using(crate::proofs::Space::room), unfolding(crate::specs::ModeCommands::selected_modes))]
    pub(crate) fn change_modes(
        &mut self,
        initiator: Initiator,
        width: CdbWidth,
        sp: bool,
        list: &ModeList<'_>,
        buf: &[u8],
    ) -> Reply
        requires limits { IsWithinLimits self.old.state }
        ensures { let operation = Operation.ChangeModes width sp list.now in
            TakesStep (cost_bounds S.price S.least) (step_before_alert self.old.state initiator operation)
            [] self.old self.new result buf.now buf.now }
    {
        let blocks = self.required_blocks();
        let profile = self.config.identity().profile();
        let reason = match self.modes.select(list.bytes, width, sp, blocks, profile) {
            Ok(Changed(changed)) => {
                self.report_changed_modes(initiator, changed);
                return Reply::without_blocks(0);
            }
            Err(ModeSelectFault::Length) => Reason::ParameterListLengthError,
            Err(ModeSelectFault::Field(byte)) => {
                Reason::InvalidFieldInParameterList { byte: byte as u16 }
            }
        };
        self.refuse(
            initiator,
            Refusal::CheckCondition(reason),
            Counts::default(),
        )
    }

    /// The number of blocks that a block descriptor has to have, if it is not ignored.
    fn required_blocks(&self) -> Option<u64>
        ensures { result ≡ required_blocks (rules_of (profile_of self.now.state))
            self.now.state.disk.capacity }
    {
        if self.config.rules().ignores_number_of_blocks {
            return None;
        }
        Some(self.config.blocks())
    }

    /// If a current value has changed, the other initiators get a unit attention.
    fn report_changed_modes(&mut self, initiator: Initiator, changed: bool)
        ensures state { self.new.state ≡ record self.old.state {
          attentions = attentions_after self.old.state.attentions initiator changed;
        } }
        ensures faults { self.new.faults ≡ self.old.faults }
        ensures meter { self.new.meter ≡ self.old.meter }
    {
        if changed {
            let others = Raised::for_others(initiator, UnitAttention::ModeParametersChanged);
            self.attentions.raise_for_each(&others);
        }
    }
}
