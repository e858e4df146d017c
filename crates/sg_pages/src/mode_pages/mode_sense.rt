// MODE SENSE (SPC-4, 6.13 and 6.14): one list for both commands, whose headers differ.
ghost use Rattle.std.specs.Prelude.{◌≡◌, ◌≤◌, ◌+◌, [], ◌++◌, ◌&&◌, IfOk, IfErr, length, if◌then◌else◌};
ghost use Rattle.std.specs.List.{list_any};
ghost use Rattle.std.specs.Result.{result_map_both};
ghost use Rattle.sg_wire.specs.Cut.{Puts, answer_of};
ghost use Rattle.sg_pages.specs.ModePage.{each_page, has_page, page_data, page_header_length, page_length};
ghost use Rattle.sg_pages.specs.ModeSense.{descriptor_data, fields_of, has_code, has_subpage_code};
ghost use Rattle.sg_pages.specs.ModeSense.{header_after_length, is_requested, length_bytes};
ghost use Rattle.sg_pages.specs.ModeSense.{mode_parameter_list, mode_sense};
ghost use Rattle.sg_pages.specs.DataLengths.{longest_list};
ghost use Rattle.sg_pages.specs.ModeSense.{requested_pages, selected_by};

use super::block_descriptor::{
    LONG_DESCRIPTOR_LENGTH, SHORT_DESCRIPTOR_LENGTH, long_descriptor, short_descriptor,
};
use super::mode_page::{changeable_bits, default_values};
use super::{ModePage, ModePages, ModeSenseFault, ModeSenseRequest, PageValues};
use byteorder::{BigEndian, ByteOrder};
use sg_wire::laws::parts_are_put_in_turn;
use sg_wire::{CdbWidth, Cut, PageCode, PageControl, PageRequest, Profile};

/// The length of the longest mode parameter list that MODE SENSE returns, in bytes.
pub const LONGEST_MODE_LIST: usize = 112;

/// PAGE CODE of all pages.
const ALL_PAGES: u8 = 0x3F;

/// SUBPAGE CODE of pages without a subpage code, and of all subpages.
const NO_SUBPAGE: u8 = 0x00;

const ALL_SUBPAGES: u8 = 0xFF;

const DPOFUA: u8 = 0x10;

const WP: u8 = 0x80;

impl ModePages {
    /// Writes the mode parameter list that is requested: header, block descriptor and pages. Its
    /// length fields count the whole list. On a fault nothing is written.
    ///
    /// # Errors
    /// The first fault of [`ModeSenseFault`], in the order given there.
    pub fn sense(&self, request: &ModeSenseRequest, cut: &mut Cut) -> Result<(), ModeSenseFault>
        ensures fault { result ≡ result_map_both (λ _. tt) (λ fault. fault)
            (mode_sense self.now (fields_of request.now)) }
        ensures list { IfOk (mode_sense self.now (fields_of request.now))
            (λ list. Puts cut.old cut.new list) }
        ensures at_most { IfOk (mode_sense self.now (fields_of request.now))
            (λ list. length list ≤ longest_list) }
        ensures nothing { IfErr (mode_sense self.now (fields_of request.now))
            (λ _. answer_of cut.new ≡ answer_of cut.old) }
    {
        if !has_some_page(request.profile, request.page.page_code) {
            return Err(ModeSenseFault::Page);
        }
        if !requests_some_page(request.profile, &request.page) {
            return Err(ModeSenseFault::Subpage);
        }
        self.write_list(request, cut);
        Ok(())
    }

    fn write_list(&self, request: &ModeSenseRequest, cut: &mut Cut)
        ensures list { Puts cut.old cut.new (mode_parameter_list self.now (fields_of request.now)) }
        ensures at_most { length (mode_parameter_list self.now (fields_of request.now))
            ≤ longest_list }
    {
        parts_are_put_in_turn();
        let values = self.selected_by(request.profile, request.page.page_control);
        let descriptor = descriptor_length(request);
        let following = descriptor + requested_length(values, request.profile, &request.page);
        self.write_header(request, descriptor, following, cut);
        write_descriptor(request, cut);
        write_requested_pages(values, request.profile, &request.page, cut);
    }

    /// Writes the header. The block descriptor and the pages have `following` bytes.
    fn write_header(
        &self,
        request: &ModeSenseRequest,
        descriptor_length: u16,
        following: u16,
        cut: &mut Cut,
    )
        requires descriptor { descriptor_length ≤ 16 }
        requires following { following ≤ 104 }
        ensures { let r = fields_of request.now in
            let header = header_after_length self.now r descriptor_length in
            Puts cut.old cut.new (length_bytes r.width (length header + following) ++ header) }
    {
        let device_specific = if self.write_protected() {
            WP + DPOFUA
        } else {
            DPOFUA
        };
        match request.width {
            CdbWidth::Six => {
                let mode_data_length = (3 + following) as u8;
                cut.put(&[
                    mode_data_length,
                    0,
                    device_specific,
                    descriptor_length as u8,
                ]);
            }
            CdbWidth::Ten => {
                let longlba = u8::from(request.llbaa && !request.page.dbd);
                let mut header = [0, 0, 0, device_specific, longlba, 0, 0, 0];
                BigEndian::write_u16(&mut header, 6 + following);
                BigEndian::write_u16(&mut header[6..], descriptor_length);
                cut.put(&header);
            }
        }
    }

    /// The values that PC selects.
    fn selected_by(&self, profile: Profile, page_control: PageControl) -> &PageValues
        ensures { result.now ≡ selected_by self.now profile page_control }
    {
        match page_control {
            PageControl::Current => &self.current,
            PageControl::Changeable => changeable_bits(profile),
            PageControl::Default => default_values(profile),
            PageControl::Saved => &self.saved,
        }
    }
}

/// Whether a disk of the profile has a page of PAGE CODE.
fn has_some_page(profile: Profile, page_code: PageCode) -> bool
    ensures { result ≡ list_any (λ page. has_page profile page && has_code page_code page) each_page }
{
    ModePage::ALL
        .iter()
        .copied()
        .any(|page| page.is_of(profile) && has_code(page_code, page))
}

/// Whether a page of a disk of the profile is requested.
fn requests_some_page(profile: Profile, asked: &PageRequest) -> bool
    ensures { result ≡ list_any (is_requested profile asked.now) each_page }
{
    ModePage::ALL
        .iter()
        .copied()
        .any(|page| is_requested(profile, asked, page))
}

fn has_code(page_code: PageCode, page: ModePage) -> bool
    ensures { result ≡ has_code page_code page }
{
    let code = page_code.number();
    code == ALL_PAGES || code == page.code()
}

fn has_subpage_code(asked: &PageRequest, page: ModePage) -> bool
    ensures { result ≡ has_subpage_code asked.now page }
{
    let subpage = asked.subpage_code;
    subpage == ALL_SUBPAGES
        || subpage == page.subpage_code()
            && (subpage == NO_SUBPAGE || asked.page_code.number() != ALL_PAGES)
}

fn is_requested(profile: Profile, asked: &PageRequest, page: ModePage) -> bool
    ensures { result ≡ is_requested profile asked.now page }
{
    page.is_of(profile) && has_code(asked.page_code, page) && has_subpage_code(asked, page)
}

/// The length of the block descriptor.
#[tactic(auto, unfolding(crate::specs::BlockDescriptor::block_descriptor))]
fn descriptor_length(request: &ModeSenseRequest) -> u16
    ensures length { result ≡ length (descriptor_data (fields_of request.now)) }
    ensures bound { result ≤ 16 }
{
    match (request.page.dbd, request.llbaa) {
        (true, _) => 0,
        (false, false) => SHORT_DESCRIPTOR_LENGTH as u16,
        (false, true) => LONG_DESCRIPTOR_LENGTH as u16,
    }
}

fn write_descriptor(request: &ModeSenseRequest, cut: &mut Cut)
    ensures { Puts cut.old cut.new (descriptor_data (fields_of request.now)) }
{
    match (request.page.dbd, request.llbaa) {
        (true, _) => cut.put(&[]),
        (false, false) => cut.put(&short_descriptor(request.blocks)),
        (false, true) => cut.put(&long_descriptor(request.blocks)),
    }
}

/// The length of the requested pages together.
#[tactic(auto, unfolding(crate::specs::ModeSense::requested_pages))]
fn requested_length(values: &PageValues, profile: Profile, asked: &PageRequest) -> u16
    ensures length { result ≡ length (requested_pages values.now profile asked.now) }
    ensures bound { result ≤ 88 }
{
    let [first, second, third, fourth, fifth] = ModePage::ALL;
    length_if_requested(first, values, profile, asked)
        + length_if_requested(second, values, profile, asked)
        + length_if_requested(third, values, profile, asked)
        + length_if_requested(fourth, values, profile, asked)
        + length_if_requested(fifth, values, profile, asked)
}

#[tactic(auto, unfolding(crate::specs::ModePage::page_bytes))]
fn length_if_requested(
    page: ModePage,
    values: &PageValues,
    profile: Profile,
    asked: &PageRequest,
) -> u16
    ensures length { result
        ≡ length (if is_requested profile asked.now page then page_data values.now page else []) }
    ensures bound { result ≤ page_header_length page + page_length page }
{
    if is_requested(profile, asked, page) {
        (page.header().len() + values.of(page).len()) as u16
    } else {
        0
    }
}

#[tactic(auto, unfolding(crate::specs::ModeSense::requested_pages))]
fn write_requested_pages(values: &PageValues, profile: Profile, asked: &PageRequest, cut: &mut Cut)
    ensures { Puts cut.old cut.new (requested_pages values.now profile asked.now) }
{
    parts_are_put_in_turn();
    let [first, second, third, fourth, fifth] = ModePage::ALL;
    write_if_requested(first, values, profile, asked, cut);
    write_if_requested(second, values, profile, asked, cut);
    write_if_requested(third, values, profile, asked, cut);
    write_if_requested(fourth, values, profile, asked, cut);
    write_if_requested(fifth, values, profile, asked, cut);
}

#[tactic(auto, unfolding(crate::specs::ModePage::page_bytes))]
fn write_if_requested(
    page: ModePage,
    values: &PageValues,
    profile: Profile,
    asked: &PageRequest,
    cut: &mut Cut,
)
    ensures { Puts cut.old cut.new
        (if is_requested profile asked.now page then page_data values.now page else []) }
{
    parts_are_put_in_turn();
    if is_requested(profile, asked, page) {
        cut.put(page.header());
        cut.put(values.of(page));
    }
}
