// MODE SELECT (SPC-4, 6.11 and 6.12). A list is read to its end before a value changes.
ghost use Rattle.std.specs.Prelude.{◌≡◌, ◌≤◌, ◌<◌, ◌+◌, ◌++◌, length, not};
ghost use Rattle.std.specs.Prelude.{IsTrue, IfErr, IfOk, OnOk};
ghost use Rattle.std.specs.List.{flat_map};
ghost use Rattle.std.specs.Result.{result_map_both, result_unwrap_or};
ghost use Rattle.sg_pages.specs.ModePage.{first_byte, page_bytes, page_header_length, page_length};
ghost use Rattle.sg_pages.specs.ModePage.{row_of};
ghost use Rattle.sg_pages.specs.ModeSelect.{changed_by, field_faults, first_fault, mode_select};
ghost use Rattle.sg_pages.specs.ModeLaws.{IsInside};
ghost use Rattle.sg_pages.specs.ModeSelect.{ignored_page_header_bits, page_at, page_faults, pages_from};
ghost use Rattle.sg_pages.specs.ModeSelect.{part_faults, sent_first};
ghost use Rattle.sg_pages.specs.ModeSelect.{selected_values, unless_fault, values_after};
ghost use Rattle.sg_pages.specs.SentValues.{with_sent};

use super::list_check::{
    check, check_descriptor, check_header, header_length, point_to_field, pointed_fields,
};
use super::mode_page::{SPF_AND_PAGE_CODE, changeable_bits};
use super::multi_byte_field::MultiByteField;
use super::{ModePage, ModePages, PageValues};
use sg_wire::{CdbWidth, Profile};
use thiserror::Error;

/// The effect of a MODE SELECT: whether it changed a current value.
#[derive(Clone, Copy, Debug, PartialEq, Eq)]
pub struct Changed(pub bool);

/// The reason why a mode parameter list is refused. Of several faults the first one in the list is
/// returned.
#[derive(Clone, Copy, Debug, Error, PartialEq, Eq)]
pub enum ModeSelectFault {
    /// The list ends within its header, its block descriptor or a page.
    #[error("the list ends within its header, its block descriptor or a page")]
    Length,
    /// The byte at this offset in the list, or the field that begins there, has a value that is not
    /// supported.
    #[error("byte {0} of the list has a value that is not supported")]
    Field(usize),
}

impl ModePages {
    /// Changes the current values to the values of a mode parameter list. The list is the data-out
    /// of a MODE SELECT whose CDB has the width. `blocks` is the number of logical blocks that a
    /// block descriptor has to have, or zero in its place. With `None` the number is ignored. The
    /// profile of the disk says which pages it has, and whether a fault in a field of several bytes is
    /// at the first byte of the field. A page may differ from its current values only in the bits that
    /// can be changed. If a page is sent twice, the last one counts. With `save`, the SP bit, all pages
    /// are saved. On a fault nothing has changed.
    ///
    /// # Errors
    /// The first fault of the list.
    pub fn select(
        &mut self,
        list: &[u8],
        width: CdbWidth,
        save: bool,
        blocks: Option<u64>,
        profile: Profile,
    ) -> Result<Changed, ModeSelectFault>
        ensures state { self.new
            ≡ result_unwrap_or
            (mode_select self.old list.now width save blocks profile) self.old }
        ensures outcome { result ≡ result_map_both (changed_by self.old) (λ fault. fault)
            (mode_select self.old list.now width save blocks profile) }
        ensures inside { IfErr result (IsInside (length list.now)) }
        ensures saved { IsTrue (not save) → self.new.saved ≡ self.old.saved }
    {
        let current = selected_values(&self.current, list, width, blocks, profile)?;
        let changed = current != self.current;
        self.current = current;
        if save {
            self.saved = current;
        }
        Ok(Changed(changed))
    }
}

#[tactic(auto, unfolding(crate::specs::ModeSelect::selected_values))]
fn selected_values(
    current: &PageValues,
    list: &[u8],
    width: CdbWidth,
    blocks: Option<u64>,
    profile: Profile,
) -> Result<PageValues, ModeSelectFault>
    ensures values { result
        ≡ selected_values current.now width blocks profile list.now }
    ensures inside { IfErr (selected_values current.now width blocks profile list.now)
        (IsInside (length list.now)) }
{
    if list.is_empty() {
        return Ok(*current);
    }
    let descriptor = check_header(list, width)?;
    check_descriptor(list, width, blocks, profile, descriptor)?;
    take_pages(current, list, header_length(width) + descriptor, profile)
}

/// The current values after the pages from an offset on.
fn take_pages(
    current: &PageValues,
    list: &[u8],
    first: usize,
    profile: Profile,
) -> Result<PageValues, ModeSelectFault>
    requires { first ≤ length list.now }
    ensures { let sent = pages_from first list.now in
        let faults = flat_map (page_faults profile current.now) sent in
        result ≡ unless_fault (first_fault (length list.now) faults)
        (values_after current.now sent) }
{
    let mut values = *current;
    let mut offset = first;
    while offset < list.len() {
        offset = take_page(current, list, offset, profile, &mut values)?;
    }
    Ok(values)
}

/// Takes the page at an offset into the values, and returns the page's end.
fn take_page(
    current: &PageValues,
    list: &[u8],
    offset: usize,
    profile: Profile,
    values: &mut PageValues,
) -> Result<usize, ModeSelectFault>
    requires { offset < length list.now }
    ensures result { let sent = page_at offset list.now in
        result ≡ unless_fault
        (first_fault (length list.now) (page_faults profile current.now sent))
        (offset + sent.size) }
    ensures values { OnOk result (values.new ≡ with_sent values.old (page_at offset list.now)) }
    ensures whole { OnOk result
        (offset + (page_at offset list.now).size ≤ length list.now) }
{
    match ModePage::with_first_byte(profile, list[offset] & SPF_AND_PAGE_CODE) {
        Some(page) => {
            let fields = pointed_fields(profile, page.multi_byte_fields());
            let end = check_page(list, offset, page, current.of(page), profile, fields)?;
            values.set(page, &list[offset + page.header().len()..end]);
            Ok(end)
        }
        None => Err(ModeSelectFault::Field(offset)),
    }
}

/// Checks the page at an offset, and returns the page's end. The page has to have the header of this one
/// and these values, except for the changeable bits. The fault is at the first byte of its field.
fn check_page(
    list: &[u8],
    offset: usize,
    page: ModePage,
    expected: &[u8],
    profile: Profile,
    fields: &[MultiByteField],
) -> Result<usize, ModeSelectFault>
    requires offset { offset < length list.now }
    requires first { sent_first (page_at offset list.now) ≡ first_byte page }
    requires expected { length expected.now ≡ page_length page }
    ensures result { let sent = page_at offset list.now in
        let faults = field_faults fields.now (page_bytes page expected.now)
        (ignored_page_header_bits page ++ (row_of page).changeable profile) sent in
        result ≡ unless_fault (first_fault (length list.now) faults) (offset + sent.size) }
    ensures size { OnOk result ((page_at offset list.now).size
        ≡ page_header_length page + page_length page) }
    ensures end { IfOk result (λ end. end ≡ offset + page_header_length page + page_length page) }
    ensures whole { OnOk result (offset + page_header_length page + page_length page
        ≤ length list.now) }
{
    match check_bytes(list, offset, page, expected, profile) {
        Ok(end) => Ok(end),
        Err(fault) => Err(point_to_field(fault, offset, fields)),
    }
}

/// Checks the page at an offset, and returns the page's end. The page has to have the header of this one
/// and these values, except for the changeable bits. The fault is at the byte that differs.
fn check_bytes(
    list: &[u8],
    offset: usize,
    page: ModePage,
    expected: &[u8],
    profile: Profile,
) -> Result<usize, ModeSelectFault>
    requires offset { offset < length list.now }
    requires first { sent_first (page_at offset list.now) ≡ first_byte page }
    requires expected { length expected.now ≡ page_length page }
    ensures result { let sent = page_at offset list.now in
        let faults = part_faults (page_bytes page expected.now)
        (ignored_page_header_bits page ++ (row_of page).changeable profile) sent in
        result ≡ unless_fault (first_fault (length list.now) faults) (offset + sent.size) }
    ensures size { OnOk result ((page_at offset list.now).size
        ≡ page_header_length page + page_length page) }
    ensures end { IfOk result (λ end. end ≡ offset + page_header_length page + page_length page) }
    ensures whole { OnOk result (offset + page_header_length page + page_length page
        ≤ length list.now) }
{
    let header = page.header();
    let values = offset + header.len();
    let changeable = changeable_bits(profile).of(page);
    check(list, offset, header.len(), header, page.ignored_in_header())?;
    check(list, values, expected.len(), expected, changeable)?;
    Ok(values + expected.len())
}
