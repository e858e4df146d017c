// sg_inq and sg_vpd, which both send INQUIRY (SPC-4, 6.6).
ghost use Rattle.std.specs.Prelude.{◌≡◌, option_map};
ghost use Rattle.sg_tools.specs.Requests.{default_page, inquiry, inquiry_length, inquiry_show};
ghost use Rattle.sg_tools.specs.Requests.{length_or_0, page_or, sg_inq, sg_vpd};

use crate::given_options::GivenOptions;
use crate::number::read_number_up_to;
use crate::show::Show;
use crate::tool::Tool;
use crate::tool_fault::ToolFault;
use sg_wire::{Command, Inquiry};

// Pages of vital product data that the tools ask for by default (SPC-4, 7.8).
const SUPPORTED_PAGES: u8 = 0x00;

const DEVICE_IDENTIFICATION: u8 = 0x83;

/// The request that the options of sg_inq make.
pub(crate) fn sg_inq(options: &GivenOptions) -> Result<Tool, ToolFault>
    ensures { result ≡ sg_inq options.now }
{
    let id = options.is_set("id");
    let page = options.text("page");
    if id && page.is_some() {
        return Err(ToolFault::Exclusive);
    }
    let evpd = options.is_set("vpd") || id || page.is_some();
    inquiry(
        evpd,
        page_or(default_page(id), page),
        length_or_0(options.text("len")),
        options.is_set("hex"),
    )
}

fn default_page(id: bool) -> u8
    ensures { result ≡ default_page id }
{
    if id {
        DEVICE_IDENTIFICATION
    } else {
        SUPPORTED_PAGES
    }
}

/// The request that the options of sg_vpd make.
pub(crate) fn sg_vpd(options: &GivenOptions) -> Result<Tool, ToolFault>
    ensures { result ≡ sg_vpd options.now }
{
    inquiry(
        true,
        page_or(SUPPORTED_PAGES, options.text("page")),
        length_or_0(options.text("maxlen")),
        options.is_set("hex"),
    )
}

/// INQUIRY, if the page and the allocation length have values.
fn inquiry(evpd: bool, page: Option<u8>, length: Option<u16>, hex: bool) -> Result<Tool, ToolFault>
    ensures { result ≡ inquiry evpd page length hex }
{
    let (Some(page_code), Some(length)) = (page, length) else {
        return Err(ToolFault::Number);
    };
    let command = Command::Inquiry(Inquiry {
        evpd,
        page_code,
        allocation_length: inquiry_length(evpd, length),
    });
    Ok(Tool::without_parameters(command, inquiry_show(evpd, hex)))
}

fn inquiry_length(evpd: bool, given: u16) -> u16
    ensures { result ≡ inquiry_length evpd given }
{
    match (given, evpd) {
        (0, false) => 36,
        (0, true) => 252,
        _ => given,
    }
}

fn inquiry_show(evpd: bool, hex: bool) -> Show
    ensures { result ≡ inquiry_show evpd hex }
{
    match (hex, evpd) {
        (true, _) => Show::Hex,
        (false, true) => Show::Vpd,
        (false, false) => Show::Inquiry,
    }
}

/// The page of vital product data of a text; the default if there is no text.
fn page_or(default: u8, text: Option<&str>) -> Option<u8>
    ensures { result ≡ page_or default (option_map (λ t. t.now) text.entry) }
{
    match text {
        None => Some(default),
        Some("sv") => Some(0x00),
        Some("sn") => Some(0x80),
        Some("di") => Some(0x83),
        Some("bl") => Some(0xb0),
        Some("lbpv") => Some(0xb2),
        Some(number) => Some(read_number_up_to(0xff, number.as_bytes())? as u8),
    }
}

/// The allocation length of a text; 0 if there is no text.
fn length_or_0(text: Option<&str>) -> Option<u16>
    ensures { result ≡ length_or_0 (option_map (λ t. t.now) text.entry) }
{
    match text {
        None => Some(0),
        Some(number) => Some(read_number_up_to(0xffff, number.as_bytes())? as u16),
    }
}
