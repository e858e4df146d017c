// sg_modes, which sends MODE SENSE(10), or MODE SENSE(6) with `--six` (SPC-4, 6.13 and 6.14).
ghost use Rattle.std.specs.Prelude.{◌≡◌, ◌≤◌, option_map, IfSome};
ghost use Rattle.sg_tools.specs.OptionTexts.{both, mode_page, value_or};
ghost use Rattle.sg_tools.specs.Requests.{cdb_width, mode_sense, modes_show, page_control};
ghost use Rattle.sg_tools.specs.Requests.{sg_modes};

use crate::given_options::GivenOptions;
use crate::number::read_number_up_to;
use crate::number_list::{after, first_comma};
use crate::option_text::number_or;
use crate::show::Show;
use crate::tool::Tool;
use crate::tool_fault::ToolFault;
use sg_wire::{CdbWidth, Command, ModeSense6, ModeSense10, PageCode, PageControl, PageRequest};

/// The PAGE CODE that requests all pages (SPC-4, 6.13).
const ALL_PAGES: u64 = 0x3f;

/// The request that the options of sg_modes make.
pub(crate) fn sg_modes(options: &GivenOptions) -> Result<Tool, ToolFault>
    ensures { result ≡ sg_modes options.now }
{
    let page = options.text("page");
    let six = options.is_set("six");
    let llbaa = options.is_set("llbaa");
    if (options.is_set("all") && page.is_some()) || (six && llbaa) {
        return Err(ToolFault::Exclusive);
    }
    let page_control = page_control(options.text("control"));
    let page = mode_page_or(ALL_PAGES, page);
    let (Some(page_control), Some((page_code, subpage_code))) = (page_control, page) else {
        return Err(ToolFault::Number);
    };
    let request = PageRequest {
        dbd: options.is_set("dbd"),
        page_control,
        page_code,
        subpage_code,
    };
    let width = cdb_width(six);
    let show = modes_show(width, options.is_set("hex"));
    Ok(Tool::without_parameters(mode_sense(width, llbaa, request), show))
}

fn cdb_width(six: bool) -> CdbWidth
    ensures { result ≡ cdb_width six }
{
    if six { CdbWidth::Six } else { CdbWidth::Ten }
}

/// MODE SENSE. LLBAA is a field only of MODE SENSE(10).
fn mode_sense(width: CdbWidth, llbaa: bool, page: PageRequest) -> Command
    ensures { result ≡ mode_sense width llbaa page }
{
    match width {
        CdbWidth::Six => Command::ModeSense6(ModeSense6 {
            page,
            allocation_length: 252,
        }),
        CdbWidth::Ten => Command::ModeSense10(ModeSense10 {
            llbaa,
            page,
            allocation_length: 1024,
        }),
    }
}

fn modes_show(width: CdbWidth, hex: bool) -> Show
    ensures { result ≡ modes_show width hex }
{
    match (hex, width) {
        (true, _) => Show::Hex,
        (false, CdbWidth::Six) => Show::Modes6,
        (false, CdbWidth::Ten) => Show::Modes10,
    }
}

/// The page control of a text; current values if there is no text.
fn page_control(text: Option<&str>) -> Option<PageControl>
    ensures { result ≡ page_control (option_map (λ t. t.now) text.entry) }
{
    PageControl::with_code(number_or(0, 3, text)? as u8)
}

/// The page and the subpage of a text. If there is no text, the page is the default.
pub(crate) fn mode_page_or(default: u64, text: Option<&str>) -> Option<(PageCode, u8)>
    requires { default ≤ 0x3F }
    ensures { result ≡ value_or (default, 0x00) mode_page (option_map (λ t. t.now) text.entry) }
{
    match text {
        None => both(Some(default), Some(0x00)),
        Some(text) => mode_page(text.as_bytes()),
    }
}

/// A page code, or a page code, a comma and a subpage code.
fn mode_page(text: &[u8]) -> Option<(PageCode, u8)>
    ensures { result ≡ mode_page text.now }
{
    let Some(end) = first_comma(text) else {
        return both(read_number_up_to(0x3f, text), Some(0x00));
    };
    let subpage = after(end, text);
    if first_comma(subpage).is_some() {
        return None;
    }
    both(
        read_number_up_to(0x3f, &text[..end]),
        read_number_up_to(0xff, subpage),
    )
}

fn both(page: Option<u64>, subpage: Option<u64>) -> Option<(PageCode, u8)>
    requires page { IfSome page (λ n. n ≤ 0x3F) }
    requires subpage { IfSome subpage (λ n. n ≤ 0xFF) }
    ensures { result ≡ both page subpage }
{
    let (Some(page), Some(subpage)) = (page, subpage) else {
        return None;
    };
    Some((PageCode::new(page as u8)?, subpage as u8))
}
