// Lists of numbers, with commas between them.
ghost use Rattle.std.specs.Prelude.{◌≡◌, ◌≤◌, ◌<◌, ◌==◌, drop, length, IfSome, ◌+◌};
ghost use Rattle.std.specs.List.{position};
ghost use Rattle.sg_tools.specs.NumberList.{PushesNumber, ReadsList};
ghost use Rattle.sg_tools.specs.OptionTexts.{numbers_up_to};

use crate::number::read_number_up_to;
use arrayvec::ArrayVec;
use sg_wire::MAXIMUM_UNMAP_DESCRIPTORS;

/// The numbers of a list: as many as UNMAP takes, and the number of all.
#[derive(Drop)]
pub(crate) struct NumberList {
    pub(crate) first: ArrayVec<u64, MAXIMUM_UNMAP_DESCRIPTORS>,
    pub(crate) count: usize,
}

/// The numbers of a list. None if an entry is no number or is past the limit.
pub(crate) fn read_list(limit: u64, text: &[u8]) -> Option<NumberList>
    ensures { ReadsList (numbers_up_to limit text.now) result }
{
    let mut numbers = NumberList {
        first: ArrayVec::new(),
        count: 0,
    };
    let mut rest = text;
    'entries: loop {
        let Some(end) = first_comma(rest) else {
            let Some(number) = read_number_up_to(limit, rest) else {
                return None;
            };
            push(&mut numbers, number);
            return Some(numbers);
        };
        let Some(number) = read_number_up_to(limit, &rest[..end]) else {
            return None;
        };
        push(&mut numbers, number);
        rest = after(end, rest);
    }
}

/// Adds one more number. It is counted even if there is no room for it.
fn push(numbers: &mut NumberList, number: u64)
    requires { numbers.old.count < usize.MAX }
    ensures { PushesNumber numbers.old number numbers.new }
{
    numbers.count += 1;
    let _ = numbers.first.try_push(number);
}

/// The text after a byte.
pub(crate) fn after(index: usize, text: &[u8]) -> &[u8]
    requires { index < length text.now }
    ensures { result.now ≡ drop (index + 1) text.now }
{
    &text[index + 1..]
}

/// The index of the first comma.
pub(crate) fn first_comma(text: &[u8]) -> Option<usize>
    ensures index { result ≡ position (λ byte. byte == 0x2C) text.now }
    ensures within { IfSome result (λ n. n < length text.now) }
{
    text.iter().position(|byte| *byte == b',')
}
