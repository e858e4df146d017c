// The place where two texts differ.
ghost use Rattle.std.specs.Prelude.{◌≡◌, ◌≢◌, ◌↔◌, ◌≤◌, ◌==◌, length, take, IsNone, IfSome};
ghost use Rattle.std.specs.Prelude.{slice_get, count_by};

/// The index of the first byte in which two texts differ. One of them may lack it.
pub(crate) fn first_difference(expected: &[u8], printed: &[u8]) -> Option<usize>
    ensures same { IsNone result ↔ (expected.now ≡ printed.now) }
    ensures within { IfSome result (λ index. index ≤ length expected.now) }
    ensures alike { IfSome result (λ index. take index expected.now ≡ take index printed.now) }
    ensures differs { IfSome result (λ index. slice_get expected.now index ≢ slice_get printed.now index) }
{
    let mut index = 0;
    while index < expected.len() && index < printed.len() {
        if expected[index] != printed[index] {
            return Some(index);
        }
        index += 1;
    }
    if expected.len() == printed.len() {
        None
    } else {
        Some(index)
    }
}

/// The number of lines that end before a byte.
pub(crate) fn lines_before(text: &[u8], index: usize) -> usize
    requires { index ≤ length text.now }
    ensures { result ≡ count_by (λ byte. byte == 10) (take index text.now) }
{
    text[..index].iter().filter(|byte| **byte == b'\n').count()
}

/// The line after `count` others, or nothing if the text has ended.
pub(crate) fn line_after(text: &[u8], count: usize) -> &[u8] {
    match text.split(|byte| *byte == b'\n').nth(count) {
        Some(line) => line,
        None => &[],
    }
}
