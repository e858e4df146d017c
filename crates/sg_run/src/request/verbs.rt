// What a verb asks for that is no happening, by the words after it (docs/SCRIPT.md). `fill` has a file
// of its own.
ghost use Rattle.std.specs.Prelude.{◌≡◌, ◌≤◌, All, length, map};
ghost use Rattle.std.specs.Str.{IsAscii};
ghost use Rattle.sg_run.specs.Limits.{longest_line};
ghost use Rattle.sg_run.specs.Request.{by_short_verb, faults_of, lists_faults, raw, show_of};
ghost use Rattle.sg_run.specs.RequestLines.{line_request};

use super::words::{is_word, read_initiator, word_text};
use super::{FilledBlocks, LineFault, Request};
use sg_target::Call;
use sg_tools::{Show, read_hex};
use sg_wire::Profile;

/// The request of a verb that takes at most four operands. The buffer takes the bytes of its
/// hexadecimal words.
pub(super) fn by_short_verb<'a>(
    profile: Profile,
    verb: &[u8],
    operands: &[&[u8]],
    buffer: &'a mut [u8],
) -> Request<'a>
    requires operands { All (λ word. length word.now ≤ longest_line) operands.now }
    requires ascii { All (λ word. IsAscii word.now) operands.now }
    requires buffer { longest_line ≤ length buffer.old }
    ensures { line_request result
        ≡ by_short_verb profile verb.now (map (λ word. word.now) operands.now) }
{
    if verb == b"raw".as_slice() {
        read_raw(profile, operands, buffer)
    } else if verb == b"fill".as_slice() {
        FilledBlocks::of_operands(profile, operands)
    } else if verb == b"show".as_slice() {
        read_show(profile, operands, buffer)
    } else if lists_faults(profile, verb) {
        read_faults(operands)
    } else {
        Request::Faulty(LineFault::UnknownVerb)
    }
}

/// Returns `true` if a verb of a disk of a profile lists its faults.
fn lists_faults(profile: Profile, verb: &[u8]) -> bool
    ensures { result ≡ lists_faults profile verb.now }
{
    match profile {
        Profile::Base => false,
        Profile::Extended => is_word(verb, "faults"),
    }
}

/// `raw I CDB [DATA]`: a command, byte by byte. Data-out may be left out.
fn read_raw<'a>(profile: Profile, operands: &[&[u8]], buffer: &'a mut [u8]) -> Request<'a>
    requires operands { All (λ word. length word.now ≤ longest_line) operands.now }
    requires buffer { longest_line ≤ length buffer.old }
    ensures { line_request result ≡ raw profile (map (λ word. word.now) operands.now) }
{
    let (initiator, cdb, data_out) = match operands {
        [initiator, cdb] => (*initiator, *cdb, b"-".as_slice()),
        [initiator, cdb, data_out] => (*initiator, *cdb, *data_out),
        _ => return Request::Faulty(LineFault::Usage),
    };
    let Some(initiator) = read_initiator(profile, initiator) else {
        return Request::Faulty(LineFault::Initiator);
    };
    let Some(cdb) = read_hex(cdb, buffer) else {
        return Request::Faulty(LineFault::Hex);
    };
    let Some(data_out) = read_hex(data_out, &mut buffer[cdb..]) else {
        return Request::Faulty(LineFault::Hex);
    };
    let bytes: &'a [u8] = buffer;
    Request::Send(Call {
        initiator,
        cdb: &bytes[..cdb],
        data_out: &bytes[cdb..cdb + data_out],
    })
}

/// `show KIND HEX`: bytes are shown as an answer, and nothing is sent.
fn read_show<'a>(profile: Profile, operands: &[&[u8]], buffer: &'a mut [u8]) -> Request<'a>
    requires operands { All (λ word. length word.now ≤ longest_line) operands.now }
    requires ascii { All (λ word. IsAscii word.now) operands.now }
    requires buffer { longest_line ≤ length buffer.old }
    ensures { line_request result ≡ show_of profile (map (λ word. word.now) operands.now) }
{
    let [kind, bytes] = operands else {
        return Request::Faulty(LineFault::Usage);
    };
    let Some(show) = Show::of_word(profile, word_text(kind)) else {
        return Request::Faulty(LineFault::Kind);
    };
    let Some(len) = read_hex(bytes, buffer) else {
        return Request::Faulty(LineFault::Hex);
    };
    let bytes: &'a [u8] = buffer;
    Request::Show(show.in_profile(profile), &bytes[..len])
}

/// `faults`: the armed faults are listed. No word may come after the verb.
fn read_faults<'a>(operands: &[&[u8]]) -> Request<'a>
    ensures { line_request result ≡ faults_of (map (λ word. word.now) operands.now) }
{
    if operands.is_empty() {
        Request::ListFaults
    } else {
        Request::Faulty(LineFault::Usage)
    }
}
