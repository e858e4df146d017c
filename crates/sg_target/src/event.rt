// Events that happen to a disk, in a list.
ghost use Rattle.std.specs.Prelude.{◌≡◌};

use crate::call::Call;
use crate::happening::Happening;

/// An event that happens to a disk.
#[derive(Clone, Copy)]
pub enum Event<'a> {
    /// An initiator sends a command.
    Call(Call<'a>),
    /// Something happens that no initiator sends.
    Happen(Happening),
}

/// An item of a list that is run: a call is an event, too.
pub(crate) trait ToEvent {
    ghost use Rattle.sg_target.specs.declared.event.Event.{Event};

    ghost event: { Self → Event };

    fn to_event(&self) -> Event<'_>
        ensures { result ≡ event self.now };
}

impl ToEvent for Event<'_> {
    ghost event = { λ e. e };

    fn to_event(&self) -> Event<'_> {
        match self {
            Event::Call(call) => call.to_event(),
            Event::Happen(happening) => Event::Happen(*happening),
        }
    }
}

impl ToEvent for Call<'_> {
    ghost use Rattle.sg_target.specs.declared.event.Event.{Event};

    ghost event = { λ call. Event.Call call };

    fn to_event(&self) -> Event<'_> {
        // Field by field, because rt's borrow checker does not cover `*self` if a field is a
        // reference.
        Event::Call(Call {
            initiator: self.initiator,
            cdb: self.cdb,
            data_out: self.data_out,
        })
    }
}
