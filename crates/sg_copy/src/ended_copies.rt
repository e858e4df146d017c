// Copies that have ended, until somebody asks how.
use crate::copy_list::Segment;
use sg_wire::Initiator;
use std::marker::Model;

/// A copy that has ended without errors, as RECEIVE COPY STATUS(LID1) reports it.
#[derive(Clone, Copy, Debug, PartialEq, Eq)]
pub struct EndedCopy {
    /// The LIST IDENTIFIER of its EXTENDED COPY.
    pub list_identifier: u8,
    /// The blocks that it copied, if any.
    pub segment: Option<Segment>,
}

/// For each initiator the last copy that it may ask about (SPC-4, 6.25).
#[derive(Drop)]
pub struct EndedCopies {
    copies: [Option<EndedCopy>; Initiator::COUNT],
}

impl Model for EndedCopies {
    ghost use Rattle.std.specs.Prelude.{List, Option};
    ghost use Rattle.sg_copy.specs.declared.ended_copies.EndedCopy.{EndedCopy};

    ghost Value = { List (Option EndedCopy) };

    ghost view = { λ c. c.copies };

    ghost inverse = { λ m. record { copies = m } };
}

ghost use Rattle.std.specs.Prelude.{◌≡◌, ◌==◌, length};
ghost use Rattle.sg_wire.specs.Initiator.{initiator_count};
ghost use Rattle.sg_copy.specs.EndedCopies.{copy_under, with_copy, no_copies, without_copy};

impl EndedCopies {
    /// No copy has ended since power on.
    pub fn new() -> EndedCopies
        ensures { result ≡ no_copies }
    {
        EndedCopies {
            copies: [None; Initiator::COUNT],
        }
    }

    /// Keeps a copy of an initiator, in place of the one before it.
    pub fn keep(&mut self, initiator: Initiator, copy: EndedCopy)
        ensures { self.new ≡ with_copy self.old initiator copy }
    {
        self.copies[usize::from(initiator.number())] = Some(copy);
    }

    /// The last copy of an initiator, if it has a LIST IDENTIFIER.
    pub fn under(&self, initiator: Initiator, list_identifier: u8) -> Option<EndedCopy>
        ensures { result ≡ copy_under self.now initiator list_identifier }
    {
        let copy = self.copies[usize::from(initiator.number())]?;
        (copy.list_identifier == list_identifier).then_some(copy)
    }

    /// Discards the last copy of an initiator: its status was reported, or its I_T nexus is lost.
    pub fn discard(&mut self, initiator: Initiator)
        ensures { self.new ≡ without_copy self.old initiator }
    {
        self.copies[usize::from(initiator.number())] = None;
    }

    /// Discards all copies, as a reset does.
    pub fn clear(&mut self)
        ensures { self.new ≡ no_copies }
    {
        *self = EndedCopies::new();
    }
}
