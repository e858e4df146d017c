// What a transport asks about its initiators' ports. No command asks or does it.
ghost use Rattle.std.specs.Prelude.{◌≡◌, ◌≤◌};
ghost use Rattle.sg_wire.specs.Initiator.{initiator_count};
ghost use Rattle.sg_wire.specs.Profile.{limits_of};
ghost use Rattle.sg_units.specs.Registrations.{registered_mask};
ghost use Rattle.sg_target.specs.Ports.{Forgets};
ghost use Rattle.sg_target.specs.State.{profile_of};

use crate::target::Target;
use sg_store::Store;
use sg_wire::Initiator;

impl<S: Store> Target<S> {
    /// The number of initiators that send commands to the disk. They are numbered from 0 on.
    #[tactic(auto, using(crate::proofs::PortLemmas::most_initiators))]
    pub fn initiators(&self) -> u8
        ensures value { result ≡ (limits_of (profile_of self.now.state)).initiators }
        ensures at_most { result ≤ initiator_count }
    {
        self.profile().limits().initiators
    }

    /// A mask of the initiators that are registered: bit i is set if initiator i is.
    pub fn registered_mask(&self) -> u64
        ensures { result ≡ registered_mask self.now.state.reservations.registrations }
    {
        self.reservations.registered_mask()
    }

    /// Clears the unit attentions that are pending for an initiator whose port is gone. The next
    /// port with its number begins without them. All else is as it was.
    pub fn forget(&mut self, initiator: Initiator)
        ensures { Forgets initiator self.old self.new }
    {
        // Its contract says that the blocks are well formed.
        let _ = self.store.used();
        self.attentions.clear(initiator);
    }
}
