// The end of a command that has passed the checks: the disk reports a threshold that the command has crossed
// (SBC-3, 4.7).
ghost use Rattle.std.specs.Prelude.{◌≡◌, ◌≤◌, length};
ghost use Rattle.sg_target.specs.Alerts.{alerted};
ghost use Rattle.sg_target.specs.Charge.{TakesStep, cost_bounds, step_by};
ghost use Rattle.sg_target.specs.DataInBound.{data_in_bound};
ghost use Rattle.sg_target.specs.Extents.{AreOnDisk};
ghost use Rattle.sg_target.specs.Ranges.{ranges_of};
ghost use Rattle.sg_target.specs.Semantics.{medium_use};
ghost use Rattle.sg_target.specs.State.{IsWithinLimits, resources_of};

use crate::operation::Operation;
use crate::reply::Reply;
use crate::target::Target;
use sg_pages::MappingResources;
use sg_store::Store;
use sg_units::{Initiators, Raised, UnitAttention};
use sg_wire::Initiator;

impl<S: Store> Target<S> {
    /// Executes an operation, unless the disk's state refuses it, and reports a threshold that it has
    /// crossed.
    // Inlined: a command would pay for one more call.
    #[inline(always)]
    pub(crate) fn execute_checked(
        &mut self,
        initiator: Initiator,
        operation: &Operation<'_>,
        buf: &mut [u8],
    ) -> Reply
        requires on_disk { AreOnDisk self.old.state.disk.capacity (medium_use operation.now).extents }
        requires limits { IsWithinLimits self.old.state }
        requires room { data_in_bound operation.now ≤ length buf.old }
        ensures { TakesStep (cost_bounds S.price S.least)
            (step_by self.old.state initiator operation.now)
            (ranges_of self.old.state operation.now)
            self.old self.new result buf.old buf.new }
    {
        let before = self.resources();
        let reply = self.execute_operation(initiator, operation, buf);
        self.report_crossing(before, initiator);
        reply
    }

    /// Establishes 38h/07h if a command of an initiator has crossed a threshold. The pool before the command
    /// was `before`.
    #[inline(always)]
    fn report_crossing(&mut self, before: MappingResources, initiator: Initiator)
        ensures state { self.new.state ≡ alerted before initiator self.old.state }
        ensures faults { self.new.faults ≡ self.old.faults }
        ensures meter { self.new.meter ≡ self.old.meter }
    {
        let after = self.resources();
        if !self.modes.is_crossed(self.profile(), before, after) {
            return;
        }
        let alerted = if self.modes.alerts_only_sender() {
            Initiators::none().with(initiator)
        } else {
            Initiators::all()
        };
        let condition = UnitAttention::SoftThresholdReached;
        self.raise(&Raised::for_members(&alerted, condition));
    }

    /// The capacity, the pool, and how many addresses have a block of it.
    #[inline(always)]
    pub(crate) fn resources(&self) -> MappingResources
        ensures { result ≡ resources_of self.now.state }
    {
        MappingResources {
            capacity: self.config.blocks(),
            blocks: self.config.pool(),
            used: self.store.used(),
        }
    }
}
