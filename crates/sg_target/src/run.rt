// Executes lists of commands, with happenings among them.
ghost use Rattle.std.specs.Prelude.{◌≡◌, ◌+◌, ◌≤◌, [], ◌∷◌, ◌++◌, length, map, OnOk, OnErr};
ghost use Rattle.sg_target.specs.DataInBound.{longest_data_in};
ghost use Rattle.sg_target.specs.Charge.{cost_bounds};
ghost use Rattle.sg_target.specs.Runs.{RunsEvents, SinkFields, all_calls, exchange};

use crate::call::Call;
use crate::event::{Event, ToEvent};
use crate::laws::limits_are_kept;
use crate::reply::Reply;
use crate::target::Target;
use sg_store::Store;

/// Takes replies, one after another.
pub trait Sink {
    /// Why a reply is refused.
    type Fault;

    /// The replies that were taken, with their data-in, and the number of refused replies.
    ghost fields: { Self → SinkFields };

    /// Takes a reply, with its data-in.
    ///
    /// # Errors
    /// The reply was refused, and is not taken.
    fn take(&mut self, reply: &Reply, data_in: &[u8]) -> Result<(), Self::Fault>
        ensures taken { OnOk result ((fields self.new).taken
            ≡ (fields self.old).taken ++ exchange reply.now data_in.now ∷ []) }
        ensures sound { OnOk result ((fields self.new).refused ≡ (fields self.old).refused) }
        ensures refused { OnErr result ((fields self.new).taken ≡ (fields self.old).taken) }
        ensures fault { OnErr result ((fields self.new).refused ≡ (fields self.old).refused + 1) };
}

impl<S: Store> Target<S> {
    /// Executes commands in turn, and delivers their replies to a sink. The buffer has
    /// [`BUFFER_LENGTH`](crate::BUFFER_LENGTH) bytes at least; data-in is at its beginning while
    /// the sink takes the reply.
    ///
    /// # Errors
    /// The sink refused a reply. The commands up to that one were executed, and none after it.
    pub fn run<K: Sink>(
        &mut self,
        calls: &[Call<'_>],
        buf: &mut [u8],
        sink: &mut K,
    ) -> Result<(), K::Fault>
        requires { longest_data_in ≤ length buf.old }

        // The sink has taken the replies to all calls, each charged to the store, and the state is
        // the state after all calls. Or the sink has refused one. No table passes its limit on the
        // way.
        ensures { RunsEvents (cost_bounds S.price S.least) (all_calls calls.now)
            self.old self.new (K.fields sink.old) (K.fields sink.new) result }
    {
        self.run_list(calls, buf, sink)
    }

    /// Lets events happen in turn: executes commands as [`Target::run`] does, with happenings
    /// between them. A happening delivers nothing to the sink.
    ///
    /// # Errors
    /// The sink refused a reply. The events up to that one have happened, and none after it.
    pub fn run_events<K: Sink>(
        &mut self,
        events: &[Event<'_>],
        buf: &mut [u8],
        sink: &mut K,
    ) -> Result<(), K::Fault>
        requires { longest_data_in ≤ length buf.old }
        ensures { RunsEvents (cost_bounds S.price S.least) events.now
            self.old self.new (K.fields sink.old) (K.fields sink.new) result }
    {
        self.run_list(events, buf, sink)
    }

    /// Lets the events of a list happen in turn, whether it is a list of calls or of events.
    fn run_list<E: ToEvent, K: Sink>(
        &mut self,
        list: &[E],
        buf: &mut [u8],
        sink: &mut K,
    ) -> Result<(), K::Fault>
        requires { longest_data_in ≤ length buf.old }
        ensures { RunsEvents (cost_bounds S.price S.least) (map E.event list.now)
            self.old self.new (K.fields sink.old) (K.fields sink.new) result }
    {
        // The store's contract says that its blocks are well formed. The type's invariant, which is
        // known where a field is used, says that the tables are within their limits.
        let _ = self.store.used();
        limits_are_kept();
        for item in list {
            match item.to_event() {
                Event::Call(call) => {
                    let reply = self.execute(call.initiator, call.cdb, call.data_out, buf);
                    sink.take(&reply, &buf[..reply.data_in])?;
                }
                Event::Happen(happening) => self.happen(happening),
            }
        }
        Ok(())
    }
}
