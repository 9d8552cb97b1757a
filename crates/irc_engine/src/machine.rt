//! What handles the events of an engine: a server, or a layer around one.
ghost use Rattle.std.specs.Prelude.{◌≡◌, true, Option, IfErr, OnOk};
ghost use Rattle.irc_stage.specs.View.{View};
ghost use Rattle.irc_engine.specs.Machines.{is_out_of_memory, Dues, Handles, IsConnectedBy, IsDue};
ghost use Rattle.irc_engine.specs.Machines.{IsRefusal, IsStillConnected};

use irc_batch::Batch;
use irc_moments::Moment;
use irc_server::{Event, Server, ServerFault};

/// What handles the events of an engine. It has a server, by which the engine knows who is
/// connected; a layer around one may give it other events than it is given, and put out other
/// things than it does.
pub trait Machine {
    /// Its server, as those above have it: nothing once memory ran out.
    ghost server_of: { Self → Option View };

    /// What may come of handling an event.
    ghost handles: { Handles Self };

    /// Whether anything may be due, ever, and what may come of that.
    ghost dues: { Dues Self };

    /// Handles an event: what it puts out is appended to `out`, in order. A client or a link is
    /// there from when it comes until it goes or is closed, and nobody else comes or goes.
    ///
    /// # Errors
    /// As [`Server::handle`]: an event is refused that is of somebody who is not there, or of one
    /// who comes and is there, else only for want of memory.
    fn handle(&mut self, event: &Event, out: &mut Batch) -> Result<(), ServerFault>
        ensures handled { handles self.old event.now out.old.outs result self.new out.new.outs }
        ensures connected { OnOk result (IsConnectedBy (server_of self.old) event.now out.old.outs
            (server_of self.new) out.new.outs) }
        ensures refused { IfErr result (IsRefusal (server_of self.old) event.now) };

    /// Does what is due at a moment, if something is: what it puts out is appended to `out`, in
    /// order. Nobody comes then, and nobody goes but who is closed.
    ///
    /// # Errors
    /// Where memory runs out, or ran out before.
    fn due(&mut self, moment: Moment, out: &mut Batch) -> Result<(), ServerFault>
        ensures due { IsDue dues self.old moment out.old.outs result self.new out.new.outs }
        ensures connected { OnOk result (IsStillConnected (server_of self.old) out.old.outs
            (server_of self.new) out.new.outs) }
        ensures refused { IfErr result (λ fault. is_out_of_memory fault ≡ true) };

    /// Its server.
    fn server(&self) -> &Server
        ensures { result.now ≡ server_of self.now };
}

/// A server is one of itself, of which nothing is ever due.
impl Machine for Server {
    ghost use Rattle.irc_engine.specs.Machines.{itself, never_due};
    ghost use Rattle.irc_server.specs.ReadEvents.{IsHandled};

    ghost server_of = { itself };

    ghost handles = { IsHandled };

    ghost dues = { never_due };

    fn handle(&mut self, event: &Event, out: &mut Batch) -> Result<(), ServerFault> {
        irc_server::laws::who_is_connected();
        Server::handle(self, event, out)
    }

    fn due(&mut self, _moment: Moment, _out: &mut Batch) -> Result<(), ServerFault> {
        Ok(())
    }

    fn server(&self) -> &Server {
        self
    }
}
