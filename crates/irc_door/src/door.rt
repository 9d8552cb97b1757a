//! A door in front of a machine.
ghost use Rattle.std.specs.Prelude.{◌≡◌, IfErr};
ghost use Rattle.irc_engine.specs.Machines.{IsConnectedBy, IsRefusal};

use crate::capabilities::asked_of;
use crate::manner::Manner;
use crate::motd::Motd;
use crate::saying::put_said;
use irc_batch::Batch;
use irc_engine::Machine;
use irc_moments::Moment;
use irc_server::{Event, Server, ServerFault};
use std::alloc::Global;

/// A door in front of a machine: what it is given is the machine's, as it comes, and what that says
/// to clients is turned.
#[derive(Drop)]
pub struct Door<M: Machine> {
    machine: M,
    manner: Manner,
    /// What the machine puts out by the event at hand.
    held: Batch,
    alloc: Global,
}

impl<M: Machine> Door<M> {
    ghost use Rattle.irc_door.specs.Doors.{announcing};

    /// A door in front of a machine, which speaks so.
    pub fn new(alloc: Global, machine: M, manner: Manner) -> Self
        ensures machine { result.machine ≡ machine }
        ensures manner { result.manner ≡ manner }
    {
        Door {
            machine,
            manner,
            held: Batch::new(alloc),
            alloc,
        }
    }

    /// From now on this is the message of the day, or there is none.
    pub fn announce(&mut self, motd: Option<Motd>)
        ensures { self.new ≡ announcing motd self.old }
    {
        self.manner.motd = motd;
    }
}

impl<M: Machine> Machine for Door<M> {
    ghost use Rattle.irc_door.specs.Doors.{dues_by, server_behind, IsTurned};

    ghost server_of = { server_behind M.server_of };

    ghost handles = { IsTurned M.handles };

    ghost dues = { dues_by M.dues };

    fn handle(&mut self, event: &Event, out: &mut Batch) -> Result<(), ServerFault> {
        self.held.clear();
        self.machine.handle(event, &mut self.held)?;
        let asked = asked_of(self.manner.programs, event);
        put_said(&self.manner, asked, &mut self.held, out)?;
        Ok(())
    }

    fn due(&mut self, moment: Moment, out: &mut Batch) -> Result<(), ServerFault> {
        let mut held = Batch::new(self.alloc);
        self.machine.due(moment, &mut held)?;
        if held.len() == 0 {
            return Ok(());
        }
        put_said(&self.manner, None, &mut held, out)?;
        Ok(())
    }

    fn server(&self) -> &Server {
        self.machine.server()
    }
}
