//! What is given to a network.
ghost use Rattle.std.specs.Prelude.{◌≡◌, [], OnOk};
ghost use Rattle.irc_network.specs.Calls.{IsItemGiven};
ghost use Rattle.irc_network.specs.Loops.Progress.{IsAskedIf, IsDone, IsHomeAsked, way_closed};
ghost use Rattle.irc_network.specs.Loops.Progress.{way_opened};
ghost use Rattle.irc_network.specs.Views.{item_of};
ghost use Rattle.irc_network.specs.Whole.{IsTidy};
ghost use Rattle.irc_world.specs.Stepping.{connect, cut, line as line_by, link};

use crate::call_output::CallOutput;
use crate::client_number::ClientNumber;
use crate::history::History;
use crate::item::Item;
use crate::network::Network;
use irc_forest::ServerPlace;
use irc_line::Line;
use irc_names::{Host, ServerName, copied};
use irc_server::Event;
use std::alloc::AllocError;

impl<H: History> Network<H> {
    /// An item that is not refused is taken, and kept, and what servers put out upon it is written.
    /// What clients receive by it is in the output, in which nothing is before.
    ///
    /// # Errors
    /// Where memory runs out: nothing is promised of the network then, and nothing more is to be
    /// asked of it.
    pub fn give(&mut self, item: Item, output: &mut CallOutput) -> Result<(), AllocError>
        requires tidy { IsTidy self.old }
        requires begins { output.old.lines.items ≡ [] }
        ensures { OnOk result (IsItemGiven (item_of item) self.old self.new output.new) }
    {
        self.do_item(&item, output)?;
        self.history.add_item(item)?;
        self.taken = 0;
        Ok(())
    }

    /// What an item does.
    fn do_item(&mut self, item: &Item, output: &mut CallOutput) -> Result<(), AllocError>
        requires tidy { IsTidy self.old }
        requires begins { output.old.lines.items ≡ [] }
        ensures { OnOk result (IsDone (item_of item.now) self.old self.new output.new) }
    {
        match item {
            Item::Connect(server, host) => self.connect(server, host, output),
            Item::Line(client, line) => self.say(*client, line, output),
            Item::Gone(client) => self.ask_home(*client, &Event::Gone(client.number()), output),
            Item::Link(near, far) => self.link(near, far, output),
            Item::Cut(near, far) => self.cut(near, far, output),
        }
    }

    /// A client says a line.
    fn say(
        &mut self,
        client: ClientNumber,
        line: &Line,
        output: &mut CallOutput,
    ) -> Result<(), AllocError>
        requires tidy { IsTidy self.old }
        requires begins { output.old.lines.items ≡ [] }
        ensures { OnOk result
            (IsDone (line_by client line.now.items) self.old self.new output.new) }
    {
        let event = Event::Line(client.number(), copied(line.as_slice()));
        self.ask_home(client, &event, output)
    }

    /// A client connects to a server from a host. Its number is the next.
    fn connect(
        &mut self,
        server: &ServerName,
        host: &Host,
        output: &mut CallOutput,
    ) -> Result<(), AllocError>
        requires tidy { IsTidy self.old }
        requires begins { output.old.lines.items ≡ [] }
        ensures { OnOk result (IsDone (connect server.now host.now) self.old self.new output.new) }
    {
        let client = self.next_client();
        self.homes.reserve(1)?;
        self.history.add_client()?;
        self.homes.push(server.copy())?;
        let place = self.forest.place_of(server);
        self.ask_if(place, &Event::Connect(client.number(), host.copy()), output)
    }

    /// The server that a client has connected to is asked for an event.
    fn ask_home(
        &mut self,
        client: ClientNumber,
        event: &Event,
        output: &mut CallOutput,
    ) -> Result<(), AllocError>
        requires tidy { IsTidy self.old }
        ensures { OnOk result
            (IsHomeAsked client event.now self.old output.old self.new output.new) }
    {
        self.ask_if(self.home_place(client), event, output)
    }

    /// A server is asked for an event, if it is there.
    fn ask_if(
        &mut self,
        place: Option<ServerPlace>,
        event: &Event,
        output: &mut CallOutput,
    ) -> Result<(), AllocError>
        requires tidy { IsTidy self.old }
        ensures { OnOk result (IsAskedIf place event.now self.old output.old self.new output.new) }
    {
        match place {
            Some(place) => self.ask(place, event, output),
            None => Ok(()),
        }
    }

    /// Two servers are linked, the first of them calling.
    fn link(
        &mut self,
        near: &ServerName,
        far: &ServerName,
        output: &mut CallOutput,
    ) -> Result<(), AllocError>
        requires tidy { IsTidy self.old }
        requires begins { output.old.lines.items ≡ [] }
        ensures { OnOk result (IsDone (link near.now far.now) self.old self.new output.new) }
    {
        irc_pipes::laws::same_pipes();
        let Some(ends) = self.ends_of(near, far) else {
            return Ok(());
        };
        self.forest.link(ends.near, ends.far)?;
        self.open_way(ends.near, ends.far)?;
        self.open_way(ends.far, ends.near)?;
        let calls = Event::LinkUp(ends.far.link(), Some(far.copy()));
        self.ask(ends.near, &calls, output)?;
        self.ask(ends.far, &Event::LinkUp(ends.near.link(), None), output)
    }

    /// The link between two servers is lost, at the first of them first, with all that is on its
    /// way there.
    fn cut(
        &mut self,
        near: &ServerName,
        far: &ServerName,
        output: &mut CallOutput,
    ) -> Result<(), AllocError>
        requires tidy { IsTidy self.old }
        requires begins { output.old.lines.items ≡ [] }
        ensures { OnOk result (IsDone (cut near.now far.now) self.old self.new output.new) }
    {
        irc_pipes::laws::same_pipes();
        let Some(ends) = self.ends_of(near, far) else {
            return Ok(());
        };
        self.forest.cut(ends.near, ends.far);
        self.close_way(ends.near, ends.far);
        self.close_way(ends.far, ends.near);
        self.ask(ends.near, &Event::LinkDown(ends.far.link()), output)?;
        self.ask(ends.far, &Event::LinkDown(ends.near.link()), output)
    }

    /// A way goes from one server to another.
    fn open_way(&mut self, from: ServerPlace, to: ServerPlace) -> Result<(), AllocError>
        ensures { OnOk result (self.new ≡ way_opened from to self.old) }
    {
        match self.nodes.get_mut(from.index()) {
            Some(node) => node.open_way(to.link()),
            None => Ok(()),
        }
    }

    /// No way goes from one server to another any more. What is on its way there is lost, and the
    /// framer at its end begins anew.
    fn close_way(&mut self, from: ServerPlace, to: ServerPlace)
        ensures { self.new ≡ way_closed from to self.old }
    {
        self.pipes.close(from, to);
        if let Some(node) = self.nodes.get_mut(from.index()) {
            node.close_way(to.link());
        }
    }
}
