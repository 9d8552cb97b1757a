//! Four servers, three of them linked in a line.
ghost use Rattle.std.specs.Prelude.{◌<◌, length, IfSome};
ghost use Rattle.irc_names.specs.Names.{IsServer};

use crate::script::{ScriptRow, ScriptStage, ShownText, append, script_holds};
use irc_forest::{Forest, ServerPlace};
use irc_names::ServerName;
use std::alloc::{AllocError, Global};
use std::process::Abort;

/// `link` links two servers and `cut` takes out the link between two; `two` shows whether two are
/// linked, and whether they are joined.
const IN_LINE: &str = "\
link a.net b.net =
link c.net b.net =
two a.net a.net = joined
two a.net b.net = linked joined
two b.net a.net = linked joined
two a.net c.net = joined
two b.net c.net = linked joined
two d.net a.net =";

const ONCE_CUT: &str = "\
link a.net b.net =
link c.net b.net =
cut b.net a.net =
two a.net b.net =
two a.net c.net =
two c.net b.net = linked joined
two a.net a.net = joined";

/// The server of this name.
fn server(name: &[u8]) -> ServerName
    requires { IsServer name.now }
{
    let Some(name) = ServerName::read(name) else {
        unreachable!();
    };
    name
}

/// Four servers with no link.
#[tactic(auto, unfolding(irc_names::specs::Names::is_server))]
fn apart(alloc: Global) -> Result<Forest, AllocError> {
    let names = vec![in alloc;
        server(b"a.net"),
        server(b"b.net"),
        server(b"c.net"),
        server(b"d.net"),
    ]?;
    Ok(Forest::new(alloc, names))
}

/// The place of a server.
fn place(forest: &Forest, name: &str) -> Option<ServerPlace>
    ensures { IfSome result (λ place. place < length forest.now.names) }
{
    forest.place_of(&ServerName::read(name.as_bytes())?)
}

fn show_two(linked: bool, joined: bool, shown: &mut ShownText) {
    append(shown, if linked { b" linked" } else { b"" });
    append(shown, if joined { b" joined" } else { b"" });
}

fn show_linked(linked: Result<(), AllocError>, shown: &mut ShownText) {
    append(shown, if linked.is_ok() { b"" } else { b" no memory" });
}

impl ScriptStage for Forest {
    fn perform(
        &mut self,
        _rt: &impl Abort,
        _alloc: Global,
        row: ScriptRow<'_>,
        shown: &mut ShownText,
    ) {
        match (place(self, row.first), place(self, row.second)) {
            (Some(near), Some(far)) => match row.verb {
                "link" => show_linked(self.link(near, far), shown),
                "cut" => self.cut(near, far),
                _ => show_two(
                    self.are_linked(near, far),
                    self.are_joined(near, far),
                    shown,
                ),
            },
            _ => append(shown, b" no server"),
        }
    }
}

/// Whether a script holds of four servers with no link.
fn servers_hold(rt: &impl Abort, alloc: Global, script: &str) -> bool {
    match apart(alloc) {
        Ok(mut forest) => script_holds(rt, alloc, &mut forest, script),
        Err(_) => false,
    }
}

#[test]
fn three_in_a_line(rt: HostRuntime) {
    assert!(rt; servers_hold(&rt, rt.alloc(), IN_LINE));
}

#[test]
fn a_cut_parts_them(rt: HostRuntime) {
    assert!(rt; servers_hold(&rt, rt.alloc(), ONCE_CUT));
}
