//! News that servers in a tree pass on.
ghost use Rattle.std.specs.Prelude.{IfOk};
ghost use Rattle.irc_relay.specs.Links.{IsForest};
ghost use Rattle.irc_relay.specs.Relay.{IsAtRest};
ghost use Rattle.irc_relay.specs.NewsNet.{net_of, links_of};

use irc_relay::news::{Edge, News};
use std::alloc::{AllocError, Global};
use std::test::Fail;

/// Four servers, the second of them linked to all others.
fn star(alloc: Global) -> Result<News, AllocError>
    ensures forest { IfOk result (λ news. IsForest (links_of news.edges.items)) }
    ensures rest { IfOk result (λ news. IsAtRest (net_of news)) }
{
    let edges = vec![in alloc;
        Edge { near: 1, far: 2 },
        Edge { near: 3, far: 2 },
        Edge { near: 2, far: 4 },
    ]?;
    Ok(News::new(alloc, edges))
}

/// Whether each server shows an item once that one of them is given, and then nothing is under way.
fn is_shown_once(news: &mut News, at: u8, item: u8) -> bool
    requires forest { IsForest (links_of news.old.edges.items) }
    requires rest { IsAtRest (net_of news.old) }
{
    let given = news.publish(at, item).is_ok() && news.settle(at).is_ok();
    given
        && news.flying.is_empty()
        && news.shown.len() == 4
        && &news.latest[1..=4] == [item; 4].as_slice()
}

#[test]
fn news_is_shown_once_everywhere(rt: HostRuntime) -> Result<(), Fail> {
    let mut news = star(rt.alloc())?;
    assert!(rt; is_shown_once(&mut news, 3, 9));
    Ok(())
}
