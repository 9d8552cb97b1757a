//! Lines that cross on a link: at rest both servers are one room, and each client has received what
//! happened at its own server, in order.
use crate::pair::text_holds;

/// Both set a topic before they hear of the other's: the greater stays, in whichever order the two
/// lines are delivered. Who has set it is shown nothing of the other, which is not done there.
static TOPICS: &str = "\
a TOPIC #c :one
b TOPIC #c :two
al :al!u@h TOPIC #c :one
bo :bo!u@h TOPIC #c :two
topic-a one
topic-b two
to-b
topic-b two
to-a
topic two
rest
topic two
al :bo!u@h TOPIC #c :two";

static TOPICS_OTHER_WAY: &str = "\
b TOPIC #c :two
a TOPIC #c :one
to-a
topic two
to-b
topic two
rest
topic two
al :al!u@h TOPIC #c :one
al :bo!u@h TOPIC #c :two
bo :bo!u@h TOPIC #c :two";

/// Where nothing crosses, the later one stays, though it is the lesser.
static TOPICS_IN_TURN: &str = "\
b TOPIC #c :two
rest
a TOPIC #c :one
rest
topic one
al :bo!u@h TOPIC #c :two
al :al!u@h TOPIC #c :one
bo :bo!u@h TOPIC #c :two
bo :al!u@h TOPIC #c :one";

/// The link is lost before either line is delivered, and made again: the greater stays as well.
static TOPICS_LOST: &str = "\
a TOPIC #c :one
b TOPIC #c :two
cut
topic-a one
topic-b two
al :al!u@h TOPIC #c :one
al :bo!u@h QUIT :a.net b.net
bo :bo!u@h TOPIC #c :two
bo :al!u@h QUIT :b.net a.net
link
rest
topic two
forget";

#[test]
fn topics_that_cross_are_one_at_rest(rt: HostRuntime) {
    assert!(rt; text_holds(&rt, rt.alloc(), TOPICS));
    assert!(rt; text_holds(&rt, rt.alloc(), TOPICS_OTHER_WAY));
    assert!(rt; text_holds(&rt, rt.alloc(), TOPICS_IN_TURN));
    assert!(rt; text_holds(&rt, rt.alloc(), TOPICS_LOST));
}
