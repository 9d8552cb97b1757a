//! Names and masks (RFC 2812, sections 2.2, 2.3.1 and 2.5), in scripts whose verbs are these.
//!
//! - `fold BYTES` shows the fold of each byte at its place.
//! - `KIND BYTES` shows whether these bytes, to the end, are a name of the kind.
//! - `match MASK TEXT` shows whether the mask matches the text.
//! - `order KIND NAME NAME` shows whether the names are the same, or the first comes before the
//!   second. The kind `exact` is of nicknames as they are spelled.
//! - `clean BYTES` shows what is left of them in a user name.
use crate::script::{
    ScriptRow, ScriptStage, ShownText, append, append_word, script_holds, show_flag,
};
use irc_names::{
    BanMask, ChannelName, Exact, Host, Nick, ServerName, UserName, fold, is_away, is_ban_mask,
    is_channel, is_host, is_key, is_nick, is_server, mask_matches,
};
use std::alloc::Global;
use std::cmp::Ordering;
use std::hash::{DefaultHasher, Hash, Hasher};
use std::process::Abort;

const FOLDS: &str = "\
fold ABCDEFGHIJKLMNOPQRSTUVWXYZ[]\\~ = abcdefghijklmnopqrstuvwxyz{}|^
fold abcdefghijklmnopqrstuvwxyz{}|^ = abcdefghijklmnopqrstuvwxyz{}|^
fold \0@_`0/:\x7FÄÖä = \0@_`0/:\x7FÄÖä";

const NAMES: &str = "\
nick a9 = yes
nick `a-] = yes
nick []\\`_^{| = yes
nick } = yes
nick abcdefghijklmnopqrstuvwxyzabcd = yes
nick abcdefghijklmnopqrstuvwxyzabcde = no
nick 9a = no
nick -a = no
nick a.b = no
nick ~a = no
nick a b = no
nick  = no
channel # = yes
channel #c## = yes
channel #C&+! = yes
channel #2345678901234567890123456789012345678901234567890 = yes
channel #23456789012345678901234567890123456789012345678901 = no
channel c = no
channel &c = no
channel +c = no
channel !c = no
channel #a b = no
channel #a,b = no
channel #a:b = no
channel #\x07 = no
channel #\0 = no
channel  = no
host 0::1 = yes
host H-1.net = yes
host 123456789012345678901234567890123456789012345678901234567890123 = yes
host 1234567890123456789012345678901234567890123456789012345678901234 = no
host ::1 = no
host a_b = no
host  = no
server a.net = yes
server 0-. = yes
server .23456789012345678901234567890123456789012345678901234567890123 = yes
server .234567890123456789012345678901234567890123456789012345678901234 = no
server anet = no
server A.net = no
server a_b.net = no
server  = no
away at lunch, back at 1: = yes
away : = yes
away  = no
away a\0 = no
away a\rb = no
key a: = yes
key !~ = yes
key 12345678901234567890123 = yes
key 123456789012345678901234 = no
key :a = no
key a,b = no
key a b = no
key \x7F = no
key  = no
mask a!*@* = yes
mask \0 = yes
mask 12345678901234567890123456789012345678901234567890123456789012345678901234567890\
1234567890 = yes
mask 12345678901234567890123456789012345678901234567890123456789012345678901234567890\
12345678901 = no
mask :a = no
mask a b = no
mask  = no
clean a b!c@~d-._x = a_b_c_~d-.";

const MASKS: &str = "\
match [x* {Xyz = yes
match a\\b a|b = yes
match a?c ac = no
match a?c abc = yes
match \\\\* \\* = yes
match \\\\* \\x = no
match \\ \\ = yes
match a\\*b a*b = yes
match a\\*b axb = no
match a\\?b a?b = yes
match a\\?b axb = no
match *ab*b aab = no
match *ab aab = yes
match a*b*c aXbbYc = yes
match a*b*c aXbbYcd = no
match * abc = yes
match **  = yes
match a  = no
match ?  = no";

const ORDER: &str = "\
order nick foo[ FOO{ = same
order nick a [ = less
order nick foo foo[ = less
order nick ab B = less
order channel #Rust~ #rUST^ = same
order channel #rust~ #rust^^ = less
order mask *!*@A *!*@a = same
order mask *!*@A *!*@b = less
order host h h = same
order host H h = less
order server a.net a.net = same
order server a.net b.net = less
order exact foo[ foo[ = same
order exact FOO{ foo[ = less
order exact foo[ GOO = less";

/// A text that a mask of many `*` nearly matches: a search that tried each split would not end.
static LONG_TEXT: [u8; 10_000] = [b'a'; 10_000];

fn show_folds(bytes: &[u8], shown: &mut ShownText) {
    append(shown, b" ");
    for byte in bytes {
        append(shown, &[fold(*byte)]);
    }
}

fn show_name(kind: &str, bytes: &[u8], shown: &mut ShownText) {
    let is_one = match kind {
        "nick" => is_nick(bytes),
        "channel" => is_channel(bytes),
        "host" => is_host(bytes),
        "server" => is_server(bytes),
        "key" => is_key(bytes),
        "away" => is_away(bytes),
        "mask" => is_ban_mask(bytes),
        _ => return append(shown, b" no verb"),
    };
    show_flag(is_one, shown);
}

/// What a value hashes to.
fn hash_of<T: Hash>(value: &T) -> u64 {
    let mut state = DefaultHasher::new();
    value.hash(&mut state);
    state.finish()
}

/// Whether two values are the same, or the first comes before the second, by their own comparison.
fn relation<T: Ord + Hash>(left: &T, right: &T) -> &'static [u8] {
    let order = left.cmp(right);
    let agree = left.partial_cmp(right) == Some(order);
    let same = left == right;
    if agree && same && order.is_eq() && hash_of(left) == hash_of(right) {
        b" same"
    } else if agree && !same && order.is_lt() {
        b" less"
    } else {
        b" other"
    }
}

/// How two names relate, where both are there.
fn relation_of<T: Ord + Hash + Drop>(left: Option<T>, right: Option<T>) -> &'static [u8] {
    match (&left, &right) {
        (Some(left), Some(right)) => relation(left, right),
        _ => b" no name",
    }
}

fn exact(bytes: &[u8]) -> Option<Exact<Nick>> {
    match Nick::read(bytes) {
        Some(nick) => Some(Exact(nick)),
        None => None,
    }
}

fn names_relate(kind: &str, left: &[u8], right: &[u8]) -> &'static [u8] {
    match kind {
        "nick" => relation_of(Nick::read(left), Nick::read(right)),
        "channel" => relation_of(ChannelName::read(left), ChannelName::read(right)),
        "mask" => relation_of(BanMask::read(left), BanMask::read(right)),
        "host" => relation_of(Host::read(left), Host::read(right)),
        "server" => relation_of(ServerName::read(left), ServerName::read(right)),
        "exact" => relation_of(exact(left), exact(right)),
        _ => b" no kind",
    }
}

/// The words of the scripts of this file.
#[derive(Drop)]
struct Names;

impl ScriptStage for Names {
    fn perform(
        &mut self,
        _rt: &impl Abort,
        _alloc: Global,
        row: ScriptRow<'_>,
        shown: &mut ShownText,
    ) {
        let (first, second) = (row.first.as_bytes(), row.second.as_bytes());
        match row.verb {
            "fold" => show_folds(first, shown),
            "match" => show_flag(mask_matches(first, second), shown),
            "order" => append(shown, names_relate(row.first, second, row.text.as_bytes())),
            "clean" => append_word(shown, b"", UserName::clean(row.words.as_bytes()).as_bytes()),
            _ => show_name(row.verb, row.words.as_bytes(), shown),
        }
    }
}

fn names_hold(rt: &impl Abort, alloc: Global, script: &str) -> bool {
    script_holds(rt, alloc, &mut Names, script)
}

#[test]
fn names_are_told_folded_and_compared_as_the_standard_says(rt: HostRuntime) {
    assert!(rt; names_hold(&rt, rt.alloc(), FOLDS));
    assert!(rt; names_hold(&rt, rt.alloc(), ORDER));
    assert!(rt; names_hold(&rt, rt.alloc(), NAMES));
}

#[test]
fn masks_match_texts(rt: HostRuntime) {
    assert!(rt; names_hold(&rt, rt.alloc(), MASKS));
    assert!(rt; !mask_matches(b"*a*a*a*a*a*a*b", &LONG_TEXT));
}
