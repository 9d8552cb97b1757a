//! Scripts that come in pieces, and clients of a script that are not there.
use crate::message_tests::LONG;
use crate::running::{prints, prints_in_pieces};

#[test]
fn a_script_may_come_in_pieces(rt: HostRuntime) {
    let alloc = rt.alloc();
    assert!(rt;
        prints_in_pieces(alloc, 1, 3, LONG)
            && prints_in_pieces(alloc, 2, 3, LONG)
            && prints_in_pieces(alloc, 509, 3, LONG)
    );
}

/// The first client is al, the second connects at the end.
const NOBODY: &str = "\
> say 0 PING x
! 3
> say 2 PING x
! 3
> gone 2
! 3
> gone 18446744073709551615
! 3
> connect a.net h
> say 2 PING x
2 :a.net PONG a.net :x
";

#[test]
fn clients_that_are_not_there_are_refused(rt: HostRuntime) {
    assert!(rt; prints(rt.alloc(), 1, NOBODY));
}
