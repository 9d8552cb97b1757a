//! The program: its words, statuses and texts. What a script prints stands in `irc_script`.
use crate::program::run;
use std::alloc::{AllocError, Global};

/// What the program is given, and what comes of it.
struct Run {
    words: &'static [&'static str],
    script: &'static [u8],
    status: u8,
    output: &'static [u8],
    errors: &'static [u8],
}

const USAGE: &[u8] = b"ircd: usage: ircd sim | ircd serve FILE [TURNS]\n";

const PING: &[u8] = b"server a.net\nconnect a.net h\nsay 1 PING x";

static RUNS: [Run; 8] = [
    Run {
        words: &[],
        script: PING,
        status: 2,
        output: b"",
        errors: USAGE,
    },
    Run {
        words: &["Sim"],
        script: PING,
        status: 2,
        output: b"",
        errors: USAGE,
    },
    Run {
        words: &["sim", "sim"],
        script: PING,
        status: 2,
        output: b"",
        errors: USAGE,
    },
    Run {
        words: &[""],
        script: PING,
        status: 2,
        output: b"",
        errors: USAGE,
    },
    Run {
        words: &["sim"],
        script: b"server a.net\nsay 1\n",
        status: 3,
        output: b"",
        errors: b"ircd: line 2: bad script\n",
    },
    // The last line may go without its LF.
    Run {
        words: &["sim"],
        script: PING,
        status: 0,
        output: b"1 :a.net PONG a.net :x\n",
        errors: b"",
    },
    Run {
        words: &["sim"],
        script: b"",
        status: 0,
        output: b"",
        errors: b"",
    },
    // Without a server nobody is there, and what gives no line is no event.
    Run {
        words: &["sim"],
        script: b"say 1 NICK al\nsay 1 \nsay 1 \r\r\ngone 1\n",
        status: 0,
        output: b"! 3\n! 3\n",
        errors: b"",
    },
];

/// Whether the program ends so on what it is given.
fn ends_so(rt: &HostRuntime, row: &Run) -> bool {
    let mut words = Vec::new(rt.alloc());
    let mut input: &[u8] = row.script;
    let mut output = Vec::new(rt.alloc());
    let mut errors = Vec::new(rt.alloc());
    add_words(rt.alloc(), row.words, &mut words).is_ok()
        && run(rt, &words, &mut input, &mut output, &mut errors) == row.status
        && output.as_slice() == row.output
        && errors.as_slice() == row.errors
}

pub(crate) fn add_words(
    alloc: Global,
    texts: &[&str],
    words: &mut Vec<String>,
) -> Result<(), AllocError> {
    for text in texts {
        words.push(String::from_str(alloc, text)?)?;
    }
    Ok(())
}

fn end_so(rt: &HostRuntime) -> bool {
    for row in &RUNS {
        if !ends_so(rt, row) {
            return false;
        }
    }
    true
}

#[test]
fn statuses_and_their_texts(rt: HostRuntime) {
    assert!(rt; end_so(&rt));
}
