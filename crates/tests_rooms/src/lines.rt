//! Lines cut out of streams, read as messages and written (RFC 2812, section 2.3).
use crate::script::{ScriptRow, ScriptStage, ShownText, append, script_holds};
use irc_line::{
    Framer, LineFault, Message, Parts, Prefix, body, lines_of_pieces, parse, write_message,
};
use irc_names::first_bytes;
use std::alloc::Global;
use std::process::Abort;

/// Streams, and the lines in each, every one of them with a `|` behind it.
static STREAMS: [(&[u8], &[u8]); 6] = [
    (b"\r\n\r\n", b""),
    (b"NICK al\r\nPING x\r\n", b"NICK al|PING x|"),
    (b"NICK al\r\nUSER\0 u\nPING x\nrest", b"NICK al|PING x|"),
    (b"a\rb\nc\r\n", b"a|b|c|"),
    (b"\0\na\n", b"a|"),
    (b" a \n\n b\r", b" a | b|"),
];

/// Shows the lines of a stream.
fn show_lines(alloc: Global, stream: &[u8], shown: &mut ShownText) {
    match &lines_of_pieces(alloc, &[stream]) {
        Ok(lines) => {
            for line in lines.as_slice() {
                append(shown, line);
                append(shown, b"|");
            }
        }
        Err(_) => append(shown, b"no memory"),
    }
}

fn streams_have_their_lines(alloc: Global) -> bool {
    let mut all = true;
    for (stream, want) in &STREAMS {
        let mut shown = ShownText::new();
        show_lines(alloc, stream, &mut shown);
        all &= shown.as_slice() == *want;
    }
    all
}

/// How long the line is that begins with five bytes and goes on with so many.
fn length_of_line(more: usize) -> usize {
    let mut framer = Framer::new();
    framer.take(b"PING ");
    framer.take(first_bytes(&[b'x'; 600], more));
    match framer.take(b"\n") {
        (_, Some(line)) => line.len(),
        _ => 0,
    }
}

#[test]
fn streams_are_cut_into_lines(rt: HostRuntime) {
    assert!(rt; streams_have_their_lines(rt.alloc()));
    assert!(rt;
        length_of_line(505) == 510 && length_of_line(506) == 510 && length_of_line(600) == 510
    );
}

/// Each row: a line of a client, and what it is read as: the prefix behind a colon, the command
/// and the parameters, parted by `|`; or its fault.
const MESSAGES: &str = "\
PING = PING
ping x = ping|x
C a  : = C|a|
C a :b  c = C|a|b  c
C a:b : c = C|a:b| c
  :zz  PING   x  = :zz|PING|x
:al!u@h PRIVMSG #c ::) = :al!u@h|PRIVMSG|#c|:)
C 1 2 3 4 5 6 7 8 9 10 11 12 13 14 15 = C|1|2|3|4|5|6|7|8|9|10|11|12|13|14|15
C 1 2 3 4 5 6 7 8 9 10 11 12 13 14 x y z = C|1|2|3|4|5|6|7|8|9|10|11|12|13|14|x y z
C 1 2 3 4 5 6 7 8 9 10 11 12 13 14 :x y = C|1|2|3|4|5|6|7|8|9|10|11|12|13|14|x y
 = empty
    = empty
:al  = no command
:al = no command
  \0 = NUL
PING \0 = NUL";

fn show_message(message: &Message<'_>, shown: &mut ShownText) {
    if let Some(prefix) = message.prefix {
        append(shown, b":");
        append(shown, prefix);
        append(shown, b"|");
    }
    append(shown, message.command);
    for param in &message.params {
        append(shown, b"|");
        append(shown, param);
    }
}

/// The lines of a client that are read.
#[derive(Drop)]
struct ClientLines;

impl ScriptStage for ClientLines {
    fn perform(
        &mut self,
        _rt: &impl Abort,
        _alloc: Global,
        row: ScriptRow<'_>,
        shown: &mut ShownText,
    ) {
        append(shown, b" ");
        match parse(row.line.as_bytes()) {
            Ok(message) => show_message(&message, shown),
            Err(LineFault::Empty) => append(shown, b"empty"),
            Err(LineFault::NoCommand) => append(shown, b"no command"),
            Err(LineFault::HasNul) => append(shown, b"NUL"),
        }
    }
}

#[test]
fn lines_are_read_as_messages(rt: HostRuntime) {
    assert!(rt; script_holds(&rt, rt.alloc(), &mut ClientLines, MESSAGES));
}

/// Messages, and their lines.
static WRITTEN: [(Parts<'static>, &[u8]); 3] = [
    (
        Parts {
            prefix: Prefix::Full {
                nick: b"bo",
                user: b"u",
                host: b"h",
            },
            command: b"PRIVMSG",
            middle: &[b"al"],
            last: Some(b"hi"),
        },
        b":bo!u@h PRIVMSG al :hi\r\n",
    ),
    (
        Parts {
            prefix: Prefix::Name(b"a.net"),
            command: b"341",
            middle: &[b"al", b"#c", b"bo"],
            last: None,
        },
        b":a.net 341 al #c bo\r\n",
    ),
    (
        Parts {
            prefix: Prefix::Nothing,
            command: b"ERROR",
            middle: &[],
            last: Some(b""),
        },
        b"ERROR :\r\n",
    ),
];

fn are_written() -> bool {
    let mut all = true;
    for (parts, want) in &WRITTEN {
        all &= write_message(parts).as_slice() == *want;
    }
    all
}

/// A message whose line would have 514 bytes before its line end.
static TOO_LONG: Parts<'static> = Parts {
    prefix: Prefix::Name(b"al"),
    command: b"PRIVMSG",
    middle: &[b"#c"],
    last: Some(&[b'x'; 498]),
};

fn is_cut(parts: &Parts<'_>) -> bool {
    let text = write_message(parts);
    text.len() == 512 && text.ends_with(b"x\r\n") && body(&text).len() == 510
}

#[test]
fn messages_are_written_as_lines(rt: HostRuntime) {
    assert!(rt; are_written());
    assert!(rt; is_cut(&TOO_LONG));
}
