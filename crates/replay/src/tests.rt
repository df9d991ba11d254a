use crate::line::{Outcome, Session};
use std::alloc::AllocError;

// Each line with what becomes of it and what is printed.
const LINES: [(&[u8], Outcome, &[u8]); 31] = [
    (b"", Outcome::Done, b""),
    (b"# address 61", Outcome::Done, b""),
    (
        b"address 4140582e74",
        Outcome::Done,
        b"address 4140582e74 6140782e74 782e74\n",
    ),
    (b"address -", Outcome::Done, b"address - - none\n"),
    (
        b"address",
        Outcome::Unreadable,
        b"unreadable 7: an argument is missing\n",
    ),
    (
        b"address 61 62",
        Outcome::Unreadable,
        b"unreadable 7: there is an argument too many\n",
    ),
    (
        b"address 616",
        Outcome::Unreadable,
        b"unreadable 7: the bytes are not lower-case hex\n",
    ),
    (
        b"address 6A",
        Outcome::Unreadable,
        b"unreadable 7: the bytes are not lower-case hex\n",
    ),
    (
        b"address ",
        Outcome::Unreadable,
        b"unreadable 7: the bytes are not lower-case hex\n",
    ),
    (
        b"addres 61",
        Outcome::Unreadable,
        b"unreadable 7: no such word\n",
    ),
    (
        b"write packed 8:ff",
        Outcome::Unreadable,
        b"unreadable 7: no packed book is open\n",
    ),
    (
        b"resolve packed 0000 0000 61 - 9249:abcd 2:ee",
        Outcome::Unreadable,
        b"unreadable 7: no packed book is open\n",
    ),
    (b"open 07000000", Outcome::Done, b"fault 16 book book 4\n"),
    (
        b"write packed 8:ff",
        Outcome::Unreadable,
        b"unreadable 7: no packed book is open\n",
    ),
    (b"open 070000000000", Outcome::Done, b"accepted\n"),
    (
        b"write packed 8:ff",
        Outcome::Done,
        b"answer 070000000000 tray 070000000000ffff\n",
    ),
    (
        b"write live 8:ff",
        Outcome::Unreadable,
        b"unreadable 7: the source is not packed\n",
    ),
    (
        b"write packed 8ff",
        Outcome::Unreadable,
        b"unreadable 7: the tray is not N:hh\n",
    ),
    (
        b"resolve packed 0000 0000 61 - 9249:abcd 2:ee",
        Outcome::Done,
        b"answer 00 tray 00ee scratch zero\n  mute\n",
    ),
    (
        b"resolve_positive packed 0000 0000 61 - 9249:abcd 2:ee",
        Outcome::Done,
        b"answer 00 tray 00ee scratch zero\n  nothing\n",
    ),
    (
        b"resolve packed 0000 0000 61 - 9248:abcd 2:ee",
        Outcome::Done,
        b"fault 5 router scratch 9249 tray eeee scratch kept\n",
    ),
    (
        b"resolve packed 00 0000 61 - 2:0000 -",
        Outcome::Unreadable,
        b"unreadable 7: the tray is not N:hh\n",
    ),
    (
        b"resolve packed 00 0000 61 - 2:0000 0:00",
        Outcome::Done,
        b"fault 1 roll to 0 tray - scratch zero\n",
    ),
    (
        b"resolve live 0000 0000 61 - 9249:abcd 2:ee",
        Outcome::Unreadable,
        b"unreadable 7: the source is not packed\n",
    ),
    (
        b"resolve packed 0000 0000 61 - 9249:abc 2:ee",
        Outcome::Unreadable,
        b"unreadable 7: the scratch is not N:hhhh\n",
    ),
    (
        b"resolve packed 0000 0000 61 - 9249:abcd",
        Outcome::Unreadable,
        b"unreadable 7: an argument is missing\n",
    ),
    (
        b"resolve packed 0000 0000 61 - 9249:abcd 2:ee 61",
        Outcome::Unreadable,
        b"unreadable 7: there is an argument too many\n",
    ),
    (
        b"resolve packed 0000 0000 6 - 9249:abcd 2:ee",
        Outcome::Unreadable,
        b"unreadable 7: the bytes are not lower-case hex\n",
    ),
    (b"open 070102000000", Outcome::Done, b"accepted\n"),
    (
        b"resolve packed 0000 0000 61 - 9249:abcd 7:ee",
        Outcome::Done,
        b"answer 130001000161 tray 130001000161ee scratch zero\n  to a\n  rank all\n",
    ),
    (
        b"resolve_positive packed 0000 0000 61 - 9249:abcd 7:ee",
        Outcome::Done,
        b"answer 030001000161 tray 030001000161ee scratch zero\n  to a\n",
    ),
];

#[test]
fn lines(rt: HostRuntime) -> Result<(), AllocError> {
    let mut session = Session::new(rt.alloc());
    for (line, outcome, printed) in LINES {
        let shown = session.replay(7, line)?;
        assert_eq!(rt; shown.outcome, outcome);
        assert_eq!(rt; shown.text.as_slice(), printed);
    }
    Ok(())
}

// How much memory a line takes no clause says: a long one has just the room that it needs.
#[test]
fn room(rt: HostRuntime) -> Result<(), AllocError> {
    let lines: [&[u8]; 4] = [
        b"address -",
        b"address 4140582e74",
        b"write packed 8:ff",
        b"write packed 100000:ff",
    ];
    let mut session = Session::new(rt.alloc());
    let opened = session.replay(6, b"open 070000000000")?;
    assert_eq!(rt; opened.outcome, Outcome::Done);
    for line in lines {
        let shown = session.replay(7, line)?;
        assert_eq!(rt; shown.text.capacity(), shown.text.len());
    }
    Ok(())
}
