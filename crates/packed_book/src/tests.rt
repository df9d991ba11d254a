use crate::*;
use email_policy::{KeyFault, PolicyFault, PolicySource};

// Two lists, of which the second sends a copy.
const BOOK: &[u8] = b"\x07\0\0\0\0\x02\0\x08a@x.test\0\0\x08b@x.test\x08\0\x01\0\x08s@x.test";

// Books that are refused, with their first fault.
const REFUSED: [(&[u8], OpenFault); 6] = [
    (b"\x07\0\0\0\x01\x01", OpenFault::Size(4)),
    (b"\x07\0\0\0\0\x01\0\x09a@x.test", OpenFault::Size(6)),
    (
        b"\x07\0\0\0\0\x01\0\x03a@x\0",
        OpenFault::InPolicy(PolicyFault::Key(KeyFault::Sides(6))),
    ),
    (
        b"\x07\0\0\0\0\x01\0\x08a@x.test\x08\0\x01\0\x08A@x.test",
        OpenFault::InPolicy(PolicyFault::OwnAddress(19)),
    ),
    (
        b"\x07\0\0\0\0\x02\0\x08a@x.test\0\0\x08a@x.test\0",
        OpenFault::Order(17),
    ),
    (b"\x07\0\0\0\0\0\0", OpenFault::LeftOver(6)),
];

#[test]
fn opens(rt: HostRuntime) {
    let mut book = first_hour();
    assert_eq!(rt; book.len(), 0);
    assert_eq!(rt; book.open(BOOK), Ok(()));
    for (refused, fault) in REFUSED {
        assert_eq!(rt; book.open(refused), Err(fault));
    }
    assert_eq!(rt; book.len(), 2);
    assert_eq!(rt; book.key(0), Some(b"a@x.test".as_slice()));
    assert_eq!(rt; book.key(2), None);
    assert!(rt; book.cc(1, 0) == Some(b"s@x.test".as_slice()));
    assert_eq!(rt; book.default_mute_all(), false);
}

#[test]
fn writes(rt: HostRuntime) {
    let mut book = first_hour();
    let mut short = [9; 5];
    let refusal = write_book(&book, &mut short);
    assert_eq!(rt; refusal, Err(TrayTooShort { needed: 6 }));
    assert_eq!(rt; short, [9; 5]);
    let mut long = [9; 7];
    assert_eq!(rt; write_book(&book, &mut long), Ok(6));
    assert_eq!(rt; long, [7, 0, 0, 0, 0, 0, 9]);
    assert_eq!(rt; book.open(BOOK), Ok(()));
    let mut tray = [9; 40];
    assert_eq!(rt; write_book(&book, &mut tray), Ok(40));
    assert_eq!(rt; tray.as_slice(), BOOK);
}
