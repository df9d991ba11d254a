use crate::*;
use address::TextFault;

// Bytes, and what is said of them as a roll and of the bytes of its texts.
const ROLLS: [(&[u8], Result<(), RollFault>, Result<(), RollFault>); 8] = [
    (b"\0\0", Ok(()), Ok(())),
    (b"\0\x02\0\x01a\0\0", Ok(()), Ok(())),
    (b"\0", Err(RollFault::Count(0)), Ok(())),
    (b"\x02\x01", Err(RollFault::Count(0)), Ok(())),
    (b"\0\x01\x03\xe7", Err(RollFault::Length(2)), Ok(())),
    (b"\0\x02\0\x01a\0\x02b", Err(RollFault::Length(5)), Ok(())),
    (b"\0\x01\0\x01a\n", Err(RollFault::LeftOver(5)), Ok(())),
    (
        b"\0\x02\0\x01a\0\x02b\n",
        Ok(()),
        Err(RollFault::InText(TextFault { place: 8 })),
    ),
];

#[test]
fn checks(rt: HostRuntime) {
    for (bytes, roll, texts) in ROLLS {
        assert_eq!(rt; check_roll(bytes), roll);
        assert_eq!(rt; check_texts(bytes), texts);
    }
}

// The addresses of two rolls, and no more.
const ADDRESSES: [Option<&[u8]>; 4] = [Some(b"a"), Some(b"bc"), Some(b"d"), None];

#[test]
fn addresses(rt: HostRuntime) {
    let to = Roll::new(b"\0\x02\0\x01a\0\x02bc");
    let cc = Roll::new(b"\0\x01\0\x01d");
    for (n, text) in ADDRESSES.iter().enumerate() {
        assert_eq!(rt; address(&to, &cc, n), *text);
    }
    assert_eq!(rt;
        roll_text(b"\xff\0\x02\0\x01a\0\x02bc", 1, 1),
        Some(b"bc".as_slice())
    );
}

#[test]
fn writes(rt: HostRuntime) {
    let texts: [&[u8]; 2] = [b"a", b"bc"];
    let mut tray = [7; 10];
    assert_eq!(rt;
        write_roll(&texts, &mut tray[..8]),
        Err(WriteFault::Tray(9))
    );
    assert_eq!(rt; tray, [7; 10]);
    assert_eq!(rt; write_roll(&texts, &mut tray), Ok(9));
    assert_eq!(rt; tray.as_slice(), b"\0\x02\0\x01a\0\x02bc\x07".as_slice());
}
