use crate::*;

// Each text with its address, and the domain of that, or nothing.
const ADDRESSES: [(&[u8], &[u8], Option<&[u8]>); 9] = [
    (b"Ann <A@X.test>", b"A@X.test", Some(b"X.test")),
    (b" b@x.test ", b"b@x.test", Some(b"x.test")),
    (b"<c@x.test", b"<c@x.test", Some(b"x.test")),
    (b"\"L <l@x.test>\" <d@x.test>", b"d@x.test", Some(b"x.test")),
    (b"<>", b"", None),
    (b"\"e <f@x.test>", b"f@x.test", Some(b"x.test")),
    (b"\"a\\\"<b\" <c@x> <d@x>", b"c@x", Some(b"x")),
    (b"\"a@b\"@c.test", b"\"a@b\"@c.test", Some(b"c.test")),
    (b"\tnobody\t", b"nobody", None),
];

#[test]
fn addresses(rt: HostRuntime) {
    for (text, part, at) in ADDRESSES {
        assert_eq!(rt; address_part(text), part);
        assert_eq!(rt; domain(part), at);
    }
}

#[test]
fn texts(rt: HostRuntime) {
    assert!(rt; same_bare(b"Ann <A@X.test>", b" a@x.TEST") && !same_bare(b"a@x.test", b"b@x.test"));
    assert!(rt; contains_small(b"Hello World", b"LO W") && contains_small(b"", b""));
    assert!(rt; !contains_small(b"Hello", b"Hello!") && !contains_small(b"aab", b"ab "));
    assert_eq!(rt; check_text(b"ab\tc\n"), Err(TextFault { place: 4 }));
    assert_eq!(rt; check_text_within(b"\nab\x7f\n", 1, 3), Ok(()));
    assert_eq!(rt;
        check_text_within(b"\nab\x7f\n", 1, 9),
        Err(TextFault { place: 3 })
    );
}
