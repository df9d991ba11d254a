use crate::policy::reply_of;
use crate::*;
use address::TextFault;
use roll::RollFault;

// Bytes, whether they are asked as defaults, and what is said of them as a record.
const RECORDS: [(&[u8], bool, Result<(), RecordFault>); 8] = [
    (b"\x07\0\0\0", true, Ok(())),
    (b"\0", false, Ok(())),
    (b"\0", true, Err(RecordFault::Field(0))),
    (b"\x20", false, Err(RecordFault::Field(0))),
    (b"\x06\0\x02", false, Err(RecordFault::Field(2))),
    (
        b"\x08\0\0",
        false,
        Err(RecordFault::InRoll(RollFault::Count(1))),
    ),
    (b"\x10\0\x01\0\x01a", false, Ok(())),
    (b"\x01\x07\n", false, Err(RecordFault::LeftOver(2))),
];

#[test]
fn records(rt: HostRuntime) {
    for (bytes, full, said) in RECORDS {
        assert_eq!(rt; check_record(bytes, full), said);
    }
}

// A record behind another byte, with all its fields: replies to author and recipients, author hears, muted.
const PLACED: &[u8] = b"\xff\x1f\x05\x01\x01\0\x02\0\x01a\0\x02bc\0\x01\0\x01\n";

#[test]
fn fields(rt: HostRuntime) {
    assert_eq!(rt; record_end(PLACED, 1, true), Ok(19));
    assert!(rt;
        Record::new(PLACED, 1).reply_to() == Some(reply_of(5))
            && Record::new(PLACED, 2).reply_to() == Some(reply_of(1))
    );
    assert!(rt; Record::new(PLACED, 1).positive_review() == Some(PositiveReviewPolicy::Author));
    assert_eq!(rt; Record::new(PLACED, 1).mute_all(), Some(true));
    assert_eq!(rt; Record::new(PLACED, 1).cc(1), Some(b"bc".as_slice()));
    assert_eq!(rt;
        Record::new(PLACED, 1).ignored_email(0),
        Some(b"\n".as_slice())
    );
    assert_eq!(rt; Record::new(PLACED, 99).cc(0), None);
    assert_eq!(rt;
        Record::new(PLACED, 1).check_cc(b"<BC>"),
        Err(PolicyFault::OwnAddress(10))
    );
    let bad = RollFault::InText(TextFault { place: 18 });
    assert_eq!(rt;
        Record::new(PLACED, 1).check_texts(),
        Err(RecordFault::InRoll(bad))
    );
}

// Each key, and what is said of it.
const KEYS: [(&[u8], Result<(), KeyFault>); 5] = [
    (b"l@x.test", Ok(())),
    (b"x.test", Err(KeyFault::NoAt(7))),
    (b"l@x", Err(KeyFault::Sides(7))),
    (b"<>@x.y", Err(KeyFault::NoBare(7))),
    (b"l@\x7f", Err(KeyFault::InText(TextFault { place: 2 }))),
];

#[test]
fn keys(rt: HostRuntime) {
    for (key, said) in KEYS {
        assert_eq!(rt; check_key(key, 7, 0, key.len()), said);
    }
    assert!(rt; rises(b"z <a@x.test>", b"b@x.test") && rises(b"A@x.test", b"a@x.test"));
    assert!(rt; !rises(b"a@x.test", b"a@x.test") && !rises(b"b@x.test", b"A@x.test"));
    let told = Report::from(PolicyFault::Key(KeyFault::Sides(7)));
    assert!(rt;
        told == Report {
            number: 9,
            layer: Layer::Book,
            part: Part::Key,
            place: 7,
        }
    );
}
