//! Values at their bounds.
use std::test::Fail;
use toll_base::{Amount, BatchNo, Day, Measure, Name, OwnerKey, Refusal, Segment, Value, number};

// Names as they may be written, and what the others are refused as.
const NAMES: &[(&[u8], Option<Refusal>)] = &[
    (b"HOUSE", None),
    (b"ABCDEFGHIJKLMN-9", None),
    (b"", Some(Refusal::BadName)),
    (b"-A", Some(Refusal::BadName)),
    (b"a", Some(Refusal::BadName)),
    (b"A B", Some(Refusal::BadName)),
    (b"ABCDEFGHIJKLMNOPQ", Some(Refusal::BadName)),
];

#[test]
fn names_are_read(rt: HostRuntime) {
    for line in NAMES {
        let (text, refused) = *line;
        assert_eq!(rt; Name::parse(text).err(), refused);
    }
}

#[test]
fn keys_and_measures_are_read(rt: HostRuntime) {
    let read = (
        OwnerKey::parse(b"ACMEKEY1").err(),
        OwnerKey::parse(b"ACMEKEY").err(),
        Measure::parse(b"kg").err(),
        Measure::parse(b"kg1").err(),
    );
    let bad = Some(Refusal::BadName);
    assert_eq!(rt; read, (None, bad, None, bad));
}

#[test]
fn numbers_are_read(rt: HostRuntime) {
    let cases = [
        (b"0".as_slice(), Some(0)),
        (b"0000000042", Some(42)),
        (b"9999999999", Some(9_999_999_999)),
        (b"00000000042", None),
        (b"+5", None),
        (b"M5", None),
        (b"", None),
    ];
    for (bytes, read) in cases {
        assert_eq!(rt; number(bytes), read);
    }
}

#[test]
fn values_have_bounds(rt: HostRuntime) {
    let inside = (Amount::new(1_000_000_000).err(), Day::new(9_999_999).err());
    let outside = (
        Amount::new(0).err(),
        Amount::new(1_000_000_001).err(),
        Day::new(10_000_000).err(),
        Segment::new(51).err(),
        BatchNo::new(100).err(),
        Value::new(-1_000_000_001).err(),
    );
    let bad = Some(Refusal::BadAmount);
    assert_eq!(rt; inside, (None, None));
    assert_eq!(rt; outside, (bad, bad, bad, bad, bad, bad));
}

#[test]
fn refusals_are_reported(rt: HostRuntime) -> Result<(), Fail> {
    let last = Refusal::LimitReached;
    let shown = Refusal::Voided.to_string(rt.alloc())?;
    let reported = (last.code(), last.title(), shown.as_str());
    assert_eq!(rt; reported, (39, "LimitReached", "Voided"));
    Ok(())
}
