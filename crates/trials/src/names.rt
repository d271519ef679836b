use std::test::Fail;
use text::{Badge, Kind, Word};

// Whether a kind has a name of the text.
fn is_named<K: Kind>(bytes: &[u8]) -> bool {
    K::of_text(bytes).is_some()
}

// Whether a name of the text is there, and is written back as that text at the front of a buffer of 16.
fn returns<K: Kind>(bytes: &[u8], whole: &[u8; 16]) -> bool {
    let mut buffer = *b"................";
    K::of_text(bytes).is_some_and(|name| name.write(&mut buffer).is_some()) && buffer == *whole
}

// Whether two texts have names, and these are the same.
fn same<K: Kind>(one: &[u8], other: &[u8]) -> bool {
    match (K::of_text(one), K::of_text(other)) {
        (Some(x), Some(y)) => x.same(&y),
        _ => false,
    }
}

#[test]
fn words(rt: HostRuntime) {
    assert!(rt; is_named::<Word>(b"a"));
    assert!(rt; is_named::<Word>(b"abcdefghijkl"));
    assert!(rt; !is_named::<Word>(b"abcdefghijklm"));
    assert!(rt; !is_named::<Word>(b""));
    assert!(rt; !is_named::<Word>(b"a1"));
    assert!(rt; !is_named::<Word>(b"A"));
    assert!(rt; returns::<Word>(b"weighin", b"weighin........."));
    assert!(rt; same::<Word>(b"front", b"front"));
    assert!(rt; !same::<Word>(b"front", b"fronts"));
}

#[test]
fn badges(rt: HostRuntime) {
    assert!(rt; is_named::<Badge>(b"0"));
    assert!(rt; is_named::<Badge>(b"65535"));
    assert!(rt; !is_named::<Badge>(b"65536"));
    assert!(rt; !is_named::<Badge>(b"07"));
    assert!(rt; !is_named::<Badge>(b""));
    assert!(rt; !is_named::<Badge>(b"1a"));
    assert!(rt; returns::<Badge>(b"65535", b"65535..........."));
    assert!(rt; same::<Badge>(b"12", b"12"));
    assert!(rt; !same::<Badge>(b"12", b"120"));
}

#[test]
fn short_buffer(rt: HostRuntime) -> Result<(), Fail> {
    let word = Word::of_text(b"rear").ok_or("a name")?;
    let mut buffer = *b"xyz";
    assert_eq!(rt; word.write(&mut buffer), None);
    assert_eq!(rt; buffer, *b"xyz");
    Ok(())
}
