use std::test::Fail;
use text::{Badge, Entry, Kind, Word, add, find, gather};

#[test]
fn first_appearance(rt: HostRuntime) -> Result<(), Fail> {
    let a = Word::of_text(b"a").ok_or("a name")?;
    let b = Word::of_text(b"b").ok_or("a name")?;
    let c = Word::of_text(b"c").ok_or("a name")?;
    let mut names = [c; 4];
    assert_eq!(rt; gather(&[b, a, b, a, a], &mut names), Some(2));
    assert_eq!(rt; find(&names[0..2], &a), Some(1));
    assert_eq!(rt; find(&names[0..2], &c), None);
    assert_eq!(rt; find(&names, &c), Some(2));
    Ok(())
}

#[test]
fn no_room(rt: HostRuntime) -> Result<(), Fail> {
    let one = Badge::of_text(b"1").ok_or("a name")?;
    let two = Badge::of_text(b"2").ok_or("a name")?;
    let ten = Badge::of_text(b"10").ok_or("a name")?;
    let mut names = [ten; 2];
    assert_eq!(rt; gather(&[one, two, one, ten], &mut names), None);
    assert_eq!(rt; find(&names, &one), Some(0));
    assert_eq!(rt; find(&names, &two), Some(1));
    assert_eq!(rt; find(&names, &ten), None);
    Ok(())
}

#[test]
fn one_by_one(rt: HostRuntime) -> Result<(), Fail> {
    let one = Badge::of_text(b"1").ok_or("a name")?;
    let two = Badge::of_text(b"2").ok_or("a name")?;
    let nine = Badge::of_text(b"9").ok_or("a name")?;
    let mut names = [two; 2];
    assert_eq!(rt; add(&mut names, 0, one), Some(Entry::New(0)));
    assert_eq!(rt; add(&mut names, 1, one), Some(Entry::Known(0)));
    assert_eq!(rt; add(&mut names, 1, two), Some(Entry::New(1)));
    assert_eq!(rt; add(&mut names, 7, two), Some(Entry::Known(1)));
    assert_eq!(rt; add(&mut names, 2, nine), None);
    Ok(())
}
