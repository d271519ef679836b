use std::test::Fail;
use text::{Part, Sign, part_at, parts};

#[test]
fn digits_behind_marks(rt: HostRuntime) {
    let text = b"a1:-32@7b.12";
    let sign = |at, sign| Part::Mark { at, sign };
    assert_eq!(rt; part_at(text, 0), Part::Name { at: 0, run: b"a1" });
    assert_eq!(rt; part_at(text, 2), sign(2, Sign::Colon));
    assert_eq!(rt; part_at(text, 3), sign(3, Sign::Minus));
    assert_eq!(rt; part_at(text, 4), Part::Digits { at: 4, run: b"32" });
    assert_eq!(rt; part_at(text, 6), sign(6, Sign::At));
    assert_eq!(rt; part_at(text, 7), Part::Digits { at: 7, run: b"7" });
    assert_eq!(rt; part_at(text, 8), Part::Name { at: 8, run: b"b" });
    assert_eq!(rt; part_at(text, 10), Part::Name { at: 10, run: b"12" });
}

#[test]
fn any_bytes(rt: HostRuntime) -> Result<(), Fail> {
    let text = b"A \xffz\n";
    assert_eq!(rt; part_at(text, 0), Part::Other { at: 0, byte: 65 });
    assert_eq!(rt; part_at(text, 2), Part::Other { at: 2, byte: 255 });
    assert_eq!(rt; part_at(text, 3), Part::Name { at: 3, run: b"z" });
    assert_eq!(rt; part_at(text, 5), Part::End { at: 5 });
    assert_eq!(rt; part_at(text, 99), Part::End { at: 5 });
    assert_eq!(rt; parts(rt.alloc(), text)?.len(), 5);
    assert_eq!(rt; parts(rt.alloc(), b"")?.len(), 0);
    Ok(())
}
