use text::{bay, correction, number, write_number};

#[test]
fn corrections(rt: HostRuntime) {
    assert_eq!(rt; correction(true, b"32768"), Some(-32768));
    assert_eq!(rt; correction(false, b"32767"), Some(32767));
    assert_eq!(rt; correction(false, b"32768"), None);
    assert_eq!(rt; correction(true, b"32769"), None);
    assert_eq!(rt; correction(false, b"0"), None);
    assert_eq!(rt; correction(true, b"0"), None);
    assert_eq!(rt; correction(false, b"01"), None);
    assert_eq!(rt; correction(true, b""), None);
    assert_eq!(rt; correction(false, b"1x"), None);
}

#[test]
fn bays(rt: HostRuntime) {
    assert_eq!(rt; bay(b"0"), Some(0));
    assert_eq!(rt; bay(b"63"), Some(63));
    assert_eq!(rt; bay(b"64"), None);
    assert_eq!(rt; bay(b"00"), None);
    assert_eq!(rt; bay(b"007"), None);
}

#[test]
fn long_runs(rt: HostRuntime) {
    assert_eq!(rt; number(b"4294967295", 0, 4294967295), Some(4294967295));
    assert_eq!(rt; number(b"4294967296", 0, 4294967295), None);
    assert_eq!(rt;
        number(b"99999999999999999999999999999999999999", 0, 4294967295),
        None
    );
    assert_eq!(rt; number(b"5", 6, 9), None);
}

#[test]
fn writing(rt: HostRuntime) {
    let mut buffer = *b"xxxxx";
    assert_eq!(rt; write_number(407, &mut buffer), Some(3));
    assert_eq!(rt; buffer, *b"407xx");
    assert_eq!(rt; write_number(0, &mut buffer), Some(1));
    assert_eq!(rt; buffer, *b"007xx");
    assert_eq!(rt; write_number(123456, &mut buffer), None);
    assert_eq!(rt; buffer, *b"007xx");
}
