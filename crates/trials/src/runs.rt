use text::{is_digit, is_name_byte, run_end};

#[test]
fn to_a_line_feed(rt: HostRuntime) {
    let text = b"ab12\ncd";
    assert_eq!(rt; run_end(text, 0, |b| b != b'\n'), 4);
    assert_eq!(rt; run_end(text, 4, |b| b != b'\n'), 4);
    assert_eq!(rt; run_end(text, 5, |b| b != b'\n'), 7);
}

#[test]
fn of_digits_and_names(rt: HostRuntime) {
    let text = b"ab12\ncd";
    assert_eq!(rt; run_end(text, 0, |b| is_digit(b)), 0);
    assert_eq!(rt; run_end(text, 2, |b| is_digit(b)), 4);
    assert_eq!(rt; run_end(text, 1, |b| is_name_byte(b)), 4);
    assert_eq!(rt; run_end(text, 7, |b| is_digit(b)), 7);
    assert_eq!(rt; run_end(b"", 0, |b| is_digit(b)), 0);
}
