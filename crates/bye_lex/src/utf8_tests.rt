//! Bytes that end within a character, from the table of RFC 3629, section 4.

use super::*;

#[test]
fn decodes(rt: HostRuntime) {
    for (bytes, text, left, begins) in [
        (b"".as_slice(), "", 0, true),
        (
            b"a\xC3\xA9\xE2\x82\xAC".as_slice(),
            "a\u{E9}\u{20AC}",
            0,
            true,
        ),
        (
            b"\xED\x9F\xBF\xEE\x80\x80".as_slice(),
            "\u{D7FF}\u{E000}",
            0,
            true,
        ),
        (
            b"\xF0\x90\x8D\x88\xF4\x8F\xBF\xBF".as_slice(),
            "\u{10348}\u{10FFFF}",
            0,
            true,
        ),
        (b"a\xC3".as_slice(), "a", 1, true),
        (b"\xC2".as_slice(), "", 1, true),
        (b"\xDF".as_slice(), "", 1, true),
        (b"\xE0".as_slice(), "", 1, true),
        (b"\xE0\xA0".as_slice(), "", 2, true),
        (b"\xED\x9F".as_slice(), "", 2, true),
        (b"\xEF\xBF".as_slice(), "", 2, true),
        (b"\xF0".as_slice(), "", 1, true),
        (b"\xF0\x90".as_slice(), "", 2, true),
        (b"\xF0\x90\x80".as_slice(), "", 3, true),
        (b"\xF4\x8F\xBF".as_slice(), "", 3, true),
        (b"\x80".as_slice(), "", 1, false),
        (b"\xC0".as_slice(), "", 1, false),
        (b"\xC1\xBF".as_slice(), "", 2, false),
        (b"\xC3a".as_slice(), "", 2, false),
        (b"\xE0\x9F".as_slice(), "", 2, false),
        (b"\xED\xA0".as_slice(), "", 2, false),
        (b"\xE2\x82a".as_slice(), "", 3, false),
        (b"\xF0\x8F".as_slice(), "", 2, false),
        (b"\xF0\x90\x80a".as_slice(), "", 4, false),
        (b"\xF4\x90".as_slice(), "", 2, false),
        (b"\xF4\x8F\xBF\xC0".as_slice(), "", 4, false),
        (b"\xF5".as_slice(), "", 1, false),
        (b"\xC3\xA9\xFFabcd".as_slice(), "\u{E9}", 5, false),
    ] {
        let found = decode(bytes);
        assert_eq!(rt;
            (found.text, found.left.len(), found.begins),
            (text, left, begins),
            "{bytes:?}"
        );
    }
}

#[test]
fn goes_on_in_labels(rt: HostRuntime) {
    for (left, goes_on) in [
        (b"".as_slice(), true),
        (b"\xC2".as_slice(), true),
        (b"\xC3".as_slice(), true),
        (b"\xCD".as_slice(), true),
        (b"\xE2\x80".as_slice(), true),
        (b"\xE3\x80".as_slice(), true),
        (b"\xED\x9F".as_slice(), true),
        (b"\xEF\xBF".as_slice(), true),
        (b"\xF3".as_slice(), true),
        (b"\xF3\xAF\xBF".as_slice(), true),
        (b"a".as_slice(), false),
        (b"\x80".as_slice(), false),
        (b"\xC3\xA9".as_slice(), false),
        (b"\xE0\x9F".as_slice(), false),
        (b"\xE2\x90".as_slice(), false),
        (b"\xED\xA0".as_slice(), false),
        (b"\xEE".as_slice(), false),
        (b"\xF3\xB0".as_slice(), false),
        (b"\xF4".as_slice(), false),
        (b"\xF5".as_slice(), false),
    ] {
        assert_eq!(rt; may_go_on_in_label(left), goes_on, "{left:?}");
    }
}
