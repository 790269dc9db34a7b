//! The examples of RFC 3629, the bounds of its grammar, and the limit of a width.
use crate::code_points::CodePoints;
use crate::judge::{Judge, well_formed};
use crate::measure::Measure;
use crate::strings::{bytes_of, text_from};
use crate::utf8::Utf8;
use crate::utf16::Utf16;
use crate::width::{joined_width, width_of};
use std::process::Abort;

/// A well-formed text and its width by each measure.
#[derive(Clone, Copy)]
struct Row<'a> {
    text: &'a [u8],
    points: u32,
    bytes: u32,
    units: u32,
}

/// A row of a table.
fn widths(text: &[u8], points: u32, bytes: u32, units: u32) -> Row<'_> {
    Row {
        text,
        points,
        bytes,
        units,
    }
}

/// Checks what each row of a table says.
fn hold(rt: &impl Abort, rows: &[Row<'_>]) {
    for row in rows {
        assert!(rt; well_formed(row.text));
        assert_eq!(rt; CodePoints.width(row.text), Some(row.points));
        assert_eq!(rt; Utf8.width(row.text), Some(row.bytes));
        assert_eq!(rt; Utf16.width(row.text), Some(row.units));
    }
}

/// Section 7: "A<NOT IDENTICAL TO><ALPHA>.", "hangugeo", "nihongo", and U+233B4 after a byte order mark.
#[test]
fn examples(rt: HostRuntime) {
    hold(
        &rt,
        &[
            widths(b"\x41\xE2\x89\xA2\xCE\x91\x2E", 4, 7, 4),
            widths(b"\xED\x95\x9C\xEA\xB5\xAD\xEC\x96\xB4", 3, 9, 3),
            widths(b"\xE6\x97\xA5\xE6\x9C\xAC\xE8\xAA\x9E", 3, 9, 3),
            widths(b"\xEF\xBB\xBF\xF0\xA3\x8E\xB4", 2, 7, 3),
        ],
    );
}

/// Nothing, a letter, an object replacement character, a traffic light, and a character of each length.
#[test]
fn widths_differ(rt: HostRuntime) {
    hold(
        &rt,
        &[
            widths(b"", 0, 0, 0),
            widths(b"a", 1, 1, 1),
            widths(b"\xEF\xBF\xBC", 1, 3, 1),
            widths(b"\xF0\x9F\x9A\xA6", 1, 4, 2),
            widths(b"a\xC3\xA9\xE2\x82\xAC\xF0\x9F\x9A\xA6", 4, 10, 5),
        ],
    );
}

/// The first and the last form of each row of the grammar.
#[test]
fn bounds(rt: HostRuntime) {
    hold(
        &rt,
        &[
            widths(b"\x00\x7F", 2, 2, 2),
            widths(b"\xC2\x80\xDF\xBF", 2, 4, 2),
            widths(b"\xE0\xA0\x80\xE0\xBF\xBF", 2, 6, 2),
            widths(b"\xE1\x80\x80\xEC\xBF\xBF", 2, 6, 2),
            widths(b"\xED\x80\x80\xED\x9F\xBF", 2, 6, 2),
            widths(b"\xEE\x80\x80\xEF\xBF\xBF", 2, 6, 2),
            widths(b"\xF0\x90\x80\x80\xF0\xBF\xBF\xBF", 2, 8, 4),
            widths(b"\xF1\x80\x80\x80\xF3\xBF\xBF\xBF", 2, 8, 4),
            widths(b"\xF4\x80\x80\x80\xF4\x8F\xBF\xBF", 2, 8, 4),
        ],
    );
}

/// Checks that none of these is well-formed.
fn refuse(rt: &impl Abort, texts: &[&[u8]]) {
    for text in texts {
        assert!(rt; !well_formed(text));
    }
}

/// Longer forms than the code point needs, among them the RFC's own of U+0000 and of "/../".
#[test]
fn overlong(rt: HostRuntime) {
    refuse(
        &rt,
        &[
            b"\xC0\x80",
            b"\xC1\xBF",
            b"\x2F\xC0\xAE\x2E\x2F",
            b"\xE0\x9F\xBF",
            b"\xF0\x8F\xBF\xBF",
        ],
    );
}

/// Surrogates, alone and in a pair, and what lies past U+10FFFF.
#[test]
fn no_scalar_value(rt: HostRuntime) {
    refuse(
        &rt,
        &[
            b"\xED\xA0\x80",
            b"\xED\xBF\xBF",
            b"\xED\xA1\x8C\xED\xBE\xB4",
            b"\xF4\x90\x80\x80",
            b"\xF5\x80\x80\x80",
            b"\xFF",
        ],
    );
}

/// Tails that follow nothing, and characters cut short by the end or by another.
#[test]
fn cut(rt: HostRuntime) {
    refuse(
        &rt,
        &[
            b"\x80",
            b"a\xBF",
            b"\xC3\xA9\xA9",
            b"\xC2",
            b"\xE2\x89",
            b"\xF0\x9F\x9A",
            b"\xC2\x41",
            b"\xE2\x89\x41",
            b"\xF0\x9F\x9A\x41",
        ],
    );
}

/// A width is told up to 4,294,967,295, alone and as a sum.
#[test]
fn limits(rt: HostRuntime) {
    let most = Some(4_294_967_295);
    assert_eq!(rt; width_of(4_294_967_295), most);
    assert_eq!(rt; width_of(4_294_967_296), None);
    assert_eq!(rt; width_of(u64::MAX), None);
    assert_eq!(rt; joined_width(Some(4_294_967_294), Some(1)), most);
    assert_eq!(rt; joined_width(most, Some(0)), most);
    assert_eq!(rt; joined_width(most, Some(1)), None);
    assert_eq!(rt; joined_width(most, most), None);
    assert_eq!(rt; joined_width(None, Some(0)), None);
    assert_eq!(rt; joined_width(Some(0), None), None);
}

/// U+10FFFF byte by byte: a byte that cannot stand there is refused, and the right one is still taken after it.
#[test]
fn byte_by_byte(rt: HostRuntime) {
    let mut judge = Judge::new();
    assert!(rt; judge.done());
    assert!(rt; judge.take(0xF4));
    assert!(rt; !judge.done());
    assert!(rt; !judge.take(0x90));
    assert!(rt; judge.take(0x8F));
    assert!(rt; judge.take(0xBF));
    assert!(rt; !judge.done());
    assert!(rt; !judge.take(0x41));
    assert!(rt; judge.take(0xBF));
    assert!(rt; judge.done());
}

/// Text goes to bytes and back; bytes that are no text give none.
#[test]
fn to_and_fro(rt: HostRuntime) {
    assert_eq!(rt;
        bytes_of("A\u{2262}\u{391}."),
        b"\x41\xE2\x89\xA2\xCE\x91\x2E".as_slice()
    );
    assert_eq!(rt; text_from(b"\xF0\x9F\x9A\xA6"), Some("\u{1F6A6}"));
    assert_eq!(rt; text_from(b"\xED\xA0\x80"), None);
}
