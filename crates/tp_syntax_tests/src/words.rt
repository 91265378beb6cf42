//! The words of texts, with their places, and the numbers that they spell.

use std::test::Fail;
use tp_text::{Scale, Span, Token, read_ticks, read_whole, tokens};

fn has_spans(all: &[Token<'_>], wanted: &[(&str, u32, u32)]) -> bool {
    for (token, (text, start, stop)) in all.iter().zip(wanted.iter()) {
        let span = Span {
            start: *start,
            stop: *stop,
        };
        if token.text != *text || token.span != span {
            return false;
        }
    }
    all.len() == wanted.len()
}

#[test]
fn tokens_have_their_spans(rt: HostRuntime) -> Result<(), Fail> {
    let all = tokens(rt.alloc(), "(a b)")?;
    let wanted = [("(", 0, 1), ("a", 1, 2), ("b", 3, 4), (")", 4, 5)];
    assert!(rt; has_spans(all.as_slice(), &wanted));
    Ok(())
}

#[test]
fn whole_numbers(rt: HostRuntime) {
    let numbers = [
        ("3.0", Some(3)),
        ("3.", Some(3)),
        ("-0", Some(0)),
        ("-9223372036854775808", Some(i64::MIN)),
        ("2.5", None),
        ("+1", None),
        (".5", None),
        ("9223372036854775808", None),
    ];
    for (word, number) in numbers {
        assert!(rt; read_whole(word) == number, "of {word}");
    }
}

#[test]
fn times(rt: HostRuntime) {
    let times = [
        ("2.000", 1, Some(2)),
        ("0.001", 1000, Some(1)),
        ("4294967295", 1, Some(4_294_967_295)),
        ("0.0005", 1000, None),
        ("1.", 1, None),
        ("4294967296", 1, None),
    ];
    for (word, number, ticks) in times {
        let scale = Scale::from_number(number);
        let read = scale.and_then(|scale| read_ticks(word, scale));
        assert!(rt; read == ticks, "of {word} at {number}");
    }
    assert!(rt; Scale::from_number(100).map(Scale::ticks) == Some(100));
    assert!(rt; Scale::from_number(2) == None);
}
