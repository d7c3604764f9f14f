// The line protocol by examples, and that what takes memory succeeds. The values are the protocol's, as README tells it.
use crate::failure::Failure;
use crate::words::Words;
use crate::{words, writing};
use std::test::Fail;

mod pipe;

// A word that `number` refuses stands here as None.
#[test]
fn numbers_are_digits_alone(rt: HostRuntime) {
    for (word, want) in [
        ("0", Some(0u8)),
        ("255", Some(255)),
        ("256", None),
        ("007", Some(7)),
        ("00000000000000000000007", Some(7)),
        ("", None),
        ("+1", None),
        ("-1", None),
        ("0x1", None),
        ("1\t", None),
        ("\u{661}", None),
    ] {
        let n: Result<u8, Failure> = Words::of_line(word).number();
        assert_eq!(rt; n.ok(), want, "at {word:?}");
    }
}

#[test]
fn number_to_has_a_limit(rt: HostRuntime) {
    for (word, want) in [
        ("127", Ok(127)),
        ("128", Ok(128)),
        ("129", Err(Failure::NotTaken)),
        ("18446744073709551616", Err(Failure::NotTaken)),
    ] {
        assert_eq!(rt; Words::of_line(word).number_to(128), want, "at {word:?}");
    }
}

// Two spaces stand round an empty word, and a last space before one.
#[test]
fn words_stand_between_single_spaces(rt: HostRuntime) {
    let mut words = Words::of_line("a  b ");
    assert_eq!(rt; words.word(), Ok("a"));
    assert_eq!(rt; words.word(), Ok(""));
    assert_eq!(rt; words.word(), Ok("b"));
    assert_eq!(rt; words.end(), Err(Failure::NotTaken));
    assert_eq!(rt; words.end(), Ok(()));
    assert_eq!(rt; words.word(), Err(Failure::NotTaken));
}

#[test]
fn rest_gives_the_words_that_are_left(rt: HostRuntime) {
    let mut words = Words::of_line("make 1=00 2=ff");
    assert_eq!(rt; words.word(), Ok("make"));
    let mut rest = words.rest();
    assert_eq!(rt; rest.next(), Some("1=00"));
    assert_eq!(rt; rest.next(), Some("2=ff"));
    assert_eq!(rt; rest.next(), None);
}

// None stands for a line that is not taken.
#[test]
fn bytes_are_the_last_word(rt: HostRuntime) -> Result<(), Fail> {
    for (line, want) in [
        ("packet 00fF", Some([0x00u8, 0xFF].as_slice())),
        ("packet ", Some([].as_slice())),
        ("packet", Some([].as_slice())),
        ("packet 0", None),
        ("packet 0g", None),
        ("packet 00 ", None),
        ("packet 00  11", None),
        ("packet 001122", None),
    ] {
        let mut words = Words::of_line(line);
        assert_eq!(rt; words.word(), Ok("packet"), "at {line:?}");
        match (words.bytes(2, rt.alloc()), want) {
            (Ok(bytes), Some(want)) => assert_eq!(rt; bytes.as_slice(), want, "at {line:?}"),
            (Err(Failure::NotTaken), None) => {}
            _ => assert!(rt; false, "at {line:?}"),
        }
    }
    assert_eq!(rt;
        words::bytes_of("c0Fe", rt.alloc())?.as_slice(),
        [0xC0, 0xFE].as_slice()
    );
    assert_eq!(rt;
        words::bytes_of("c0F", rt.alloc()).err(),
        Some(Failure::NotTaken)
    );
    Ok(())
}

#[test]
fn lines_end_with_bytes_in_hex(rt: HostRuntime) -> Result<(), Fail> {
    let mut answer = String::new(rt.alloc());
    writing::line("ok reply ", &[0x0A, 0xFF], &mut answer)?;
    writing::line_or_dash("reply ", &[0x00], &mut answer)?;
    writing::line_or_dash("message ", &[], &mut answer)?;
    assert_eq!(rt; answer.as_str(), "ok reply 0aff\nreply 00\nmessage -\n");
    Ok(())
}
