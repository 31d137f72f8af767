//! Lines of the key list: the built-in example, and lines that are refused.
ghost use Rattle.std.specs.Prelude.{◌<◌};

use keyline::example::EXAMPLE;
use keyline::line::{LineFault, derived_line};

/// Whether the line is answered by this text.
fn gives(line: &[u8], text: &[u8; 65]) -> bool {
    derived_line(line).is_ok_and(|made| made == *text)
}

/// The answers were written by the second program.
#[test]
fn the_example_is_answered(rt: HostRuntime) {
    let answers = [
        b"00000000000000010000000000000000 0046AC4FEDE21634DFDBB10AE0918B3B",
        b"00000000000000020000000000000000 C01CACA2BA0B9E95C961C952A53C1AF2",
        b"00000000000000030000000000000000 E85D636473EF0CD99B916F11D583485C",
        b"00000000000000040000000000000000 D4EC2BD0FD1A279AA10480787CEFEB24",
    ];
    for (line, text) in EXAMPLE.iter().zip(answers) {
        assert!(rt; gives(*line, text));
    }
}

#[test]
fn lines_of_another_length_are_refused(rt: HostRuntime) {
    let good: &[u8; 81] = EXAMPLE[0];
    assert!(rt; matches!(derived_line(b""), Err(LineFault::Length(0))));
    // an odd number of digits
    assert!(rt; matches!(derived_line(&good[0..80]), Err(LineFault::Length(80))));
    let long =
        b"0123456789ABCDEF23456789ABCDEF01456789ABCDEF0123 00000000000000010000000000000000 ";
    assert!(rt; matches!(derived_line(long), Err(LineFault::Length(82))));
}

/// The column that is refused in a line that is good but for one character.
fn column_refused(place: usize, c: u8) -> Option<usize>
    requires { place < 81 }
{
    let mut line = *EXAMPLE[0];
    line[place] = c;
    match derived_line(&line) {
        Err(LineFault::Character(column)) => Some(column),
        _ => None,
    }
}

#[test]
fn characters_out_of_place_are_refused(rt: HostRuntime) {
    assert_eq!(rt; column_refused(17, b'g'), Some(18));
    assert_eq!(rt; column_refused(48, b'0'), Some(49));
    assert_eq!(rt; column_refused(80, b' '), Some(81));
    assert_eq!(rt; column_refused(0, b'0'), None);
}

#[test]
fn either_case_is_read_and_capitals_are_written(rt: HostRuntime) {
    let small =
        b"0123456789abcdef23456789abcdef01456789abcdef0123 00000000000000010000000000000000";
    assert!(rt;
        gives(
            small,
            b"00000000000000010000000000000000 0046AC4FEDE21634DFDBB10AE0918B3B",
        )
    );
}
