//! What each mode makes of a line: the header, the forms of version 2, and those of version 1.
use palm_read::{Line, LineError, Mode, Shape, beyond, parse_line};
use std::alloc::Global;
use std::process::Abort;
use std::test::Fail;

/// What a line is read as, as far as modes tell lines apart.
#[derive(Clone, Copy, Debug, PartialEq, Eq)]
enum Reading {
    Refused(LineError),
    Header,
    /// A variable with a universe.
    Universe,
    /// A constraint on a domain.
    Within,
    /// One of the last two with too many values.
    Beyond,
    /// A search for a proof.
    Proof,
    /// A search for a least value.
    Least,
    /// A weight that a constraint gets.
    Weight(u32),
    /// That a constraint has no weight.
    NoWeight,
    /// A question that the weights decide.
    Preferred,
    /// A line of version 1.
    Older,
}

/// What the line is.
fn tell(line: &Line) -> Reading {
    match line {
        Line::Header => Reading::Header,
        Line::VarIn { .. } => if beyond(line) {
            Reading::Beyond
        } else {
            Reading::Universe
        },
        Line::Add { shape, .. } => match shape {
            Shape::Within { .. } => if beyond(line) {
                Reading::Beyond
            } else {
                Reading::Within
            },
            _ => Reading::Older,
        },
        Line::Prove { .. } => Reading::Proof,
        Line::Minimize { .. } => Reading::Least,
        Line::Prefer { weight, .. } => Reading::Weight(*weight),
        Line::PreferNone(_) => Reading::NoWeight,
        Line::Preferred => Reading::Preferred,
        _ => Reading::Older,
    }
}

/// What the text is read as in a mode.
fn read(alloc: Global, text: &str, mode: Mode) -> Reading {
    match parse_line(alloc, text.as_bytes(), mode) {
        Ok(line) => tell(&line),
        Err(cause) => Reading::Refused(cause),
    }
}

/// Asserts that the text is read so at the head of a text, so in version 1, and so in version 2.
fn assert_read(rt: &impl Abort, alloc: Global, text: &str, [first, one, two]: [Reading; 3]) {
    assert_eq!(rt;
        read(alloc, text, Mode::First),
        first,
        "{text}, at the head"
    );
    assert_eq!(rt; read(alloc, text, Mode::One), one, "{text}, in version 1");
    assert_eq!(rt; read(alloc, text, Mode::Two), two, "{text}, in version 2");
}

/// No such form.
const UNKNOWN: Reading = Reading::Refused(LineError::Form);

/// The header, and texts beside it that are none.
const HEADERS: &[(&str, Reading)] = &[
    ("palm 2", Reading::Header),
    (" palm\t 2 ", Reading::Header),
    ("palm 02", UNKNOWN),
    ("palm 1", UNKNOWN),
    ("palm -2", UNKNOWN),
    ("palm 2 2", UNKNOWN),
    ("palm2", UNKNOWN),
    ("palm", UNKNOWN),
];

#[test]
fn the_header_is_read_in_the_first_mode_alone(rt: HostRuntime) -> Result<(), Fail> {
    for (text, first) in HEADERS {
        assert_read(&rt, rt.alloc(), text, [*first, UNKNOWN, UNKNOWN]);
    }
    Ok(())
}

/// Lines of the forms of version 2, with what they are read as there. Version 1 knows none of the forms, whatever else is
/// wrong with the line.
const NEWER: &[(&str, Reading)] = &[
    ("var x 0..5 in 1..3", Reading::Universe),
    ("var x{5,1}in{3,1,9}", Reading::Universe),
    ("var x 0..255 in -5..250", Reading::Universe),
    ("var x 0..256 in 1..3", Reading::Beyond),
    ("var x 1..3 in 0..256", Reading::Beyond),
    (
        "var x 0..5 in 0..1000001",
        Reading::Refused(LineError::Range),
    ),
    ("var x {-1000001} in {}", Reading::Refused(LineError::Range)),
    ("var x 5..0 in 1..3", Reading::Refused(LineError::Empty)),
    ("var x 0..5 in {}", Reading::Refused(LineError::Empty)),
    ("add a : x in 1..3", Reading::Within),
    ("add a : x in{9,1}", Reading::Within),
    ("add a : x in 0..256", Reading::Beyond),
    (
        "add a : x in 0..1000001",
        Reading::Refused(LineError::Range),
    ),
    ("add a : x in {}", Reading::Refused(LineError::Empty)),
    ("add a : x in 3..1", Reading::Refused(LineError::Empty)),
    ("prove budget 1", Reading::Proof),
    ("\tprove budget 010", Reading::Proof),
    ("prove budget 18446744073709551615", Reading::Proof),
    ("prove budget 0", Reading::Refused(LineError::Range)),
    ("prove budget -1", Reading::Refused(LineError::Range)),
    (
        "prove budget 18446744073709551616",
        Reading::Refused(LineError::Range),
    ),
    ("minimize x budget 1", Reading::Least),
    (" minimize\tx budget 01 ", Reading::Least),
    ("minimize conflict budget 3", Reading::Least),
    ("minimize budget budget 3", Reading::Least),
    ("minimize x budget 18446744073709551615", Reading::Least),
    ("minimize x budget 0", Reading::Refused(LineError::Range)),
    ("minimize x budget -1", Reading::Refused(LineError::Range)),
    (
        "minimize x budget 18446744073709551616",
        Reading::Refused(LineError::Range),
    ),
    ("prefer a 1", Reading::Weight(1)),
    (" prefer\ta 02 ", Reading::Weight(2)),
    ("prefer a 1000000", Reading::Weight(1_000_000)),
    ("prefer none 3", Reading::Weight(3)),
    ("prefer preferred 3", Reading::Weight(3)),
    ("prefer a 0", Reading::Refused(LineError::Range)),
    ("prefer a -1", Reading::Refused(LineError::Range)),
    ("prefer a 1000001", Reading::Refused(LineError::Range)),
    ("prefer a 4294967297", Reading::Refused(LineError::Range)),
    ("prefer a none", Reading::NoWeight),
    ("prefer none none", Reading::NoWeight),
    ("preferred", Reading::Preferred),
    ("\tpreferred ", Reading::Preferred),
];

#[test]
fn forms_of_version_2_are_unknown_in_version_1(rt: HostRuntime) -> Result<(), Fail> {
    for (text, two) in NEWER {
        assert_read(&rt, rt.alloc(), text, [UNKNOWN, UNKNOWN, *two]);
    }
    Ok(())
}

/// Lines that are read the same in each mode, and texts that no mode knows.
const SAME: &[(&str, Reading)] = &[
    ("", Reading::Older),
    ("var x 0..5", Reading::Older),
    ("add a : x < y + 2", Reading::Older),
    ("add a : x != 3", Reading::Older),
    ("add a : differ x palm", Reading::Older),
    ("relax palm", Reading::Older),
    ("add a : x < x", Reading::Refused(LineError::Repeated)),
    ("var x 5..0", Reading::Refused(LineError::Empty)),
    ("step 0", Reading::Refused(LineError::Range)),
    ("palm \u{1}", Reading::Refused(LineError::Bytes)),
    ("var x 0..5 in", UNKNOWN),
    ("var x in 1..3", UNKNOWN),
    ("var x 0..5 in 1..3 in 2..3", UNKNOWN),
    ("add a : x in 3", UNKNOWN),
    ("add a : x y in 1..3", UNKNOWN),
    ("add in : x < 3", UNKNOWN),
    ("relax prove", Reading::Older),
    ("prove", UNKNOWN),
    ("prove budget", UNKNOWN),
    ("prove 10", UNKNOWN),
    ("prove dbt budget 10", UNKNOWN),
    ("prove budget 10 10", UNKNOWN),
    ("solve prove budget 10", UNKNOWN),
    ("relax minimize", Reading::Older),
    ("minimize", UNKNOWN),
    ("minimize x", UNKNOWN),
    ("minimize x budget", UNKNOWN),
    ("minimize x 10", UNKNOWN),
    ("minimize budget 10", UNKNOWN),
    ("minimize 1 budget 10", UNKNOWN),
    ("minimize sum budget 10", UNKNOWN),
    ("minimize x y budget 10", UNKNOWN),
    ("minimize x budget 10 10", UNKNOWN),
    ("minimise x budget 10", UNKNOWN),
    ("minimal x budget 10", UNKNOWN),
    ("solve minimize x budget 10", UNKNOWN),
    ("relax prefer", Reading::Older),
    ("relax preferred", Reading::Older),
    ("prefer", UNKNOWN),
    ("prefer a", UNKNOWN),
    ("prefer none", UNKNOWN),
    ("prefer 3", UNKNOWN),
    ("prefer 3 a", UNKNOWN),
    ("prefer sum 3", UNKNOWN),
    ("prefer a b", UNKNOWN),
    ("prefer a b 3", UNKNOWN),
    ("prefer a +3", UNKNOWN),
    ("prefer a 3 3", UNKNOWN),
    ("prefer a none 3", UNKNOWN),
    ("prefer a 3 none", UNKNOWN),
    ("prefer a none none", UNKNOWN),
    ("preferred a", UNKNOWN),
    ("preferred preferred", UNKNOWN),
];

#[test]
fn all_else_is_read_alike(rt: HostRuntime) -> Result<(), Fail> {
    for (text, reading) in SAME {
        assert_read(&rt, rt.alloc(), text, [*reading, *reading, *reading]);
    }
    Ok(())
}
