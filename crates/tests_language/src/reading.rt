//! Lines of every form, and of version 1 those with faults and the limits of a line.
use palm_base::NoMemory;
use palm_lang::{Line, LineError, beyond, parse_line, print_line, token};
use palm_read::Mode;
use std::alloc::Global;
use std::test::Fail;
use tests_compare::first_difference;

/// A line of each form of version 1, as it is printed.
const EVERY_FORM: &[&str] = &[
    "var x 1..3",
    "var y {1,5}",
    "add a : x < y - 1",
    "add a : x != y + 2",
    "add b : x > 3",
    "add s : sum -2*x + y <= 3",
    "add t : table x y : (1,2) (2,3)",
    "add e : element z y (5,3,5)",
    "add k : count 1 a b = n",
    "add k : count 1 a b >= 2",
    "add d : differ x y z",
    "relax a",
    "enforce a",
    "retract a",
    "domains",
    "domain x",
    "list",
    "log",
    "why x -7",
    "conflict",
    "minimal conflict",
    "minimal conflict 3",
    "minimal x 7",
    "pause",
    "resume",
    "step 3",
    "solve dbt",
    "solve dbt budget 10",
    "solve repair tabu 1 budget 50",
    "cert x 1",
    "cert conflict",
    "guide 1",
    "guide none",
    "order 2",
    "order none",
    "drop guide 1",
    "drop order 2",
    "quit",
];

/// A line of each form that version 2 has beside those of version 1, as it is printed.
const EVERY_NEWER_FORM: &[&str] = &[
    "var x 1..3 in 2..5",
    "var x {1,5} in {5}",
    "add w : x in 1..3",
    "prove budget 1",
    "prove budget 18446744073709551615",
    "minimize x budget 1",
    "minimize name_of_32_bytes_is_the_longest_ budget 18446744073709551615",
    "prefer a 1",
    "prefer name_of_32_bytes_is_the_longest_ 1000000",
    "prefer none 3",
    "prefer a none",
    "prefer none none",
    "preferred",
];

/// What bytes are read as.
#[derive(Clone, Copy, Debug, PartialEq)]
enum Reading {
    Refused(LineError),
    Comment,
    /// Another line, within the limits of one line.
    Within,
    /// Another line, beyond them.
    Beyond,
}

/// What the line is. It is printed to the end of the text.
fn tell(line: &Line, out: &mut Vec<u8>) -> Result<Reading, NoMemory> {
    print_line(line, out)?;
    Ok(if matches!(line, Line::Comment) {
        Reading::Comment
    } else if beyond(line) {
        Reading::Beyond
    } else {
        Reading::Within
    })
}

/// What the bytes are read as; a line is printed to the end of the text. It alone owns a line, since each place that gives
/// one up costs its proof.
fn read(alloc: Global, bytes: &[u8], mode: Mode, out: &mut Vec<u8>) -> Result<Reading, NoMemory> {
    match parse_line(alloc, bytes, mode) {
        Ok(line) => tell(&line, out),
        Err(cause) => Ok(Reading::Refused(cause)),
    }
}

/// The same of version 1, where nobody asks what is printed.
fn read_unprinted(alloc: Global, bytes: &[u8]) -> Result<Reading, NoMemory> {
    let mut out = Vec::new(alloc);
    read(alloc, bytes, Mode::One, &mut out)
}

/// What the text is printed as once it is read, or that it is refused.
fn printed_of(alloc: Global, text: &str, mode: Mode) -> Result<Vec<u8>, NoMemory> {
    let mut out = Vec::new(alloc);
    match read(alloc, text.as_bytes(), mode, &mut out)? {
        Reading::Refused(_) => Ok(Vec::from_slice(alloc, b"(refused)")?),
        _ => Ok(out),
    }
}

#[test]
fn every_form_is_read(rt: HostRuntime) -> Result<(), Fail> {
    for line in EVERY_FORM {
        let got = printed_of(rt.alloc(), line, Mode::One)?;
        assert_eq!(rt; first_difference(line.as_bytes(), &got), None, "{line}");
        let got = printed_of(rt.alloc(), line, Mode::Two)?;
        assert_eq!(rt; first_difference(line.as_bytes(), &got), None, "{line}");
    }
    Ok(())
}

#[test]
fn every_form_of_version_2_is_read(rt: HostRuntime) -> Result<(), Fail> {
    for line in EVERY_NEWER_FORM {
        let got = printed_of(rt.alloc(), line, Mode::Two)?;
        assert_eq!(rt; first_difference(line.as_bytes(), &got), None, "{line}");
    }
    Ok(())
}

/// Lines with the longest name and the least and the greatest numbers, as they are printed.
const AT_THE_LIMITS: &[&str] = &[
    "relax name_of_32_bytes_is_the_longest_",
    "var x {-1000000,1000000}",
    "add a : x < y - 2000000",
    "add a : x < y + 2000000",
    "add s : sum -100000*x + 100000*y <= -1000000000000",
    "add s : sum x <= 1000000000000",
    "step 1",
    "step 1000000",
    "guide 1000000",
    "order 1000000",
    "drop guide 1000000",
    "drop order 1000000",
    "solve dbt budget 1",
    "solve repair tabu 1 budget 1",
    "solve repair tabu 1024 budget 18446744073709551615",
];

#[test]
fn numbers_at_the_limits_are_read(rt: HostRuntime) -> Result<(), Fail> {
    for line in AT_THE_LIMITS {
        let got = printed_of(rt.alloc(), line, Mode::One)?;
        assert_eq!(rt; first_difference(line.as_bytes(), &got), None, "{line}");
    }
    Ok(())
}

/// Lines beside the texts that they are printed as.
const WRITTEN_OTHERWISE: &[(&str, &str)] = &[
    ("", ""),
    (" \t", ""),
    ("  # any text \u{e9}", ""),
    ("\tlist ", "list"),
    ("var y{5,1,5}", "var y {1,5}"),
    ("var z { 3 }", "var z {3}"),
    ("var z 1 .. 03", "var z 1..3"),
    ("add m:x<y-0", "add m : x < y"),
    ("add c : x>=- 5", "add c : x >= -5"),
    ("add s : sum -2*x+1*y<=03", "add s : sum -2*x + y <= 3"),
    ("add s : sum x - 01*y = -0", "add s : sum x - y = 0"),
    ("add t:table x:(1)(2)", "add t : table x : (1) (2)"),
    (
        "step 00000000000000000000000000000000000000000005",
        "step 5",
    ),
    (
        "solve repair tabu 1budget 9",
        "solve repair tabu 1 budget 9",
    ),
    ("solve dbt budget 18446744073709551615", "solve dbt"),
];

#[test]
fn spaces_zeros_and_order_do_not_matter(rt: HostRuntime) -> Result<(), Fail> {
    for (text, printed) in WRITTEN_OTHERWISE {
        let got = printed_of(rt.alloc(), text, Mode::One)?;
        assert_eq!(rt; first_difference(printed.as_bytes(), &got), None, "{text}");
        let got = printed_of(rt.alloc(), printed, Mode::One)?;
        assert_eq!(rt;
            first_difference(printed.as_bytes(), &got),
            None,
            "{printed}"
        );
    }
    Ok(())
}

/// Lines with two faults, and the first of them.
const TWO_FAULTS: &[(&str, LineError)] = &[
    ("no form \u{1}", LineError::Bytes),
    ("list\r", LineError::Bytes),
    ("var x 1..9999999 \u{7f}", LineError::Bytes),
    ("var x {} \u{7f}", LineError::Bytes),
    ("add d : differ x x \u{7f}", LineError::Bytes),
    ("var x 9999999", LineError::Form),
    ("var x {} {}", LineError::Form),
    ("add d : differ x x :", LineError::Form),
    ("var w 5..-1000001", LineError::Range),
    ("add p : sum 0*x <= 1000000000001", LineError::Range),
    ("add p : sum x + x <= 1000000000001", LineError::Range),
    ("add a : sum 0*x + x <= 1", LineError::Empty),
    ("add e : element x x ()", LineError::Empty),
];

#[test]
fn of_two_faults_the_first_is_told(rt: HostRuntime) -> Result<(), Fail> {
    for (text, error) in TWO_FAULTS {
        let got = read_unprinted(rt.alloc(), text.as_bytes())?;
        assert_eq!(rt; got, Reading::Refused(*error), "{text}");
    }
    Ok(())
}

/// Lines with one fault.
const ONE_FAULT: &[(&str, LineError)] = &[
    ("list list", LineError::Form),
    ("var x1..3", LineError::Form),
    ("var x 1...3", LineError::Form),
    ("add q : sum x < 3", LineError::Form),
    ("add q : sum x + -2*y <= 1", LineError::Form),
    ("add q : x < y + -1", LineError::Form),
    ("add t : table x y : (1)", LineError::Form),
    ("add in : x < y", LineError::Form),
    ("relax name_of_33_bytes_is_one_too_long_", LineError::Form),
    ("! list", LineError::Form),
    ("var w {-1000001}", LineError::Range),
    ("var w {1000001}", LineError::Range),
    ("add s : sum -100001*x <= 1", LineError::Range),
    ("add s : sum 100001*x <= 1", LineError::Range),
    ("add s : sum x <= -1000000000001", LineError::Range),
    ("add s : sum x <= 1000000000001", LineError::Range),
    ("step 0", LineError::Range),
    ("step 1000001", LineError::Range),
    ("guide 0", LineError::Range),
    ("guide 1000001", LineError::Range),
    ("order 0", LineError::Range),
    ("order 1000001", LineError::Range),
    ("drop guide 0", LineError::Range),
    ("drop guide 1000001", LineError::Range),
    ("drop order 0", LineError::Range),
    ("drop order 1000001", LineError::Range),
    ("solve dbt budget 0", LineError::Range),
    ("solve dbt budget 18446744073709551616", LineError::Range),
    ("solve repair tabu 0 budget 1", LineError::Range),
    ("solve repair tabu 1025 budget 1", LineError::Range),
    ("solve repair tabu 1 budget 0", LineError::Range),
    (
        "solve repair tabu 1 budget 18446744073709551616",
        LineError::Range,
    ),
    ("add a : x < y - 2000001", LineError::Range),
    ("add a : x < y + 2000001", LineError::Range),
    (
        "why x 999999999999999999999999999999999999999999",
        LineError::Range,
    ),
    ("var w 2..1", LineError::Empty),
    ("var w {}", LineError::Empty),
    ("add t : table x :", LineError::Empty),
    ("add e : element z y ()", LineError::Empty),
    ("add s : sum -00*x <= 1", LineError::Empty),
    ("add d : differ x y x", LineError::Repeated),
    ("add a : x < x", LineError::Repeated),
    ("add k : count 1 a b = a", LineError::Repeated),
];

#[test]
fn each_fault_alone_is_told(rt: HostRuntime) -> Result<(), Fail> {
    for (text, error) in ONE_FAULT {
        let got = read_unprinted(rt.alloc(), text.as_bytes())?;
        assert_eq!(rt; got, Reading::Refused(*error), "{text}");
    }
    Ok(())
}

/// Lines about as long as lines may be.
const LONG: &[(&str, Reading)] = &[
    ("var x 1..257", Reading::Beyond),
    ("var x 1..256", Reading::Within),
    (
        "add d : differ a b c d e f g h i j k l m n o p q",
        Reading::Beyond,
    ),
    (
        "add d : differ a b c d e f g h i j k l m n o p",
        Reading::Within,
    ),
];

#[test]
fn a_line_may_be_beyond_the_limits(rt: HostRuntime) -> Result<(), Fail> {
    for (text, reading) in LONG {
        let got = read_unprinted(rt.alloc(), text.as_bytes())?;
        assert_eq!(rt; got, *reading, "{text}");
    }
    Ok(())
}

/// A front, a text so often, and an end.
fn repeated(
    alloc: Global,
    front: &str,
    text: &str,
    count: u32,
    end: &str,
) -> Result<String, NoMemory> {
    let mut line = String::from_str(alloc, front)?;
    for _ in 0..count {
        line.push_str(text)?;
    }
    line.push_str(end)?;
    Ok(line)
}

/// What a line with the text so often is read as, and one with the text once more.
fn read_about(
    alloc: Global,
    front: &str,
    text: &str,
    count: u32,
    end: &str,
) -> Result<(Reading, Reading), NoMemory> {
    let most = repeated(alloc, front, text, count, end)?;
    let longer = repeated(alloc, front, text, 1, "")?;
    let more = repeated(alloc, &longer, text, count, end)?;
    let first = read_unprinted(alloc, most.as_bytes())?;
    Ok((first, read_unprinted(alloc, more.as_bytes())?))
}

#[test]
fn a_table_has_at_most_256_rows_and_a_list_256_entries(rt: HostRuntime) -> Result<(), Fail> {
    let rows = read_about(rt.alloc(), "add t : table x :", " (1)", 256, "")?;
    assert_eq!(rt; rows, (Reading::Within, Reading::Beyond), "rows of a table");
    let entries = read_about(rt.alloc(), "add e : element z y (5", ",5", 255, ")")?;
    assert_eq!(rt;
        entries,
        (Reading::Within, Reading::Beyond),
        "entries of a list"
    );
    Ok(())
}

/// Appends as many spaces.
fn push_spaces(count: u32, bytes: &mut Vec<u8>) -> Result<(), NoMemory> {
    for _ in 0..count {
        bytes.push(b' ')?;
    }
    Ok(())
}

#[test]
fn a_comment_has_at_most_65536_bytes(rt: HostRuntime) -> Result<(), Fail> {
    let mut bytes = Vec::new(rt.alloc());
    push_spaces(65_536, &mut bytes)?;
    let most = read_unprinted(rt.alloc(), &bytes)?;
    assert_eq!(rt; most, Reading::Comment);
    push_spaces(1, &mut bytes)?;
    let more = read_unprinted(rt.alloc(), &bytes)?;
    assert_eq!(rt; more, Reading::Refused(LineError::Bytes));
    Ok(())
}

/// Where the first token from a place on stands.
fn place_of(text: &[u8], from: usize) -> Option<(usize, usize)> {
    if from > text.len() {
        return None;
    }
    match token(text, from) {
        Some(found) => Some((found.start, found.end)),
        None => None,
    }
}

/// Where the first token of ` x1<=..-03 ` from a place on stands.
const PLACES: &[(usize, Option<(usize, usize)>)] = &[
    (0, Some((1, 3))),
    (3, Some((3, 5))),
    (5, Some((5, 7))),
    (7, Some((7, 8))),
    (8, Some((8, 10))),
    (10, None),
];

#[test]
fn tokens_are_the_longest_that_fit(rt: HostRuntime) -> Result<(), Fail> {
    let text = b" x1<=..-03 ";
    for (from, place) in PLACES {
        assert_eq!(rt; place_of(text, *from), *place, "from {from}");
    }
    Ok(())
}
