//! Large proofs, and the limits.
use crate::told::{assert_verdicts, verdict_from, verdict_of};
use palm_base::NoMemory;
use std::alloc::Global;
use std::test::Fail;
use tests_compare::first_difference;

/// Appends so many items, each with its number, from 0 on, between two texts.
fn put_items(text: &mut String, front: &str, count: u32, back: &str) -> Result<(), NoMemory> {
    for number in 0..count {
        write!(text, "{front}{number}{back}")?;
    }
    Ok(())
}

/// A text, and so many items behind it.
fn listed(
    alloc: Global,
    first: &str,
    front: &str,
    count: u32,
    back: &str,
) -> Result<String, NoMemory> {
    let mut text = String::from_str(alloc, first)?;
    put_items(&mut text, front, count, back)?;
    Ok(text)
}

/// Behind 128 variables.
const VARIABLES: &[(&[u8], &str)] = &[
    (b"", "refused 130 P5"),
    (b"var y 1..2", "refused 130 P6"),
    (b"var x127 1..2", "refused 130 P2"),
    (b"var y 2..1", "refused 130 P1"),
];

#[test]
fn a_proof_has_128_variables_at_most(rt: HostRuntime) -> Result<(), Fail> {
    let head = listed(rt.alloc(), "palm-proof 1\n", "var x", 128, " 1..2\n")?;
    assert_verdicts(&rt, rt.alloc(), head.as_bytes(), VARIABLES, b"")?;
    Ok(())
}

/// Behind 512 constraints.
const CONSTRAINTS: &[(&[u8], &str)] = &[
    (b"", "refused 515 P5"),
    (b"add b : x != 1", "refused 515 P6"),
    (b"add a511 : x != 1", "refused 515 P2"),
    (b"add b : y != 1", "refused 515 P2"),
    (b"add b : x in {}", "refused 515 P1"),
    (b"lemma\nwipe y", "refused 516 P2"),
];

#[test]
fn a_proof_has_512_constraints_at_most(rt: HostRuntime) -> Result<(), Fail> {
    let one = "palm-proof 1\nvar x 1..2\n";
    let head = listed(rt.alloc(), one, "add a", 512, " : x in 1..1\n")?;
    assert_verdicts(&rt, rt.alloc(), head.as_bytes(), CONSTRAINTS, b"")?;
    Ok(())
}

/// Behind a domain of 256 values that is not closed yet.
const VALUES: &[(&[u8], &str)] = &[
    (b"}", "refused 3 P5"),
    (b",7}", "refused 3 P5"),
    (b",255}", "refused 2 P6"),
    (b",255", "refused 2 P1"),
];

#[test]
fn a_variable_has_256_values_at_most(rt: HostRuntime) -> Result<(), Fail> {
    let head = listed(rt.alloc(), "palm-proof 1\nvar y {-1", ",", 255, "")?;
    assert_verdicts(&rt, rt.alloc(), head.as_bytes(), VALUES, b"")?;
    Ok(())
}

/// Behind a constraint on a domain of 256 values that is not closed yet.
const WITHIN: &[(&[u8], &str)] = &[(b"}", "refused 4 P5"), (b",255}", "refused 3 P6")];

#[test]
fn a_constraint_on_a_domain_has_256_values_at_most(rt: HostRuntime) -> Result<(), Fail> {
    let first = "palm-proof 1\nvar x 1..2\nadd k : x in {-1";
    let head = listed(rt.alloc(), first, ",", 255, "")?;
    assert_verdicts(&rt, rt.alloc(), head.as_bytes(), WITHIN, b"")?;
    Ok(())
}

/// Behind a table of 256 rows.
const ROWS: &[(&[u8], &str)] = &[(b"", "refused 4 P5"), (b" (256)", "refused 3 P6")];

#[test]
fn a_table_has_256_rows_at_most(rt: HostRuntime) -> Result<(), Fail> {
    let first = "palm-proof 1\nvar x 1..2\nadd t : table x :";
    let head = listed(rt.alloc(), first, " (", 256, ")")?;
    assert_verdicts(&rt, rt.alloc(), head.as_bytes(), ROWS, b"")?;
    Ok(())
}

/// Behind 256 entries that are not closed yet.
const ENTRIES: &[(&[u8], &str)] = &[(b")", "refused 5 P5"), (b",0)", "refused 4 P6")];

#[test]
fn a_list_has_256_entries_at_most(rt: HostRuntime) -> Result<(), Fail> {
    let first = "palm-proof 1\nvar x 1..2\nvar y 1..2\nadd e : element x y (0";
    let head = listed(rt.alloc(), first, ",", 255, "")?;
    assert_verdicts(&rt, rt.alloc(), head.as_bytes(), ENTRIES, b"")?;
    Ok(())
}

/// Behind a constraint over 16 variables of 17.
const SCOPE: &[(&[u8], &str)] = &[
    (b"", "refused 20 P5"),
    (b" x16", "refused 19 P6"),
    (b" x17", "refused 19 P2"),
    (b" x15", "refused 19 P1"),
];

#[test]
fn a_constraint_has_16_variables_at_most(rt: HostRuntime) -> Result<(), Fail> {
    let mut head = listed(rt.alloc(), "palm-proof 1\n", "var x", 17, " 1..2\n")?;
    head.push_str("add d : differ")?;
    put_items(&mut head, " x", 16, "")?;
    assert_verdicts(&rt, rt.alloc(), head.as_bytes(), SCOPE, b"")?;
    Ok(())
}

/// Lines of the proof, a text that is filled up with a byte to so many, what stands behind it, and the verdict.
type Filled = (usize, &'static [u8], u8, usize, &'static [u8], &'static str);

/// Long lines.
const LONG: &[Filled] = &[
    (19, b"#", b'x', 65_536, b"", "accepted none because d"),
    (19, b"#", b'x', 65_536, b"\r\n", "accepted none because d"),
    (19, b"#", b'x', 65_537, b"\n", "refused 20 P1"),
    (19, b" ", b'\t', 65_536, b"\n", "accepted none because d"),
    (19, b" ", b'\t', 65_537, b"\n", "refused 20 P1"),
    (10, b"wipe z", b' ', 65_536, b"\r\n", "refused 12 P5"),
    (10, b"wipe z", b' ', 65_537, b"\n", "refused 11 P1"),
    (10, b"wipe ", b'z', 37, b"\n", "refused 11 P2"),
    (10, b"wipe ", b'z', 38, b"\n", "refused 11 P1"),
    (10, b"wipe ", b'z', 65_536, b"\n", "refused 11 P1"),
    (
        12,
        b"step x 1 lemma ",
        b'0',
        65_535,
        b"1\n",
        "refused 14 P5",
    ),
    (12, b"step x 1 lemma ", b'1', 65_535, b"\n", "refused 13 P1"),
    (
        13,
        b"step y 2 by d from ",
        b'0',
        65_535,
        b"1\n",
        "refused 15 P5",
    ),
    (
        13,
        b"step y 2 by d from ",
        b'1',
        65_535,
        b"\n",
        "refused 14 P1",
    ),
];

/// The verdict on the lines and the filled text.
fn verdict_on(alloc: Global, filled: &Filled) -> Result<Vec<u8>, NoMemory> {
    let (lines, first, byte, length, last, _) = filled;
    let mut text = Vec::from_slice(alloc, first)?;
    for _ in first.len()..*length {
        text.push(*byte)?;
    }
    text.extend_from_slice(last)?;
    verdict_from(alloc, *lines, &text)
}

#[test]
fn a_line_has_65536_bytes_at_most(rt: HostRuntime) -> Result<(), Fail> {
    for filled in LONG {
        let got = verdict_on(rt.alloc(), filled)?;
        assert_eq!(rt;
            first_difference(filled.5.as_bytes(), &got),
            None,
            "{} .. {}, {} bytes",
            filled.1.escape_ascii(),
            filled.4.escape_ascii(),
            filled.3
        );
    }
    Ok(())
}

/// So many lemmas of one pair, each but the first by the one before, and the last lemma.
fn chain(alloc: Global, count: u32) -> Result<String, NoMemory> {
    let mut text = String::from_str(
        alloc,
        "palm-proof 1\nvar x 1..2\nadd a : x != 1\nadd b : x != 2\nlemma x=1\nstep x 1 by a\nstep x 2 assume\nwipe x\n",
    )?;
    for number in 1..count {
        write!(
            text,
            "lemma x=1\nstep x 1 lemma {number}\nstep x 2 assume\nwipe x\n"
        )?;
    }
    write!(
        text,
        "lemma\nstep x 1 lemma {count}\nstep x 2 by b\nwipe x\n"
    )?;
    Ok(text)
}

/// Appends lemmas of 127 pairs, of 126 and so on to none, each by the one before and a constraint.
fn put_stairs(text: &mut String) -> Result<(), NoMemory> {
    for lemma in 1u32..129 {
        let var = 128 - lemma;
        text.push_str("lemma")?;
        put_items(text, " x", var, "=1")?;
        write!(
            text,
            "\nstep x{var} 1 lemma {lemma}\nstep x{var} 2 by c{var}\nwipe x{var}\n"
        )?;
    }
    Ok(())
}

/// A lemma of 128 pairs, and lemmas of fewer and fewer pairs.
fn stairs(alloc: Global) -> Result<String, NoMemory> {
    let mut text = listed(alloc, "palm-proof 1\n", "var x", 128, " 1..2\n")?;
    text.push_str("add a : x0 != 1\n")?;
    for number in 0..128 {
        writeln!(text, "add c{number} : x{number} != 2")?;
    }
    text.push_str("lemma")?;
    put_items(&mut text, " x", 128, "=1")?;
    text.push_str("\nstep x0 1 by a\nstep x0 2 assume\nwipe x0\n")?;
    put_stairs(&mut text)?;
    Ok(text)
}

/// Fifteen variables of which steps leave one value of 256 each, and a sum with a sixteenth that all these steps are
/// reasons for, but for so many of the last ones.
fn summed(alloc: Global, left_out: u32) -> Result<String, NoMemory> {
    let mut text = listed(alloc, "palm-proof 1\n", "var x", 15, " 1..256\n")?;
    text.push_str("var y 1..1\n")?;
    for number in 0..15 {
        writeln!(text, "add c{number} : x{number} = 1")?;
    }
    text.push_str("add s : sum y")?;
    put_items(&mut text, " + x", 15, "")?;
    text.push_str(" >= 270\nlemma\n")?;
    for number in 0..15 {
        put_steps(&mut text, number)?;
    }
    text.push_str("step y 1 by s from")?;
    for number in 1..3826 - left_out.min(3825) {
        write!(text, " {number}")?;
    }
    text.push_str("\nwipe y\n")?;
    Ok(text)
}

/// Appends steps that leave one value of 256.
fn put_steps(text: &mut String, number: u32) -> Result<(), NoMemory> {
    for value in 2..257 {
        writeln!(text, "step x{number} {value} by c{number}")?;
    }
    Ok(())
}

/// The names of a `none` line: first names, so many with numbers, and last ones.
fn users(alloc: Global, first: &str, count: u32, last: &str) -> Result<String, NoMemory> {
    let mut names = listed(alloc, first, " c", count, "")?;
    names.push_str(last)?;
    Ok(names)
}

/// The verdict on the text with a `none` line of these names.
fn verdict_with(alloc: Global, mut text: String, users: &str) -> Result<Vec<u8>, NoMemory> {
    write!(text, "none{users}\nend\n")?;
    verdict_of(alloc, text.as_bytes())
}

#[test]
fn each_of_600_lemmas_is_by_the_one_before(rt: HostRuntime) -> Result<(), Fail> {
    let rows = [
        (" a b", "accepted none because a b"),
        (" b", "refused 2409 P5"),
    ];
    for (names, line) in rows {
        let got = verdict_with(rt.alloc(), chain(rt.alloc(), 600)?, names)?;
        assert_eq!(rt; first_difference(line.as_bytes(), &got), None, "{names}");
    }
    Ok(())
}

#[test]
fn a_lemma_has_128_pairs(rt: HostRuntime) -> Result<(), Fail> {
    let alloc = rt.alloc();
    let all = users(alloc, " a", 128, "")?;
    let got = verdict_with(alloc, stairs(alloc)?, &all)?;
    let line = format!(in alloc; "accepted none because{all}")?;
    assert_eq!(rt; first_difference(line.as_bytes(), &got), None);
    let got = verdict_with(alloc, stairs(alloc)?, &users(alloc, " a", 127, "")?)?;
    assert_eq!(rt; first_difference(b"refused 775 P5", &got), None);
    Ok(())
}

#[test]
fn a_step_has_3825_reasons(rt: HostRuntime) -> Result<(), Fail> {
    let alloc = rt.alloc();
    let all = users(alloc, "", 15, " s")?;
    let got = verdict_with(alloc, summed(alloc, 0)?, &all)?;
    let line = format!(in alloc; "accepted none because{all}")?;
    assert_eq!(rt; first_difference(line.as_bytes(), &got), None);
    let got = verdict_with(alloc, summed(alloc, 1)?, &all)?;
    assert_eq!(rt; first_difference(b"refused 3860 P4", &got), None);
    Ok(())
}
