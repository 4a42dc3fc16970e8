//! Certificates that are refused, each at a line and with a cause. (Those with a line changed stand in tests_program.)
use crate::told::verdict_of;
use palm_base::NoMemory;
use std::alloc::Global;
use std::test::Fail;
use tests_compare::first_difference;

#[test]
fn lines_have_their_places_and_their_causes_an_order(rt: HostRuntime) -> Result<(), Fail> {
    let rows: [(&[u8], &str); 10] = [
        (b"palm-cert 01\n", "refused 1 C1"),
        (b"var x 1..3\n", "refused 1 C1"),
        (b"palm-cert 1\npalm-cert 1\n", "refused 2 C1"),
        (
            b"palm-cert 1\nvar x 1..3\nadd c : x != 2\nvar x 1..3\n",
            "refused 4 C1",
        ),
        (
            b"palm-cert 1\nvar x 1..3\nadd c : x != 2\nstep x 2 by c\nadd d : x != 3\n",
            "refused 5 C1",
        ),
        (b"palm-cert 1\nvar x 1..3\nvar x 1..257\n", "refused 3 C2"),
        (
            b"palm-cert 1\nvar x 1..3\nadd c : x != 2\nstep x 2 by c from 4294967296\n",
            "refused 4 C1",
        ),
        (
            b"palm-cert 1\nvar x 1..3\nadd c : x != 2\nstep x 2 by c from\n",
            "refused 4 C1",
        ),
        (
            b"palm-cert 1\nvar x 1..3\nadd c : x != 2\nstep x 3 by c from 1\n",
            "refused 4 C3",
        ),
        (b"palm-cert 1\nclaim x 2\nend\n", "refused 2 C2"),
    ];
    for (text, line) in rows {
        let got = verdict_of(rt.alloc(), text)?;
        assert_eq!(rt; first_difference(line.as_bytes(), &got), None, "{line}");
    }
    Ok(())
}

/// Constraints on a domain, and what sessions of version 2 say and certificates do not.
const WITHINS: &[(&[u8], &str)] = &[
    (b"palm 2\n", "refused 1 C1"),
    (b"palm-cert 2\n", "refused 1 C1"),
    (b"palm-cert 1\npalm 2\n", "refused 2 C1"),
    (b"palm-cert 1\nvar x 0..5 in 1..3\n", "refused 2 C1"),
    (
        b"palm-cert 1\nvar x 0..5\nadd y : x in {1,3}\nstep x 3 by y\n",
        "refused 4 C4",
    ),
    (
        b"palm-cert 1\nvar x 0..5\nadd y : x in {}\n",
        "refused 3 C1",
    ),
    (
        b"palm-cert 1\nvar x 0..5\nadd y : z in 0..999\n",
        "refused 3 C2",
    ),
    (
        b"palm-cert 1\nvar x 0..5\nadd y : x in 0..256\n",
        "refused 3 C6",
    ),
    (
        b"palm-cert 1\nvar x 0..5\nadd y : x in 0..255\nadd y : x in 0..256\n",
        "refused 4 C2",
    ),
];

#[test]
fn domains_are_constraints_of_certificates(rt: HostRuntime) -> Result<(), Fail> {
    for (text, line) in WITHINS {
        let got = verdict_of(rt.alloc(), text)?;
        assert_eq!(rt; first_difference(line.as_bytes(), &got), None, "{line}");
    }
    Ok(())
}

/// The first line and some more, and then so many, each with its number between two texts.
fn listed(
    alloc: Global,
    first: &str,
    front: &str,
    count: u32,
    back: &str,
) -> Result<String, NoMemory> {
    let mut text = String::from_str(alloc, first)?;
    for number in 0..count {
        writeln!(text, "{front}{number}{back}")?;
    }
    Ok(text)
}

#[test]
fn a_certificate_has_128_variables_and_512_constraints_at_most(
    rt: HostRuntime,
) -> Result<(), Fail> {
    let header = "palm-cert 1\n";
    let declared = "palm-cert 1\nvar x 1..2\n";
    let variables = listed(rt.alloc(), header, "var x", 128, " 1..2")?;
    let more_variables = listed(rt.alloc(), header, "var x", 129, " 1..2")?;
    let constraints = listed(rt.alloc(), declared, "add a", 512, " : x in 1..1")?;
    let more_constraints = listed(rt.alloc(), declared, "add a", 513, " : x in 1..1")?;
    let rows: [(&[u8], &str); 4] = [
        (variables.as_bytes(), "refused 130 C5"),
        (more_variables.as_bytes(), "refused 130 C6"),
        (constraints.as_bytes(), "refused 515 C5"),
        (more_constraints.as_bytes(), "refused 515 C6"),
    ];
    for (text, line) in rows {
        let got = verdict_of(rt.alloc(), text)?;
        assert_eq!(rt; first_difference(line.as_bytes(), &got), None, "{line}");
    }
    Ok(())
}
