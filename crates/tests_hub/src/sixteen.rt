//! Sixteen sessions, and no more.
use crate::served::answer;
use palm_base::NoMemory;
use std::alloc::Global;
use std::test::Fail;
use tests_compare::first_difference;

/// Appends so many lines, each with its number, from 1 on, between two texts.
fn put_lines(text: &mut String, front: &str, count: u32, back: &str) -> Result<(), NoMemory> {
    for number in 0..count {
        writeln!(text, "{front}{}{back}", number.saturating_add(1))?;
    }
    Ok(())
}

/// A text behind lines, one for each of the sessions s1 to s16, that end so.
fn behind_sixteen(alloc: Global, back: &str, text: &str) -> Result<String, NoMemory> {
    let mut whole = String::new(alloc);
    put_lines(&mut whole, "s", 16, back)?;
    whole.push_str(text)?;
    Ok(whole)
}

/// Lines behind sixteen sessions, and what is written of them.
const BEHIND: &[(&str, &str)] = &[
    (
        "s17 \ns17 # note\n",
        "hub error H2 too many sessions\nhub error H2 too many sessions\n",
    ),
    (
        "s16 var x 1..2\ns17 list\ns16 quit\ns1 list\n",
        "s16 : ok\nhub error H2 too many sessions\ns16 : bye\ns1 : end\n",
    ),
    (
        "s3 quit\ns17 list\ns3 list\n",
        "s3 : bye\nhub error H2 too many sessions\nhub error H3 session over\n",
    ),
    ("# note\ns17\n", "hub error H1 no session name\n"),
    ("s1 # note\ns1 \n", ""),
    ("s list", "hub error H2 too many sessions\n"),
];

#[test]
fn sixteen_sessions_are_opened_and_go_on(rt: HostRuntime) -> Result<(), Fail> {
    for (lines, output) in BEHIND {
        let text = behind_sixteen(rt.alloc(), " list", lines)?;
        let expected = behind_sixteen(rt.alloc(), " : end", output)?;
        let got = answer(rt.alloc(), text.as_bytes(), &expected)?;
        assert_eq!(rt;
            first_difference(expected.as_bytes(), &got.output),
            None,
            "{lines} in pieces of {}",
            got.piece
        );
    }
    Ok(())
}

/// Lines that open no session, however many there are.
const REFUSED: &str = "# a\n#b \n c x\n9 x\nsum x\nd\n";

#[test]
fn comments_and_refused_lines_open_none(rt: HostRuntime) -> Result<(), Fail> {
    let mut text = String::new(rt.alloc());
    let mut output = String::new(rt.alloc());
    for _ in 0..16 {
        text.push_str(REFUSED)?;
        output.push_str("hub error H1 no session name\nhub error H1 no session name\n")?;
        output.push_str("hub error H1 no session name\nhub error H1 no session name\n")?;
    }
    put_lines(&mut text, "s", 17, " list")?;
    put_lines(&mut output, "s", 16, " : end")?;
    output.push_str("hub error H2 too many sessions\n")?;
    let got = answer(rt.alloc(), text.as_bytes(), &output)?;
    assert_eq!(rt;
        first_difference(output.as_bytes(), &got.output),
        None,
        "in pieces of {}",
        got.piece
    );
    Ok(())
}
