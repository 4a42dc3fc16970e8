//! What is a session's name, and what is a comment.
use crate::served::answer;
use std::test::Fail;
use tests_compare::first_difference;

/// Lines that begin with a name and a space or a tab.
const NAMES: &[(&[u8], &str)] = &[
    (
        b"abcdefghijklmnopqrstuvwxyz_12345 list\n",
        "abcdefghijklmnopqrstuvwxyz_12345 : end\n",
    ),
    (
        b"abcdefghijklmnopqrstuvwxyz_12345\tlist",
        "abcdefghijklmnopqrstuvwxyz_12345 : end\n",
    ),
    (b"a\tlist\n", "a : end\n"),
    (b"a \t list \n", "a : end\n"),
    (b"_ list\n", "_ : end\n"),
    (b"_9 list\n", "_9 : end\n"),
    (
        b"hub list\nerror list\nvar list\n",
        "hub : end\nerror : end\nvar : end\n",
    ),
    (b"sums list\ninn list\n", "sums : end\ninn : end\n"),
    (b"Sum list\n", "Sum : end\n"),
    (
        b"a var x 1..2\nA domains\nab domains\na domains\n",
        "a : ok\nA : end\nab : end\na : x: 1 2\na : end\n",
    ),
    (b"a a list\n", "a : error E2 no such form\n"),
    (b"a \na\t\nb  \t\n", ""),
];

#[test]
fn names_are_those_of_the_language(rt: HostRuntime) -> Result<(), Fail> {
    for (text, output) in NAMES {
        let got = answer(rt.alloc(), text, output)?;
        assert_eq!(rt;
            first_difference(output.as_bytes(), &got.output),
            None,
            "{} in pieces of {}",
            text.escape_ascii(),
            got.piece
        );
    }
    Ok(())
}

/// Lines that are no comments, and do not begin so.
const NAMELESS: &[&[u8]] = &[
    b"a",
    b"abcdefghijklmnopqrstuvwxyz_123456 list",
    b"abcdefghijklmnopqrstuvwxyz_12345",
    b"abcdefghijklmnopqrstuvwxyz_12345678901234567890",
    b" a list",
    b"\ta list",
    b"                                 a list",
    b"sum x",
    b"sum list",
    b"table list",
    b"element list",
    b"count list",
    b"differ list",
    b"in list",
    b"9 list",
    b"9a list",
    b"a-b list",
    b"a: list",
    b"a.b list",
    b": list",
    b"\"a\" list",
    b"a\x00 list",
    b"\xc3\xa4 list",
    b"a\rlist",
    b"a#",
    b"list",
];

#[test]
fn other_lines_have_no_name(rt: HostRuntime) -> Result<(), Fail> {
    let output = "hub error H1 no session name\n";
    for text in NAMELESS {
        let got = answer(rt.alloc(), text, output)?;
        assert_eq!(rt;
            first_difference(output.as_bytes(), &got.output),
            None,
            "{} in pieces of {}",
            text.escape_ascii(),
            got.piece
        );
    }
    Ok(())
}

/// Comments, to nobody and to a session.
const COMMENTS: &[(&[u8], &str)] = &[
    (b"# a list\n#\n \t\n\t# a list\n", ""),
    (b"#a list\n  #a list\na list\n", "a : end\n"),
    (b"# \xff\x00\r\r\n", ""),
    (b"                                 # a list\n", ""),
    (
        b"                                                                  \n",
        "",
    ),
    (
        b"                                                                  #\n",
        "",
    ),
    (
        b"                                                                  a\n",
        "hub error H1 no session name\n",
    ),
    (b"a # \xff\na #\na  # note\na list\n", "a : end\n"),
];

#[test]
fn comments_have_no_reply(rt: HostRuntime) -> Result<(), Fail> {
    for (text, output) in COMMENTS {
        let got = answer(rt.alloc(), text, output)?;
        assert_eq!(rt;
            first_difference(output.as_bytes(), &got.output),
            None,
            "{} in pieces of {}",
            text.escape_ascii(),
            got.piece
        );
    }
    Ok(())
}
