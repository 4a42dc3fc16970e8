//! Certificates that are accepted.
use crate::told::verdict_of;
use std::test::Fail;
use tests_compare::first_difference;

/// A certificate for each kind of constraint, and what it claims.
const KINDS: &[(&[u8], &str)] = &[
    (
        b"palm-cert 1\nvar x 1..3\nvar y 1..3\nadd a : x < y\nadd b : y < x\nstep x 3 by a\nstep y 1 by a\n\
         step y 2 by b from 1\nstep y 3 by b\nclaim conflict y\nend\n",
        "accepted conflict y because a b",
    ),
    (
        b"palm-cert 1\nvar x 999999..1000000\nvar y {-1000000,-999999}\n\
         add g : sum 100000*x - 100000*y >= 200000000000\nstep x 999999 by g\nclaim x 999999\nend\n",
        "accepted x 999999 because g",
    ),
    (
        b"palm-cert 1\nvar u 0..1\nvar v 1..2\nadd f : v = 1\nadd h : sum u + v != 1\nstep v 2 by f\n\
         step u 0 by h from 1\nclaim u 0\nend\n",
        "accepted u 0 because f h",
    ),
    (
        b"palm-cert 1\nvar z {3,5,7}\nvar y 0..4\nadd e : element z y (5,3,5)\nadd f : z != 5\nstep z 5 by f\n\
         step y 1 by e from 1\nclaim y 1\nend\n",
        "accepted y 1 because e f",
    ),
    (
        b"palm-cert 1\nvar a 1..2\nvar b 1..2\nvar c 1..2\nvar n 0..3\nadd p : a = 1\nadd q : c != 1\n\
         add k : count 1 a b c = n\nadd r : n = 2\nstep a 2 by p\nstep c 1 by q\nstep n 1 by r\n\
         step b 2 by k from 1 2 3\nclaim b 2\nend\n",
        "accepted b 2 because p q k r",
    ),
    (
        b"palm-cert 1\nvar x 1..3\nvar y 1..3\nadd t : table x y : (1,2) (2,3) (3,9)\nadd f : x != 1\n\
         step x 1 by f\nstep y 2 by t from 1\nclaim y 2\nend\n",
        "accepted y 2 because t f",
    ),
    (
        b"palm-cert 1\nvar x 1..2\nvar y 1..2\nvar z 1..2\nadd d : differ x y z\nadd f : x = 1\nstep x 2 by f\n\
         step y 1 by d from 1\nstep z 1 by d from 1\nstep y 2 by d from 3\nclaim conflict y\nend\n",
        "accepted conflict y because d f",
    ),
    (
        b"palm-cert 1\nvar x 0..5\nadd y : x in {1,9}\nstep x 3 by y\nclaim x 3\nend\n",
        "accepted x 3 because y",
    ),
    (
        b"palm-cert 1\nvar x 1..2\nvar y 0..2\nadd x : x in{9,1,-1}\nadd y : y in 2..9\nadd a : x = y\nstep x 2 by x\n\
         step y 1 by y\nstep x 1 by a from 2\nclaim conflict x\nend\n",
        "accepted conflict x because x y a",
    ),
];

#[test]
fn a_certificate_is_accepted(rt: HostRuntime) -> Result<(), Fail> {
    let rows: [(&[u8], &str); 2] = [
        (
            b"palm-cert 1\nvar x 1..3\nvar y 1..3\nadd a : x = y\nadd d : y != 2\nstep y 2 by d\nstep x 2 by a from 1\n\
             claim x 2\nend\n",
            "accepted x 2 because a d",
        ),
        (b"", "refused 1 C5"),
    ];
    for (text, line) in rows {
        let got = verdict_of(rt.alloc(), text)?;
        assert_eq!(rt; first_difference(line.as_bytes(), &got), None, "{line}");
    }
    Ok(())
}

#[test]
fn each_kind_of_constraint_is_a_cause(rt: HostRuntime) -> Result<(), Fail> {
    for (text, line) in KINDS {
        let got = verdict_of(rt.alloc(), text)?;
        assert_eq!(rt; first_difference(line.as_bytes(), &got), None, "{line}");
    }
    Ok(())
}

#[test]
fn the_definition_decides_where_no_filter_is_asked(rt: HostRuntime) -> Result<(), Fail> {
    let rows: [(&[u8], &str); 5] = [
        // A pair among its own reasons.
        (
            b"palm-cert 1\nvar x 1..3\nvar y 1..3\nadd a : x = y\nadd c : x != 2\nstep x 2 by c\nstep x 2 by a from 1\n\
             claim x 2\nend\n",
            "accepted x 2 because a c",
        ),
        // The same of a constraint that is not over its variable.
        (
            b"palm-cert 1\nvar x 1..3\nvar y 1..3\nadd c : x != 2\nadd d : y != 2\nstep x 2 by c\nstep x 2 by d from 1\n\
             claim x 2\nend\n",
            "refused 7 C4",
        ),
        // Reasons that empty a domain.
        (
            b"palm-cert 1\nvar x 1..3\nvar y 1..2\nadd a : sum x + y != 9\nadd c : y != 1\nadd d : y != 2\nstep y 1 by c\n\
             step y 2 by d\nstep x 3 by a from 2 1 2\nclaim x 3\nend\n",
            "accepted x 3 because a c d",
        ),
        // A claim of one value is not reached by steps of another variable's.
        (
            b"palm-cert 1\nvar x 1..2\nvar y 1..2\nadd c : x != 2\nstep x 2 by c\nclaim y 2\nend\n",
            "refused 6 C5",
        ),
        // A variable that is called `conflict`, blanks, comments, carriage returns, leading zeros and no last line feed.
        (
            b"# one\n\tpalm - cert 1\r\nvar conflict {2,1,2}\nadd c : conflict = 1\n\nstep conflict 02 by c\n\
             claim conflict 2\nend\n# ended",
            "accepted conflict 2 because c",
        ),
    ];
    for (text, line) in rows {
        let got = verdict_of(rt.alloc(), text)?;
        assert_eq!(rt; first_difference(line.as_bytes(), &got), None, "{line}");
    }
    Ok(())
}
