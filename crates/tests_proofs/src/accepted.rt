//! Forms of a proof.
use crate::told::assert_verdicts;
use std::test::Fail;

/// Proofs, each with forms that are seldom written.
const FORMS: &[(&[u8], &str)] = &[
    // Numbers that repeat and fall, pairs that are proved twice, and leading zeros.
    (
        b"palm-proof 1\nvar x 1..3\nvar y 1..3\nadd a : x < y\nadd b : y < 3\nadd c : x >= 2\nlemma\nstep y 3 by b\n\
          step x 3 by a\nstep x 2 by a from 2 1 1 2 1\nstep x 02 by a from 01\nstep x 2 by a from 0003 4\nstep x 1 by c\n\
          wipe x\nnone a b c\nend\n",
        "accepted none because a b c",
    ),
    // Comments and blank lines everywhere, carriage returns, and no last line feed.
    (
        b"# one\r\n\r\n\tpalm - proof 1 \r\n #\nvar x {2,1,2}\r\n\t\nvar y{1,2}\n\nadd a:x!=1\n# \xff\x00\nadd b : x!=2\r\n\
          \n#\nlemma\n \nstep x 1by a\r\n#lemma\nstep\tx\t2\tby\tb\n\n# wipe\nwipe x\r\n\nnone a b\n#\n\nend\r\n\n# ended\r\n \t",
        "accepted none because a b",
    ),
    // Tokens side by side, signs and leading zeros.
    (
        b"palm-proof 1\nvar x -1..0\nvar y -1..0\nadd d:x!=y\nadd f:x=y\nlemma x=-1y=- 01\nstep x -0assume\n\
          step y 0 assume\nstep x -1by d from 2\nwipe x\nlemma y=-1\nstep x - 1 lemma \
          0000000000000000000000000000000000000000000000001\nstep y 0assume\nstep x 0 by f from 2\nwipe x\nlemma\n\
          step y -1lemma 2\nstep x -1 by f from 0001\nstep x 0 by d from \
          0000000000000000000000000000000000000000000000001\nwipe x\nnone d f\nend\r",
        "accepted none because d f",
    ),
    // Words of the forms as names.
    (
        b"palm-proof 1\nvar lemma 1..2\nvar step 1..2\nadd from : lemma != 1\nadd lemma : lemma = step\nadd none : step != 2\n\
          lemma lemma=2 step=1\nstep step 2 assume\nstep lemma 2 by lemma from 1\nstep lemma 1 assume\nwipe lemma\n\
          lemma lemma=2\nstep step 1 lemma 1\nstep step 2 by none\nwipe step\nlemma\nstep lemma 2 lemma 2\n\
          step lemma 1 by from\nwipe lemma\nnone from lemma none\nend\n",
        "accepted none because from lemma none",
    ),
    (
        b"palm-proof 1\nvar assume 1..2\nvar wipe 1..1\nadd end : assume = 1\nadd assume : assume != wipe\n\
          add by : assume < 9\nlemma assume=1\nstep assume 1 by assume\nstep assume 2 assume\nwipe assume\nlemma\n\
          step assume 1 lemma 1\nstep assume 2 by end\nwipe assume\nnone end assume\nend\n",
        "accepted none because end assume",
    ),
    // A variable and a constraint that no step names, a lemma that none names, and the pair of a lemma that takes itself out.
    (
        b"palm-proof 1\nvar w 7..7\nvar x 1..2\nadd a : x != 1\nadd b : x != 2\nadd c : w = 7\nlemma w=7 x=2\nstep x 2 by b\n\
          step x 1 assume\nwipe x\nlemma x=1\nstep x 1 by a\nstep x 2 assume\nwipe x\nlemma x=1\nstep x 1 lemma 2\n\
          step x 2 assume\nwipe x\nlemma\nstep x 2 by b\nstep x 1 lemma 3\nwipe x\nnone a b\nend\n",
        "accepted none because a b",
    ),
];

#[test]
fn proofs_are_accepted_in_all_their_forms(rt: HostRuntime) -> Result<(), Fail> {
    assert_verdicts(&rt, rt.alloc(), b"", FORMS, b"")?;
    Ok(())
}
