//! Steps of a proof, right and forged.
use crate::told::{assert_verdicts, assert_verdicts_from};
use std::test::Fail;

/// Steps behind `lemma x=1` and its first step, which took 2 from x. The step's own number is 2, the lemma's own is 1.
const FORGED: &[(&[u8], &str)] = &[
    (b"step y 1 by d from 1\n", "refused 9 P5"),
    (b"step y 1 by d from 1 01 1\n", "refused 9 P5"),
    // No form.
    (b"step\n", "refused 8 P1"),
    (b"step y\n", "refused 8 P1"),
    (b"step y 1\n", "refused 8 P1"),
    (b"step y 1 d\n", "refused 8 P1"),
    (b"step y by d\n", "refused 8 P1"),
    (b"step 1 y by d\n", "refused 8 P1"),
    (b"step y=1 by d\n", "refused 8 P1"),
    (b"step y 1 by\n", "refused 8 P1"),
    (b"step y 1 by sum\n", "refused 8 P1"),
    (b"step y 1 by d 1\n", "refused 8 P1"),
    (b"step y 1 by d from\n", "refused 8 P1"),
    (b"step y 1 by d from d\n", "refused 8 P1"),
    (b"step y 1 by d from 1,1\n", "refused 8 P1"),
    (b"step y 1 by d from 1 from 1\n", "refused 8 P1"),
    (b"step y 1 by d from 1 # one\n", "refused 8 P1"),
    (b"step x 2 assumed\n", "refused 8 P1"),
    (b"step x 2 assume 1\n", "refused 8 P1"),
    (b"step x 2 assume from 1\n", "refused 8 P1"),
    (b"step x 2 lemma\n", "refused 8 P1"),
    (b"step x 2 lemma d\n", "refused 8 P1"),
    (b"step x 2 lemma 1 1\n", "refused 8 P1"),
    (b"step x 2 lemma 1 from 1\n", "refused 8 P1"),
    (b"steps y 1 by d from 1\n", "refused 8 P1"),
    // Numbers out of their ranges.
    (b"step y 1000001 by d from 1\n", "refused 8 P1"),
    (b"step y 4294967297 by d from 1\n", "refused 8 P1"),
    (b"step x 1000001 assume\n", "refused 8 P1"),
    (b"step y 1 by d from 0\n", "refused 8 P1"),
    (b"step y 1 by d from 00\n", "refused 8 P1"),
    (b"step y 1 by d from 1 0\n", "refused 8 P1"),
    (b"step y 1 by d from -1\n", "refused 8 P1"),
    (b"step y 1 by d from 4294967296\n", "refused 8 P1"),
    (b"step y 1 by d from 4294967297\n", "refused 8 P1"),
    (b"step y 1 by d from 9 4294967296\n", "refused 8 P1"),
    (b"step y 1 by d from 18446744073709551617\n", "refused 8 P1"),
    (
        b"step y 1 by d from 340282366920938463463374607431768211457\n",
        "refused 8 P1",
    ),
    (b"step x 1 lemma 0\n", "refused 8 P1"),
    (b"step x 1 lemma -1\n", "refused 8 P1"),
    (b"step x 1 lemma 18446744073709551616\n", "refused 8 P1"),
    (b"step x 1 lemma 18446744073709551617\n", "refused 8 P1"),
    (
        b"step x 1 lemma 340282366920938463463374607431768211457\n",
        "refused 8 P1",
    ),
    (b"step q 9 by q from 0\n", "refused 8 P1"),
    (b"step q 9 lemma 0\n", "refused 8 P1"),
    // Names and values that are not declared.
    (b"step q 1 by d from 1\n", "refused 8 P2"),
    (b"step d 1 by d from 1\n", "refused 8 P2"),
    (b"step y 3 by d from 1\n", "refused 8 P2"),
    (b"step y 1 by q from 1\n", "refused 8 P2"),
    (b"step y 1 by x from 1\n", "refused 8 P2"),
    (b"step y 1 by assume\n", "refused 8 P2"),
    (b"step y 1 by q from 9\n", "refused 8 P2"),
    (b"step y 0 by d from 9\n", "refused 8 P2"),
    (b"step q 1 assume\n", "refused 8 P2"),
    (b"step x 3 assume\n", "refused 8 P2"),
    (b"step q 1 lemma 1\n", "refused 8 P2"),
    (b"step x 3 lemma 9\n", "refused 8 P2"),
    // Numbers that are not below the step's or the lemma's own.
    (b"step y 1 by d from 2\n", "refused 8 P3"),
    (b"step y 1 by d from 3\n", "refused 8 P3"),
    (b"step y 1 by d from 1 2\n", "refused 8 P3"),
    (b"step y 1 by d from 2 1\n", "refused 8 P3"),
    (b"step y 1 by d from 4294967295\n", "refused 8 P3"),
    (b"step x 1 lemma 1\n", "refused 8 P3"),
    (b"step x 1 lemma 2\n", "refused 8 P3"),
    (b"step y 1 lemma 4294967297\n", "refused 8 P3"),
    (b"step y 1 lemma 18446744073709551615\n", "refused 8 P3"),
    // Steps that are not right.
    (b"step y 1 by d\n", "refused 8 P4"),
    (b"step y 2 by d from 1\n", "refused 8 P4"),
    (b"step x 1 by d from 1\n", "refused 8 P4"),
    (b"step x 1 assume\n", "refused 8 P4"),
    (b"step y 1 assume\n", "refused 8 P4"),
    (b"step y 2 assume\n", "refused 8 P4"),
];

#[test]
fn steps_of_the_first_lemma_are_judged(rt: HostRuntime) -> Result<(), Fail> {
    assert_verdicts_from(&rt, rt.alloc(), 7, FORGED)?;
    Ok(())
}

/// Steps behind `lemma` and its first step, which took 1 from x by the first lemma. The step's own number is 2, the lemma's
/// own is 2.
const SECOND: &[(&[u8], &str)] = &[
    (b"step y 2 by d from 1\n", "refused 15 P5"),
    (b"step x 1 lemma 01\n", "refused 15 P5"),
    (b"step z 2 by d from 2\n", "refused 14 P3"),
    (b"step z 2 by d from 5\n", "refused 14 P3"),
    (b"step x 1 lemma 2\n", "refused 14 P3"),
    (b"step y 1 by d from 1\n", "refused 14 P4"),
    (b"step x 2 lemma 1\n", "refused 14 P4"),
    (b"step y 1 lemma 1\n", "refused 14 P4"),
    (b"step x 2 assume\n", "refused 14 P4"),
    (b"wipe x\n", "refused 14 P5"),
    (b"wipe z\n", "refused 14 P5"),
];

#[test]
fn steps_of_the_second_lemma_are_judged(rt: HostRuntime) -> Result<(), Fail> {
    assert_verdicts_from(&rt, rt.alloc(), 13, SECOND)?;
    Ok(())
}

/// A lemma with two pairs.
const PAIRS: &[u8] =
    b"palm-proof 1\nvar x 1..2\nvar y 1..2\nvar z 1..2\nadd d : differ x y z\nlemma x=1 y=2\n\
    step x 2 assume\nstep y 1 assume\nstep z 1 by d from 1\nstep z 2 by d from 2\nwipe z\n";

/// Lemmas behind it.
const THIRD: &[(&[u8], &str)] = &[
    (b"lemma x=1\nstep y 2 lemma 1\n", "refused 14 P5"),
    (b"lemma y=2\nstep x 1 lemma 1\n", "refused 14 P5"),
    (b"lemma z=1 x=1\nstep y 2 lemma 1\n", "refused 14 P5"),
    (
        b"lemma y=2 x=1\nstep x 1 lemma 1\nstep y 2 lemma 1\nwipe z\n",
        "refused 15 P5",
    ),
    (
        b"lemma x=1 y=2\nstep x 1 lemma 1\nstep x 2 assume\nwipe x\n",
        "refused 16 P5",
    ),
    (b"lemma x=1\nstep x 1 lemma 1\n", "refused 13 P4"),
    (b"lemma\nstep x 1 lemma 1\n", "refused 13 P4"),
    (b"lemma y=1\nstep x 1 lemma 1\n", "refused 13 P4"),
    (b"lemma x=2\nstep y 2 lemma 1\n", "refused 13 P4"),
    (b"lemma z=2\nstep y 2 lemma 1\n", "refused 13 P4"),
    (b"lemma x=1\nstep y 1 lemma 1\n", "refused 13 P4"),
    (b"lemma x=1 y=2\nstep z 1 lemma 1\n", "refused 13 P4"),
    (b"lemma x=1 y=2\nstep y 1 lemma 1\n", "refused 13 P4"),
    (b"lemma x=1\nstep y 2 lemma 2\n", "refused 13 P3"),
];

#[test]
fn a_lemma_with_fewer_pairs_is_judged_by_its_own(rt: HostRuntime) -> Result<(), Fail> {
    assert_verdicts(&rt, rt.alloc(), PAIRS, THIRD, b"")?;
    Ok(())
}

/// Two constraints, one of which everything satisfies, and a step.
const OWN: &[u8] =
    b"palm-proof 1\nvar x 1..2\nvar y 1..2\nadd a : x >= 1\nadd c : x != 1\nadd e : x = y\nadd f : y = 2\n\
    lemma\nstep x 1 by c\n";

/// Steps behind it: a pair among its own reasons has no support in a constraint that is over its variable.
const AMONG: &[(&[u8], &str)] = &[
    (b"step x 1 by a from 1\n", "refused 11 P5"),
    (b"step x 1 by c\n", "refused 11 P5"),
    (b"step x 1 by e from 1\n", "refused 11 P5"),
    (b"step x 1 by a\n", "refused 10 P4"),
    (b"step x 1 by e\n", "refused 10 P4"),
    (b"step x 1 by f from 1\n", "refused 10 P4"),
    (b"step x 2 by a from 1\n", "refused 10 P4"),
    (b"step x 2 by e from 1\n", "refused 10 P4"),
    (b"step y 1 by f from 1\n", "refused 11 P5"),
    (b"step y 2 by f from 1\n", "refused 10 P4"),
];

#[test]
fn a_pair_among_its_own_reasons_has_no_support(rt: HostRuntime) -> Result<(), Fail> {
    assert_verdicts(&rt, rt.alloc(), OWN, AMONG, b"")?;
    Ok(())
}
