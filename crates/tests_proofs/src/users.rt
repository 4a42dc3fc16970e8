//! The constraints that a proof uses, which are those of its last lemma and of the lemmas behind it.
use crate::told::{assert_verdicts, assert_verdicts_from};
use std::test::Fail;

/// Two lemmas, the second over the first by a step that it does not need, and the first step of a third.
const HEAD: &[u8] =
    b"palm-proof 1\nvar x 1..3\nadd a : x != 1\nadd b : x != 2\nadd c : x != 3\nadd e : x != 3\n\
    add f : x >= 2\nlemma x=1\nstep x 1 by a\nstep x 2 assume\nstep x 3 assume\nwipe x\nlemma x=2\nstep x 1 lemma 1\n\
    step x 2 by b\nstep x 3 assume\nwipe x\nlemma\nstep x 1 by f\n";

/// What follows where the third lemma names the second alone.
const NAMED: &[(&[u8], &str)] = &[
    (b"none a b c f\nend\n", "accepted none because a b c f"),
    (b"none\ta b  c f \r\nend\n", "accepted none because a b c f"),
    (b"none\n", "refused 23 P5"),
    (b"none b c f\n", "refused 23 P5"),
    (b"none a b c\n", "refused 23 P5"),
    (b"none a b c f f\n", "refused 23 P5"),
    (b"none a a b c f\n", "refused 23 P5"),
    (b"none a b c f a\n", "refused 23 P5"),
    (b"none a b c e f\n", "refused 23 P5"),
    (b"none a b e f\n", "refused 23 P5"),
    (b"none b a c f\n", "refused 23 P5"),
    (b"none f c b a\n", "refused 23 P5"),
    (b"none a b c f\n\nnone a b c f\n", "refused 25 P1"),
    (b"none a b c q\n", "refused 23 P2"),
    (b"none q\n", "refused 23 P2"),
    (b"none x\n", "refused 23 P2"),
    (b"none A b c f\n", "refused 23 P2"),
    (b"none a, b, c, f\n", "refused 23 P1"),
    (b"none 1 2 3 5\n", "refused 23 P1"),
    (b"none a b c f 5\n", "refused 23 P1"),
    (b"none sum\n", "refused 23 P1"),
    (b"none q 1\n", "refused 23 P1"),
    (b"none : a b c f\n", "refused 23 P1"),
    (b"found x=1\nend\n", "refused 23 P1"),
    (b"spent 3\nend\n", "refused 23 P1"),
    (b"end\n", "refused 23 P1"),
];

/// What stands between.
const TAIL: &[u8] = b"step x 2 lemma 2\nstep x 3 by c\nwipe x\n";

#[test]
fn users_are_those_of_the_last_lemma(rt: HostRuntime) -> Result<(), Fail> {
    let mut head = Vec::from_slice(rt.alloc(), HEAD)?;
    head.extend_from_slice(TAIL)?;
    assert_verdicts(&rt, rt.alloc(), &head, NAMED, b"")?;
    Ok(())
}

/// What follows where it names other lemmas and constraints.
const OTHERS: &[(&[u8], &str)] = &[
    // No lemma is named.
    (
        b"step x 2 by b\nstep x 3 by c\nwipe x\nnone b c f\nend\n",
        "accepted none because b c f",
    ),
    (
        b"step x 2 by b\nstep x 3 by c\nwipe x\nnone a b c f\nend\n",
        "refused 23 P5",
    ),
    // A constraint and a lemma are named by steps that prove a pair again.
    (
        b"step x 2 by b\nstep x 3 by c\nstep x 3 by e\nwipe x\nnone b c e f\nend\n",
        "accepted none because b c e f",
    ),
    (
        b"step x 2 by b\nstep x 3 by c\nstep x 3 by e\nwipe x\nnone b c f\nend\n",
        "refused 24 P5",
    ),
    (
        b"step x 2 by b\nstep x 3 by c\nstep x 1 lemma 1\nwipe x\nnone a b c f\nend\n",
        "accepted none because a b c f",
    ),
    (
        b"step x 2 by b\nstep x 3 by c\nstep x 1 lemma 1\nwipe x\nnone b c f\nend\n",
        "refused 24 P5",
    ),
    // A step behind those of an empty domain.
    (
        b"step x 2 by b\nstep x 3 by c\nstep x 3 by a from 1 2 3\nwipe x\nnone a b c f\nend\n",
        "accepted none because a b c f",
    ),
    // A lemma with pairs behind one without.
    (
        b"step x 2 by b\nstep x 3 by c\nwipe x\nlemma x=3\nstep x 1 assume\nstep x 2 assume\nstep x 3 by e\nwipe x\nnone e\n",
        "refused 28 P5",
    ),
    (
        b"step x 2 by b\nstep x 3 by c\nwipe x\nlemma x=3\nstep x 1 assume\nstep x 2 assume\nstep x 3 by e\nwipe x\n\
          lemma\nstep x 1 by a\nstep x 2 by b\nstep x 3 lemma 4\nwipe x\nnone a b e\nend\n",
        "accepted none because a b e",
    ),
    // No pair is one of a lemma without pairs.
    (
        b"step x 2 by b\nstep x 3 by c\nwipe x\nlemma x=1\nstep x 1 lemma 3\n",
        "refused 24 P4",
    ),
    // A lemma of constraints alone is the last.
    (
        b"step x 2 by b\nstep x 3 by c\nwipe x\nlemma\nstep x 1 by a\nstep x 2 by b\nstep x 3 by e\nwipe x\nnone a b e\nend\n",
        "accepted none because a b e",
    ),
    (
        b"step x 2 by b\nstep x 3 by c\nwipe x\nlemma\nstep x 1 by a\nstep x 2 by b\nstep x 3 by e\nwipe x\nnone b c f\nend\n",
        "refused 28 P5",
    ),
];

#[test]
fn users_are_those_of_the_lemmas_that_are_named(rt: HostRuntime) -> Result<(), Fail> {
    assert_verdicts(&rt, rt.alloc(), HEAD, OTHERS, b"")?;
    Ok(())
}

/// `none` lines behind the two lemmas of the proof.
const LAST: &[(&[u8], &str)] = &[
    (b"none d\n", "refused 19 P5"),
    (b"none d d\n", "refused 18 P5"),
    (b"none\n", "refused 18 P5"),
    (b"none q\n", "refused 18 P2"),
    (b"none d q\n", "refused 18 P2"),
    (b"none z\n", "refused 18 P2"),
    (b"none d=1\n", "refused 18 P1"),
];

#[test]
fn users_behind_two_lemmas_are_named_once_in_order(rt: HostRuntime) -> Result<(), Fail> {
    assert_verdicts_from(&rt, rt.alloc(), 17, LAST)?;
    Ok(())
}
