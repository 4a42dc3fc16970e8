//! Proofs over each kind of constraint.
use crate::told::assert_verdicts;
use std::test::Fail;

/// Proofs that are accepted.
const KINDS: &[(&[u8], &str)] = &[
    (
        b"palm-proof 1\nvar x 0..3\nvar y 0..3\nadd a : x = y + 1\nadd b : y >= 2\nadd c : x != 3\nlemma\nstep y 0 by b\n\
          step y 1 by b\nstep x 3 by c\nstep y 2 by a from 3\nstep y 3 by a\nwipe y\nnone a b c\nend\n",
        "accepted none because a b c",
    ),
    (
        b"palm-proof 1\nvar x 1..2\nvar y 1..2\nadd a : x <= y - 1\nadd b : x > y - 1\nlemma\nstep x 2 by a\nstep y 1 by a\n\
          step x 1 by b from 2\nwipe x\nnone a b\nend\n",
        "accepted none because a b",
    ),
    (
        b"palm-proof 1\nvar x 1..2\nvar y 1..2\nadd a : x < y\nadd b : x >= y\nlemma\nstep x 2 by a\nstep y 2 by b from 1\n\
          step y 1 by a\nwipe y\nnone a b\nend\n",
        "accepted none because a b",
    ),
    (
        b"palm-proof 1\nvar x 1..2\nvar y 1..2\nadd a : x != y\nadd b : x = y\nlemma x=1\nstep x 2 assume\n\
          step y 1 by a from 1\nstep y 2 by b from 1\nwipe y\nlemma\nstep x 1 lemma 1\nstep y 2 by a from 1\n\
          step y 1 by b from 1\nwipe y\nnone a b\nend\n",
        "accepted none because a b",
    ),
    (
        b"palm-proof 1\nvar x 1..3\nvar y 1..3\nadd s : sum 2*x + y <= 4\nadd t : sum x - y >= 0\nadd u : sum x + y != 2\n\
          lemma\nstep x 2 by s\nstep x 3 by s\nstep y 3 by s\nstep y 2 by t from 2 1\nstep y 1 by u from 2 1\nwipe y\n\
          none s t u\nend\n",
        "accepted none because s t u",
    ),
    (
        b"palm-proof 1\nvar x 0..3\nvar y 0..3\nadd s : sum x + y = 6\nadd t : sum -1*x + y = 1\nlemma\nstep x 0 by s\n\
          step x 1 by s\nstep x 2 by s\nstep x 3 by t\nwipe x\nnone s t\nend\n",
        "accepted none because s t",
    ),
    (
        b"palm-proof 1\nvar x 999999..1000000\nvar y {-1000000,-999999}\nadd f : x < 1000000\n\
          add g : sum 100000*x - 100000*y >= 200000000000\nlemma\nstep x 999999 by g\nstep x 1000000 by f\nwipe x\n\
          none f g\nend\n",
        "accepted none because f g",
    ),
    (
        b"palm-proof 1\nvar x 1..3\nvar y 1..3\nadd t : table x y : (1,2) (2,3) (3,9)\nadd f : x != 1\nadd g : y < 3\n\
          lemma\nstep x 3 by t\nstep x 1 by f\nstep y 3 by g\nstep x 2 by t from 3\nwipe x\nnone t f g\nend\n",
        "accepted none because t f g",
    ),
    (
        b"palm-proof 1\nvar z {3,5,7}\nvar y 0..4\nadd e : element z y (5,3,5)\nadd f : z != 5\nadd g : y != 2\nlemma\n\
          step y 0 by e\nstep y 4 by e\nstep z 7 by e\nstep z 5 by f\nstep y 1 by e from 4\nstep y 3 by e from 4\n\
          step y 2 by g\nstep z 3 by e from 7\nwipe z\nnone e f g\nend\n",
        "accepted none because e f g",
    ),
    (
        b"palm-proof 1\nvar a 1..2\nvar b 1..2\nvar c 1..2\nvar n 0..3\nadd p : a = 1\nadd q : c != 1\n\
          add k : count 1 a b c = n\nadd r : n >= 3\nlemma\nstep a 2 by p\nstep c 1 by q\nstep n 3 by k from 2\n\
          step n 0 by k from 1\nstep n 1 by r\nstep n 2 by r\nwipe n\nnone p q k r\nend\n",
        "accepted none because p q k r",
    ),
    (
        b"palm-proof 1\nvar a 1..2\nvar b 1..2\nadd m : count 2 a b > 1\nadd w : count 2 a b < 2\nlemma\nstep a 1 by m\n\
          step b 1 by m\nstep a 2 by w from 2\nwipe a\nnone m w\nend\n",
        "accepted none because m w",
    ),
    (
        b"palm-proof 1\nvar x 1..2\nvar y 1..2\nvar z 1..2\nadd d : differ x y z\nadd f : x = 1\nlemma\nstep x 2 by f\n\
          step y 1 by d from 1\nstep z 1 by d from 1\nstep y 2 by d from 3\nwipe y\nnone d f\nend\n",
        "accepted none because d f",
    ),
    (
        b"palm-proof 1\nvar x 0..5\nadd y : x in {1,9}\nadd w : x in 2..9\nlemma x=1\nstep x 1 by w\nstep x 5 assume\n\
          step x 0 by w\nstep x 2 by y\nstep x 3 by y\nstep x 4 by y\nwipe x\nlemma\nstep x 5 by y\nstep x 0 by y\n\
          step x 1 lemma 1\nstep x 2 by y\nstep x 3 by y\nstep x 4 by y\nwipe x\nnone y w\nend\n",
        "accepted none because y w",
    ),
];

#[test]
fn each_kind_of_constraint_takes_part(rt: HostRuntime) -> Result<(), Fail> {
    assert_verdicts(&rt, rt.alloc(), b"", KINDS, b"")?;
    Ok(())
}

/// Variables and two constraints that leave no value of y.
const EMPTIED: &[u8] =
    b"palm-proof 1\nvar x 1..3\nvar y 1..2\nvar z 1..3\nadd c : y != 1\nadd e : y != 2\n";

/// Steps that take all values from x where y has none.
const BEHIND_BOTH: &[u8] =
    b"lemma\nstep y 1 by c\nstep y 2 by e\nstep x 1 by k from 1 2\nstep x 2 by k from 2 1\n\
    step x 3 by k from 1 2 1\nwipe x\nnone c e k\nend\n";

/// A step that takes a value from x where y has one.
const BEHIND_ONE: &[u8] = b"lemma\nstep y 1 by c\nstep x 1 by k from 1\n";

/// Constraints that support each value of x where y has a value.
const OVER_EMPTY: &[(&[u8], &str)] = &[
    (b"add k : x <= y + 9\n", "accepted none because c e k"),
    (b"add k : y >= x - 9\n", "accepted none because c e k"),
    (b"add k : y != x + 9\n", "accepted none because c e k"),
    (
        b"add k : sum x + y + z >= 0\n",
        "accepted none because c e k",
    ),
    (
        b"add k : sum x + y - z <= 9\n",
        "accepted none because c e k",
    ),
    (
        b"add k : sum x + y + z = 6\n",
        "accepted none because c e k",
    ),
    (
        b"add k : sum y + z - x != 99\n",
        "accepted none because c e k",
    ),
    (b"add k : sum x + y != 9\n", "accepted none because c e k"),
    (
        b"add k : table y x : (2,1) (1,2) (2,2) (2,3)\n",
        "accepted none because c e k",
    ),
    (
        b"add k : element y x (2,1,2)\n",
        "accepted none because c e k",
    ),
    (
        b"add k : element x y (3,1)\n",
        "accepted none because c e k",
    ),
    (
        b"add k : count 1 x y z >= 0\n",
        "accepted none because c e k",
    ),
    (b"add k : count 1 x y != 3\n", "accepted none because c e k"),
    (b"add k : count 7 x z < y\n", "accepted none because c e k"),
    (b"add k : count 7 y z != x\n", "accepted none because c e k"),
    (b"add k : differ x y z\n", "accepted none because c e k"),
    (b"add k : differ z x y\n", "accepted none because c e k"),
    // Over x alone, and not over x.
    (b"add k : x > 0\n", "refused 11 P4"),
    (b"add k : x in 1..3\n", "refused 11 P4"),
    (b"add k : table x : (1) (2) (3)\n", "refused 11 P4"),
    (b"add k : sum x >= 1\n", "refused 11 P4"),
    (b"add k : differ x z\n", "refused 11 P4"),
    (b"add k : sum y + z != 9\n", "refused 11 P4"),
    (b"add k : differ y z\n", "refused 11 P4"),
];

/// The same constraints where y has a value.
const OVER_ONE: &[(&[u8], &str)] = &[
    (b"add k : x <= y + 9\n", "refused 10 P4"),
    (b"add k : y >= x - 9\n", "refused 10 P4"),
    (b"add k : y != x + 9\n", "refused 10 P4"),
    (b"add k : sum x + y + z >= 0\n", "refused 10 P4"),
    (b"add k : sum x + y - z <= 9\n", "refused 10 P4"),
    (b"add k : sum x + y + z = 6\n", "refused 10 P4"),
    (b"add k : sum y + z - x != 99\n", "refused 10 P4"),
    (b"add k : sum x + y != 9\n", "refused 10 P4"),
    (b"add k : sum x + y != 3\n", "refused 11 P5"),
    (
        b"add k : table y x : (2,1) (1,2) (2,2) (2,3)\n",
        "refused 10 P4",
    ),
    (b"add k : element y x (2,1,2)\n", "refused 10 P4"),
    (b"add k : element x y (3,1)\n", "refused 10 P4"),
    (b"add k : count 1 x y z >= 0\n", "refused 10 P4"),
    (b"add k : count 1 x y != 3\n", "refused 10 P4"),
    (b"add k : count 7 x z < y\n", "refused 10 P4"),
    (b"add k : count 7 y z != x\n", "refused 10 P4"),
    (b"add k : differ x y z\n", "refused 10 P4"),
    (b"add k : differ z x y\n", "refused 10 P4"),
];

#[test]
fn nothing_has_support_beside_an_empty_domain(rt: HostRuntime) -> Result<(), Fail> {
    assert_verdicts(&rt, rt.alloc(), EMPTIED, OVER_EMPTY, BEHIND_BOTH)?;
    Ok(())
}

#[test]
fn a_value_has_support_beside_one_that_is_left(rt: HostRuntime) -> Result<(), Fail> {
    assert_verdicts(&rt, rt.alloc(), EMPTIED, OVER_ONE, BEHIND_ONE)?;
    Ok(())
}

/// Three variables with the values 0 and 1.
const BINARY: &[u8] = b"palm-proof 1\nvar x 0..1\nvar y 0..1\nvar z 0..1\n";

/// A step without reasons.
const BEHIND_NONE: &[u8] = b"lemma x=1 y=1 z=1\nstep x 0 by k\n";

/// Each part is asked alone, and pairs of the lemma are no reasons.
const PARTS: &[(&[u8], &str)] = &[
    (b"add k : sum 2*x + 2*y + 2*z = 3\n", "refused 7 P4"),
    (b"add k : sum 2*x + 2*y + 2*z = 5\n", "refused 8 P5"),
    (b"add k : differ x y z\n", "refused 7 P4"),
    (b"add k : x != y\n", "refused 7 P4"),
    (b"add k : count 0 x y z > 2\n", "refused 7 P4"),
    (b"add k : count 1 x y z > 2\n", "refused 8 P5"),
    (b"add k : x = 1\n", "refused 8 P5"),
    (b"add k : y = 1\n", "refused 7 P4"),
    (b"add k : x in {1}\n", "refused 8 P5"),
    (b"add k : table x y z : (1,0,0) (1,1,1)\n", "refused 8 P5"),
    (b"add k : table x y z : (1,0,0) (0,1,1)\n", "refused 7 P4"),
    (b"add k : element y x (0,1)\n", "refused 8 P5"),
    (b"add k : element x y (0,1)\n", "refused 7 P4"),
];

#[test]
fn each_part_is_asked_alone(rt: HostRuntime) -> Result<(), Fail> {
    assert_verdicts(&rt, rt.alloc(), BINARY, PARTS, BEHIND_NONE)?;
    Ok(())
}
