//! Forged lines of a proof but its steps: headers, variables, constraints, lemmas, wipes and ends.
use crate::told::{assert_verdicts, assert_verdicts_from};
use std::test::Fail;

/// First lines.
const HEADERS: &[(&[u8], &str)] = &[
    (b"", "refused 1 P5"),
    (b"\n", "refused 2 P5"),
    (b"\r", "refused 2 P5"),
    (b"# one\n\n\t \n", "refused 4 P5"),
    (b"palm-proof 1", "refused 2 P5"),
    (b"palm-proof 1\n", "refused 2 P5"),
    (b"palm-proof 1\r", "refused 2 P5"),
    (b"palm-proof 1\r\n\r\n", "refused 3 P5"),
    (b"# one\r\r\n\tpalm  - proof 1 \n", "refused 3 P5"),
    (b"#\npalm-proof 01\n", "refused 2 P1"),
    (b"palm-proof 2\n", "refused 1 P1"),
    (b"palm-proof\n", "refused 1 P1"),
    (b"palm-proof 1 1\n", "refused 1 P1"),
    (b"palm-proof -1\n", "refused 1 P1"),
    (b"palm-proof 1 # one\n", "refused 1 P1"),
    (b"palm-proof1\n", "refused 1 P1"),
    (b"palm_proof 1\n", "refused 1 P1"),
    (b"palm proof 1\n", "refused 1 P1"),
    (b"Palm-proof 1\n", "refused 1 P1"),
    (b"palm-proofs 1\n", "refused 1 P1"),
    (b"palm-cert 1\n", "refused 1 P1"),
    (b"palm 2\n", "refused 1 P1"),
    (b"proof 1\n", "refused 1 P1"),
    (b"var x 1..2\n", "refused 1 P1"),
    (b"add d : x != 1\n", "refused 1 P1"),
    (b"lemma\n", "refused 1 P1"),
    (b"end\n", "refused 1 P1"),
    (b"\xef\xbb\xbfpalm-proof 1\n", "refused 1 P1"),
    (b"palm-proof 1\0\n", "refused 1 P1"),
    (b"palm-proof 1\r\r\n", "refused 1 P1"),
    (b"\r\r\n", "refused 1 P1"),
    (b"\npalm-proof 1\npalm-proof 1\n", "refused 3 P1"),
];

#[test]
fn headers_are_read(rt: HostRuntime) -> Result<(), Fail> {
    assert_verdicts(&rt, rt.alloc(), b"", HEADERS, b"")?;
    Ok(())
}

/// Lines behind three variables.
const VARIABLES: &[(&[u8], &str)] = &[
    (b"var w 1..2\n", "refused 6 P5"),
    (b"var w 1..256\n", "refused 6 P5"),
    (b"var w { 3 , 1,3}\n", "refused 6 P5"),
    (b"var w 999999..1000000\n", "refused 6 P5"),
    (
        b"var abcdefghijklmnopqrstuvwxyz_12345 1..2\n",
        "refused 6 P5",
    ),
    (b"var w 1..2\nvar w 3..4\n", "refused 6 P2"),
    (b"var x 1..2\n", "refused 5 P2"),
    (b"var x 1..257\n", "refused 5 P2"),
    (b"var w 1..257\n", "refused 5 P6"),
    (b"var w -1000000..1000000\n", "refused 5 P6"),
    (b"var x 2..1\n", "refused 5 P1"),
    (b"var w 2..1\n", "refused 5 P1"),
    (b"var w {}\n", "refused 5 P1"),
    (b"var w {1,2\n", "refused 5 P1"),
    (b"var w 999999..1000001\n", "refused 5 P1"),
    (b"var w -1000001..1000000\n", "refused 5 P1"),
    (b"var w {4294967297}\n", "refused 5 P1"),
    (b"var x 1..1000001\n", "refused 5 P1"),
    (b"var w 1..2 in 1..2\n", "refused 5 P1"),
    (b"var w\n", "refused 5 P1"),
    (b"var w 1\n", "refused 5 P1"),
    (b"var w 1..2 # two\n", "refused 5 P1"),
    (b"var w 1..2 3\n", "refused 5 P1"),
    (b"var sum 1..2\n", "refused 5 P1"),
    (b"var in 1..2\n", "refused 5 P1"),
    (b"var 1 1..2\n", "refused 5 P1"),
    (
        b"var abcdefghijklmnopqrstuvwxyz_123456 1..2\n",
        "refused 5 P1",
    ),
    (b"var w 1..2\x07\n", "refused 5 P1"),
];

#[test]
fn variables_are_read(rt: HostRuntime) -> Result<(), Fail> {
    assert_verdicts_from(&rt, rt.alloc(), 4, VARIABLES)?;
    Ok(())
}

/// Lines behind a constraint.
const CONSTRAINTS: &[(&[u8], &str)] = &[
    (b"add e : differ x y z\n", "refused 7 P5"),
    (b"add x : x != 1\n", "refused 7 P5"),
    (b"add e : x in 0..255\n", "refused 7 P5"),
    (b"add e : x in {9}\n", "refused 7 P5"),
    (b"add e:count 7 x y>=z\n", "refused 7 P5"),
    (b"var w 1..2\n", "refused 6 P1"),
    (b"var x 1..2\n", "refused 6 P1"),
    (b"add d : x != 1\n", "refused 6 P2"),
    (b"add d : q != 1\n", "refused 6 P2"),
    (b"add e : d != 1\n", "refused 6 P2"),
    (b"add e : x = q\n", "refused 6 P2"),
    (b"add e : sum x + q <= 3\n", "refused 6 P2"),
    (b"add e : table x q : (1,2)\n", "refused 6 P2"),
    (b"add e : element q x (1)\n", "refused 6 P2"),
    (b"add e : count 1 x q = 2\n", "refused 6 P2"),
    (b"add e : count 1 x y = q\n", "refused 6 P2"),
    (b"add e : differ x q\n", "refused 6 P2"),
    (b"add e : q in 1..2\n", "refused 6 P2"),
    (b"add d : x in 0..256\n", "refused 6 P2"),
    (b"add e : q in 0..256\n", "refused 6 P2"),
    (b"add e : x in 0..256\n", "refused 6 P6"),
    (b"add d : x = x\n", "refused 6 P1"),
    (b"add e : q = q\n", "refused 6 P1"),
    (b"add e : sum x + x <= 3\n", "refused 6 P1"),
    (b"add e : table x x : (1,2)\n", "refused 6 P1"),
    (b"add e : element x x (1)\n", "refused 6 P1"),
    (b"add e : count 1 x y = y\n", "refused 6 P1"),
    (b"add e : differ x y x\n", "refused 6 P1"),
    (b"add e : sum 0*x + y <= 3\n", "refused 6 P1"),
    (b"add e : table x y :\n", "refused 6 P1"),
    (b"add e : element x y ()\n", "refused 6 P1"),
    (b"add e : x in {}\n", "refused 6 P1"),
    (b"add e : x in 2..1\n", "refused 6 P1"),
    (b"add e : x = 1000001\n", "refused 6 P1"),
    (b"add e : x < y + 2000001\n", "refused 6 P1"),
    (b"add e : sum 100001*x <= 3\n", "refused 6 P1"),
    (b"add e : sum x <= 1000000000001\n", "refused 6 P1"),
    (b"add e : table x : (1000001)\n", "refused 6 P1"),
    (b"add d : q = 1000001\n", "refused 6 P1"),
    (b"add e : sum x < 3\n", "refused 6 P1"),
    (b"add e : table x y : (1)\n", "refused 6 P1"),
    (b"add e : differ x\n", "refused 6 P1"),
    (b"add e : x\n", "refused 6 P1"),
    (b"add e x != 1\n", "refused 6 P1"),
    (b"add sum : x != 1\n", "refused 6 P1"),
    (b"add : x != 1\n", "refused 6 P1"),
    (b"add\n", "refused 6 P1"),
    (b"retract d\n", "refused 6 P1"),
    (b"list\n", "refused 6 P1"),
    (b"x\n", "refused 6 P1"),
];

#[test]
fn constraints_are_read(rt: HostRuntime) -> Result<(), Fail> {
    assert_verdicts_from(&rt, rt.alloc(), 5, CONSTRAINTS)?;
    Ok(())
}

/// Lines that begin a lemma behind a constraint.
const LEMMAS: &[(&[u8], &str)] = &[
    (b"lemma\n", "refused 7 P5"),
    (b"lemma z=2 x=1\n", "refused 7 P5"),
    (b"lemma x = 01 y=2\n", "refused 7 P5"),
    (b"lemma x=1y=2\n", "refused 7 P5"),
    (b"lemma q=1\n", "refused 6 P2"),
    (b"lemma d=1\n", "refused 6 P2"),
    (b"lemma x=3\n", "refused 6 P2"),
    (b"lemma x=-1\n", "refused 6 P2"),
    (b"lemma x=1000000\n", "refused 6 P2"),
    (b"lemma x=1 y=3\n", "refused 6 P2"),
    (b"lemma x=1 x=2\n", "refused 6 P2"),
    (b"lemma x=1 y=2 x=1\n", "refused 6 P2"),
    (b"lemma x=1000001\n", "refused 6 P1"),
    (b"lemma x=-1000001\n", "refused 6 P1"),
    (b"lemma x=4294967297\n", "refused 6 P1"),
    (b"lemma q=1 x=1000001\n", "refused 6 P1"),
    (b"lemma x=1 x=1 y=1000001\n", "refused 6 P1"),
    (b"lemma x=\n", "refused 6 P1"),
    (b"lemma x 1\n", "refused 6 P1"),
    (b"lemma x\n", "refused 6 P1"),
    (b"lemma 1\n", "refused 6 P1"),
    (b"lemma =1\n", "refused 6 P1"),
    (b"lemma x=1,y=2\n", "refused 6 P1"),
    (b"lemma x=1 y\n", "refused 6 P1"),
    (b"lemma x==1\n", "refused 6 P1"),
    (b"lemma x=y\n", "refused 6 P1"),
    (b"lemma x!=1\n", "refused 6 P1"),
    (b"lemma x=1..2\n", "refused 6 P1"),
    (b"lemma sum=1\n", "refused 6 P1"),
    (b"lemma : x=1\n", "refused 6 P1"),
    (b"lemmas x=1\n", "refused 6 P1"),
    (b"lemma x=1 # one\n", "refused 6 P1"),
    (b"lemma x=1\nlemma x=1\n", "refused 7 P1"),
    (b"lemma x=1\nnone d\n", "refused 7 P1"),
];

#[test]
fn lemmas_are_read(rt: HostRuntime) -> Result<(), Fail> {
    assert_verdicts_from(&rt, rt.alloc(), 5, LEMMAS)?;
    Ok(())
}

/// Lines behind the steps of the first lemma, which leave no value of z, one of x and one of y.
const WIPES: &[(&[u8], &str)] = &[
    (b"wipe z\n", "refused 12 P5"),
    (b"wipe x\n", "refused 11 P5"),
    (b"wipe y\n", "refused 11 P5"),
    (b"step y 2 by d from 1\n", "refused 11 P4"),
    (b"wipe q\n", "refused 11 P2"),
    (b"wipe d\n", "refused 11 P2"),
    (b"wipe\n", "refused 11 P1"),
    (b"wipe 1\n", "refused 11 P1"),
    (b"wipe x z\n", "refused 11 P1"),
    (b"wipe z=1\n", "refused 11 P1"),
    (b"wipe sum\n", "refused 11 P1"),
    (b"wipe z\nwipe z\n", "refused 12 P1"),
    (b"wipe z\nstep x 2 assume\n", "refused 12 P1"),
    (b"wipe z\nnone d\n", "refused 12 P5"),
    (b"wipe z\nnone\n", "refused 12 P5"),
    (b"wipe z\nnone q\n", "refused 12 P2"),
    (b"wipe z\nfound x=1 y=2 z=1\n", "refused 12 P1"),
    (b"wipe z\nspent 3\n", "refused 12 P1"),
    (b"wipe z\nlemma\nwipe z\n", "refused 13 P5"),
    (b"wipe z\nlemma\nwipe q\n", "refused 13 P2"),
    (
        b"wipe z\nlemma x=1\nstep x 2 assume\nwipe x\n",
        "refused 14 P5",
    ),
];

#[test]
fn wipes_are_read(rt: HostRuntime) -> Result<(), Fail> {
    assert_verdicts_from(&rt, rt.alloc(), 10, WIPES)?;
    Ok(())
}

/// Lines behind the `none` line.
const ENDS: &[(&[u8], &str)] = &[
    (b"end\n", "accepted none because d"),
    (b"end", "accepted none because d"),
    (b"end\r", "accepted none because d"),
    (
        b"#\n\nend\r\n# \xff\0\r\r\n\t\r\n#",
        "accepted none because d",
    ),
    (b"end 1\n", "refused 19 P1"),
    (b"end end\n", "refused 19 P1"),
    (b"END\n", "refused 19 P1"),
    (b"end # all\n", "refused 19 P1"),
    (b"none d\n", "refused 19 P1"),
    (b"found\n", "refused 19 P1"),
    (b"lemma\n", "refused 19 P1"),
    (b"end\nend\n", "refused 20 P1"),
    (b"end\npalm-proof 1\n", "refused 20 P1"),
    (b"end\n x\n", "refused 20 P1"),
    (b"end\n\x07", "refused 20 P1"),
    (b"end\n#\n \nnone d\n", "refused 22 P1"),
    (b"end\n\r\r\n", "refused 20 P1"),
];

#[test]
fn ends_are_read(rt: HostRuntime) -> Result<(), Fail> {
    assert_verdicts_from(&rt, rt.alloc(), 18, ENDS)?;
    Ok(())
}
