//! Worked rows: texts, each with the command that reads it and what this writes, in pieces of 1 and of 7 bytes. Each stands in
//! `tests/sessions` or `examples` too, behind a comment: `.ci/worked` looks whether the two are the same.
use crate::outcomes::outcome_in;
use palm_cli::Status;
use std::test::Fail;
use tests_compare::first_difference;

/// A text, the file that has it, the word of the command that reads it, and what this writes.
#[derive(Clone, Copy)]
struct Worked<'a> {
    file: &'a str,
    word: &'a str,
    text: &'a str,
    output: &'a str,
}

const WORKED: &[Worked<'static>] = &[
    Worked {
        file: "tests/sessions/no-lines.palm",
        word: "run",
        text: "",
        output: "",
    },
    Worked {
        file: "tests/sessions/comparison.palm",
        word: "run",
        text: "var x 1..3\nvar y 1..3\nadd a : x < y\ndomains\n",
        output: "ok\nok\nok\nx: 1 2\ny: 2 3\nend\n",
    },
    Worked {
        file: "tests/sessions/relax-enforce-retract.palm",
        word: "run",
        text: "var x 1..3\nvar y 1..3\nadd a : x < y\ndomains\nrelax a\ndomains\nenforce a\ndomain x\nretract a\n\
               domains\n",
        output: "ok\nok\nok\nx: 1 2\ny: 2 3\nend\nok\nx: 1 2 3\ny: 1 2 3\nend\nok\nx: 1 2\nok\nx: 1 2 3\ny: 1 2 3\nend\n",
    },
    Worked {
        file: "tests/sessions/conflict-searched.palm",
        word: "run",
        text: "var x 1..3\nvar y 1..3\nadd a : x < y\ndomains\nadd b : y < x\ndomains\nconflict\nlog\nsolve dbt\n\
               retract b\ndomains\nconflict\n",
        output: "ok\nok\nok\nx: 1 2\ny: 2 3\nend\ncontradiction\ncontradiction\nconflict a b\nx 3 by a\ny 1 by a\n\
               y 2 by b from x 3\ny 3 by b\nend\nnone a b\nok\nx: 1 2\ny: 2 3\nend\nconsistent\n",
    },
    Worked {
        file: "tests/sessions/contradiction-lines.palm",
        word: "run",
        text: "var x 1..3\nvar y 1..3\nvar z 1..2\nadd a : x < y\nadd b : y < x\nadd c : z != 1\nretract c\n\
               add e : z != 2\nretract a\ndomains\nlog\n",
        output: "ok\nok\nok\nok\ncontradiction\ncontradiction\ncontradiction\ncontradiction\nok\nx: 2 3\ny: 1 2\nz: 1\n\
               end\ny 3 by b\nx 1 by b\nz 2 by e\nend\n",
    },
    Worked {
        file: "tests/sessions/retract-restores.palm",
        word: "run",
        text: "var x 1..3\nvar y 1..3\nadd c : x != 2\nadd a : x = y\nlog\nretract c\ndomains\n",
        output: "ok\nok\nok\nok\nx 2 by c\ny 2 by a from x 2\nend\nok\nx: 1 2 3\ny: 1 2 3\nend\n",
    },
    Worked {
        file: "tests/sessions/retract-other-reason.palm",
        word: "run",
        text: "var x 1..3\nvar y 1..3\nadd c : x != 2\nadd a : x = y\nadd d : y != 2\nwhy x 2\nretract c\ndomains\n\
               why x 2\nwhy x 1\nlog\n",
        output: "ok\nok\nok\nok\nok\nbecause c\nok\nx: 1 3\ny: 1 3\nend\nbecause a d\npresent\ny 2 by d\n\
               x 2 by a from y 2\nend\n",
    },
    Worked {
        file: "tests/sessions/money.palm",
        word: "run",
        text: "var S 1..9\nvar E 0..9\nvar N 0..9\nvar D 0..9\nvar M 1..9\nvar O 0..9\nvar R 0..9\nvar Y 0..9\n\
               add eq : sum 1000*S + 91*E - 90*N + D - 9000*M - 900*O + 10*R - Y = 0\nadd df : differ S E N D M O R Y\n\
               domains\n",
        output: "ok\nok\nok\nok\nok\nok\nok\nok\nok\nok\nS: 9\nE: 4 5 6 7\nN: 5 6 7 8\nD: 2 3 4 5 6 7 8\nM: 1\nO: 0\n\
               R: 2 3 4 5 6 7 8\nY: 2 3 4 5 6 7 8\nend\n",
    },
    Worked {
        file: "tests/sessions/solve-money.palm",
        word: "run",
        text: "var S 1..9\nvar E 0..9\nvar N 0..9\nvar D 0..9\nvar M 1..9\nvar O 0..9\nvar R 0..9\nvar Y 0..9\n\
               add eq : sum 1000*S + 91*E - 90*N + D - 9000*M - 900*O + 10*R - Y = 0\nadd df : differ S E N D M O R Y\n\
               domains\nsolve dbt\ndomains\n",
        output: "ok\nok\nok\nok\nok\nok\nok\nok\nok\nok\nS: 9\nE: 4 5 6 7\nN: 5 6 7 8\nD: 2 3 4 5 6 7 8\nM: 1\nO: 0\n\
               R: 2 3 4 5 6 7 8\nY: 2 3 4 5 6 7 8\nend\nfound S=9 E=5 N=6 D=7 M=1 O=0 R=8 Y=2\nS: 9\nE: 4 5 6 7\n\
               N: 5 6 7 8\nD: 2 3 4 5 6 7 8\nM: 1\nO: 0\nR: 2 3 4 5 6 7 8\nY: 2 3 4 5 6 7 8\nend\n",
    },
    Worked {
        file: "tests/sessions/solve-differ.palm",
        word: "run",
        text: "var x 1..2\nvar y 1..2\nvar z 1..2\nadd d : differ x y z\ndomains\nsolve dbt\n",
        output: "ok\nok\nok\nok\nx: 1 2\ny: 1 2\nz: 1 2\nend\nnone d\n",
    },
    Worked {
        file: "tests/sessions/solve-none.palm",
        word: "run",
        text: "var x 1..2\nvar y 1..2\nvar z 1..2\nadd d : differ x y z\nsolve dbt budget 1\nsolve dbt budget 2\n\
               domains\n",
        output: "ok\nok\nok\nok\nspent 1\nnone d\nx: 1 2\ny: 1 2\nz: 1 2\nend\n",
    },
    Worked {
        file: "tests/sessions/repair-none.palm",
        word: "run",
        text: "var x 1..2\nvar y 1..2\nvar z 1..2\nadd d : differ x y z\nsolve repair tabu 1 budget 50\n",
        output: "ok\nok\nok\nok\nnone d\n",
    },
    Worked {
        file: "tests/sessions/log-element.palm",
        word: "run",
        text: "var z {3,5,7}\nvar y 0..4\nadd e : element z y (5,3,5)\ndomains\nadd f : z != 5\ndomains\nlog\n",
        output: "ok\nok\nok\nz: 3 5\ny: 1 2 3\nend\nok\nz: 3\ny: 2\nend\nz 7 by e\ny 0 by e\ny 4 by e\nz 5 by f\n\
               y 1 by e from z 5\ny 3 by e from z 5\nend\n",
    },
    Worked {
        file: "tests/sessions/log-count.palm",
        word: "run",
        text: "var a 1..2\nvar b 1..2\nvar c 1..2\nvar n 0..3\nadd p : a = 1\nadd q : c != 1\n\
               add k : count 1 a b c = n\nadd r : n = 2\ndomains\nlog\n",
        output: "ok\nok\nok\nok\nok\nok\nok\nok\na: 1\nb: 1\nc: 2\nn: 2\nend\na 2 by p\nc 1 by q\n\
               n 0 by k from a 2, c 1\nn 3 by k from a 2, c 1\nn 1 by r\nb 2 by k from a 2, c 1, n 1\nend\n",
    },
    Worked {
        file: "tests/sessions/sums.palm",
        word: "run",
        text: "var x 999999..1000000\nvar y -1000000..-999999\nadd g : sum 100000*x - 100000*y >= 200000000000\n\
               var u 0..1\nvar v 1..1\nadd h : sum u + v != 1\ndomains\n",
        output: "ok\nok\nok\nok\nok\nok\nx: 1000000\ny: -1000000\nu: 1\nv: 1\nend\n",
    },
    Worked {
        file: "tests/sessions/pause-step.palm",
        word: "run",
        text: "var x 1..3\nvar y 1..3\npause\nadd a : x < y\nadd b : y != 3\nstep 1\nretract a\ndomains\nlist\nresume\n\
               domains\npause\nstep 4\n",
        output: "ok\nok\nok\nok\nok\nran 1\nok\npaused\nvar x 1..3\nvar y 1..3\n2 active b : y != 3\nend\nok\nx: 1 2 3\n\
               y: 1 2\nend\nok\nran 0\n",
    },
    Worked {
        file: "tests/sessions/no-line-feed.palm",
        word: "run",
        text: "var x 1..2\r\ndomains",
        output: "ok\nx: 1 2\nend\n",
    },
    Worked {
        file: "tests/sessions/certificate-behind-why.palm",
        word: "run",
        text: "var x 1..3\nvar y 1..3\nadd c : x != 2\nadd a : x = y\nadd d : y != 2\nwhy x 2\nretract c\ndomains\n\
               why x 2\nwhy x 1\ncert x 2\ncert x 1\n",
        output: "ok\nok\nok\nok\nok\nbecause c\nok\nx: 1 3\ny: 1 3\nend\nbecause a d\npresent\npalm-cert 1\nvar x 1..3\n\
               var y 1..3\nadd a : x = y\nadd d : y != 2\nstep y 2 by d\nstep x 2 by a from 1\nclaim x 2\nend\n\
               present\n",
    },
    Worked {
        file: "examples/equal.cert",
        word: "check",
        text: "palm-cert 1\nvar x 1..3\nvar y 1..3\nadd a : x = y\nadd d : y != 2\nstep y 2 by d\n\
               step x 2 by a from 1\nclaim x 2\nend\n",
        output: "accepted x 2 because a d\n",
    },
    Worked {
        file: "tests/sessions/solve-none-at-budget.palm",
        word: "run",
        text: "var x 1..3\nvar p 1..2\nvar y 1..3\nvar z 1..3\nvar w 1..3\nadd d : differ x y z w\n\
               solve dbt budget 10\nsolve dbt budget 11\n",
        output: "ok\nok\nok\nok\nok\nok\nspent 10\nnone d\n",
    },
    Worked {
        file: "tests/sessions/repair-spent.palm",
        word: "run",
        text: "var x 1..3\nvar y 1..3\nvar z 1..3\nvar w 1..3\nadd d : differ x y z w\nsolve repair tabu 1 budget 6\n",
        output: "ok\nok\nok\nok\nok\nspent 6 dropped 1\n",
    },
    Worked {
        file: "tests/sessions/log-table.palm",
        word: "run",
        text: "var x 1..3\nvar y 1..3\nadd t : table x y : (1,2) (2,3) (3,9)\nadd f : x != 1\ndomains\nlog\n",
        output: "ok\nok\nok\nok\nx: 2\ny: 3\nend\nx 3 by t\ny 1 by t\nx 1 by f\ny 2 by t from x 1\nend\n",
    },
    Worked {
        file: "tests/sessions/minimal.palm",
        word: "run",
        text: "var x 1..2\nvar y 1..2\nadd c : y != 1\nrelax c\nadd a : x != 1\nadd b : x = y\nenforce c\nwhy y 1\n\
               minimal y 1\nminimal conflict\nadd e : y != 2\nconflict\nminimal conflict\n",
        output: "ok\nok\nok\nok\nok\nok\nok\nbecause a b\nbecause c\nconsistent\ncontradiction\nconflict a b e\n\
               conflict c e\n",
    },
    Worked {
        file: "tests/sessions/first-refusals.palm",
        word: "run",
        text: "var x 1..3\n# note\nvar x 1..2\nlist all\nadd a : x < q\nadd b : x > 3\ndomains\n",
        output: "ok\nerror E3 name taken\nerror E2 no such form\nerror E4 unknown variable\ncontradiction\n\
               contradiction\n",
    },
    Worked {
        file: "tests/sessions/spelling-repeated.palm",
        word: "run",
        text: "var x 1..3\nvar y {5,1,5}\nadd s : sum -2*x+1*y<=03\nadd m : x<y - 0\nlist\ndomain y\nquit\nlist\n",
        output: "ok\nok\nok\nok\nvar x 1..3\nvar y {1,5}\n1 active s : sum -2*x + y <= 3\n2 active m : x < y\nend\ny: 5\n\
               bye\n",
    },
    Worked {
        file: "tests/sessions/pause-retract.palm",
        word: "run",
        text: "var x 1..3\nvar y 1..3\npause\nadd c : x != 2\nadd a : x = y\nstep 3\nretract c\nresume\nlog\ndomains\n",
        output: "ok\nok\nok\nok\nok\nran 3\nok\nok\nend\nx: 1 2 3\ny: 1 2 3\nend\n",
    },
    Worked {
        file: "tests/sessions/domain-relaxed.palm",
        word: "run",
        text: "palm 2\nvar x 0..5 in 1..3\nvar y 0..5 in 1..3\nadd a : x < y\ndomains\nrelax y\ndomains\nwhy y 1\n\
               list\n",
        output: "ok\nok\nok\nok\nx: 1 2\ny: 2 3\nend\nok\nx: 1 2 3\ny: 2 3 4 5\nend\nbecause x a\nvar x 0..5\n\
               var y 0..5\n1 active x : x in 1..3\n2 relaxed y : y in 1..3\n3 active a : x < y\nend\n",
    },
    Worked {
        file: "tests/sessions/header-late.palm",
        word: "run",
        text: "var x 0..5\npalm 2\nadd d : x in 1..3\nvar y 0..5 in 1..3\n",
        output: "ok\nerror E2 no such form\nerror E2 no such form\nerror E2 no such form\n",
    },
    Worked {
        file: "tests/sessions/domain-name-taken.palm",
        word: "run",
        text: "palm 2\nvar x 0..5\nadd y : x in {1,9}\nvar y 0..1 in 0..1\ndomain x\ncert x 3\n",
        output: "ok\nok\nok\nerror E3 name taken\nx: 1\npalm-cert 1\nvar x 0..5\nadd y : x in {1,9}\nstep x 3 by y\n\
               claim x 3\nend\n",
    },
    Worked {
        file: "tests/sessions/domain-step.cert",
        word: "check",
        text: "palm-cert 1\nvar x 0..5\nadd y : x in {1,9}\nstep x 3 by y\nclaim x 3\nend\n",
        output: "accepted x 3 because y\n",
    },
    Worked {
        file: "tests/sessions/prove-differ.palm",
        word: "run",
        text: "palm 2\nvar x 1..2\nvar y 1..2\nvar z 1..2\nadd d : differ x y z\nprove budget 2\n",
        output: "ok\nok\nok\nok\nok\npalm-proof 1\nvar x 1..2\nvar y 1..2\nvar z 1..2\nadd d : differ x y z\nlemma x=1\n\
               step x 2 assume\nstep y 1 by d from 1\nstep z 1 by d from 1\nstep z 2 by d from 2\nwipe z\nlemma\n\
               step x 1 lemma 1\nstep y 2 by d from 1\nstep z 1 by d from 2\nstep z 2 by d from 1\nwipe z\nnone d\n\
               end\n",
    },
    Worked {
        file: "examples/none.proof",
        word: "proof",
        text: "palm-proof 1\nvar x 1..2\nvar y 1..2\nvar z 1..2\nadd d : differ x y z\nlemma x=1\nstep x 2 assume\n\
               step y 1 by d from 1\nstep z 1 by d from 1\nstep z 2 by d from 2\nwipe z\nlemma\nstep x 1 lemma 1\n\
               step y 2 by d from 1\nstep z 1 by d from 2\nstep z 2 by d from 1\nwipe z\nnone d\nend\n",
        output: "accepted none because d\n",
    },
    Worked {
        file: "tests/sessions/minimize-budgets.palm",
        word: "run",
        text: "palm 2\nvar x 1..3\nvar y 1..3\nadd a : x < y\nminimize y budget 3\nminimize y budget 2\n\
               minimize y budget 1\nminimize q budget 1\ndomains\n",
        output: "ok\nok\nok\nok\nbest x=1 y=2\nproved by a\nend\nspent 2 best x=1 y=2\nspent 1\n\
               error E4 unknown variable\nx: 1 2\ny: 2 3\nend\n",
    },
    Worked {
        file: "tests/sessions/minimize-none.palm",
        word: "run",
        text: "palm 2\nvar x 1..3\nvar y 1..3\nadd a : x < y\nadd b : y < x\nminimize x budget 1\n",
        output: "ok\nok\nok\nok\ncontradiction\nnone a b\n",
    },
    Worked {
        file: "tests/sessions/preferred-lightest.palm",
        word: "run",
        text: "palm 2\nvar x 1..2\nvar y 1..2\nadd a : x != 1\nadd b : x = y\nadd e : y != 2\nprefer a 5\nprefer b 3\n\
               prefer e 4\npreferred\n",
        output: "ok\nok\nok\nok\nok\ncontradiction\nok\nok\nok\nkeep a e\nleave b conflict a b e\nend\n",
    },
    Worked {
        file: "tests/sessions/preferred-hard.palm",
        word: "run",
        text: "palm 2\nvar x 1..2\nvar y 1..2\nadd a : x != 1\nadd b : x = y\nadd e : y != 2\npreferred\nprefer z 1\n\
               prefer a 0\n",
        output: "ok\nok\nok\nok\nok\ncontradiction\nhard conflict a b e\nerror E5 unknown constraint\n\
               error E6 number out of range\n",
    },
];

#[test]
fn worked_rows_have_their_replies(rt: HostRuntime) -> Result<(), Fail> {
    for Worked {
        file,
        word,
        text,
        output,
    } in WORKED {
        let outcome = outcome_in(rt.alloc(), word, text.as_bytes(), 7)?;
        assert_eq!(rt; outcome.status, Status::Done, "{file}");
        assert_eq!(rt;
            first_difference(output.as_bytes(), &outcome.output),
            None,
            "{file}"
        );
    }
    Ok(())
}

#[test]
fn worked_rows_have_their_replies_byte_by_byte(rt: HostRuntime) -> Result<(), Fail> {
    for Worked {
        file,
        word,
        text,
        output,
    } in WORKED {
        let outcome = outcome_in(rt.alloc(), word, text.as_bytes(), 1)?;
        assert_eq!(rt; outcome.status, Status::Done, "{file}");
        assert_eq!(rt;
            first_difference(output.as_bytes(), &outcome.output),
            None,
            "{file}"
        );
    }
    Ok(())
}
