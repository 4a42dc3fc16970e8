//! What a kind says of the support of its values, and of the losses that hurt it, spares questions, and changes nothing else: each
//! problem is settled by two engines, of which one hears of it and one does not.
use crate::choice::Choice;
use crate::twins::{Asked, Problem, Twins};
use palm_base::NoMemory;
use std::alloc::Global;
use std::process::Abort;
use std::test::Fail;

/// How often the engine asks that hears of the shapes.
#[derive(Clone, Copy)]
enum Asks {
    /// Less often than the other one.
    Less,
    /// As often: the kinds say nothing, or so few values stay that asking from both ends asks for each.
    AsOften,
}

/// Problems: the lines of the variables, lines of which each is the first constraint of a problem, and the lines of the others.
#[derive(Clone, Copy)]
struct Row {
    variables: &'static [&'static str],
    firsts: &'static [&'static str],
    others: &'static [&'static str],
    asks: Asks,
}

/// Two variables, one with gaps.
const TWO: &[&str] = &["var x -2..3", "var y {-3,-1,0,2,4}"];

/// Four variables.
const FOUR: &[&str] = &["var x 1..4", "var y 1..4", "var z 1..4", "var n 0..4"];

/// Comparisons, and lists of values. Lists say nothing; `x > 1` keeps two values, and `x > 9` none. Of an equality a loss of one
/// variable is known to hurt one value of the other: with `x = y` the losses of -3 and 4 of y leave all values of x between, with
/// `x = y - 2` those of -3 and -1 leave none.
const COMPARISONS: &[Row] = &[
    Row {
        variables: TWO,
        firsts: &[
            "add a : x = y",
            "add a : x = y + 1",
            "add a : x = y - 2",
            "add a : x != y",
            "add a : x != y + 1",
            "add a : x != y - 2",
            "add a : x < y",
            "add a : x < y + 1",
            "add a : x < y - 2",
            "add a : x <= y",
            "add a : x <= y + 1",
            "add a : x <= y - 2",
            "add a : x > y",
            "add a : x > y + 1",
            "add a : x > y - 2",
            "add a : x >= y",
            "add a : x >= y + 1",
            "add a : x >= y - 2",
        ],
        others: &["add b : x != 1", "add c : y >= 0", "add d : y = 2"],
        asks: Asks::Less,
    },
    Row {
        variables: TWO,
        firsts: &["add a : x = y"],
        others: &[],
        asks: Asks::AsOften,
    },
    Row {
        variables: TWO,
        firsts: &["add a : x = y - 2"],
        others: &[],
        asks: Asks::Less,
    },
    Row {
        variables: TWO,
        firsts: &["add a : x < y", "add a : x <= y - 1", "add a : x != y"],
        others: &["add b : y < x", "add c : x = 2"],
        asks: Asks::Less,
    },
    Row {
        variables: TWO,
        firsts: &[
            "add a : x = 1",
            "add a : x != 1",
            "add a : x < 1",
            "add a : x <= 1",
            "add a : x >= 1",
            "add a : x = 9",
            "add a : x != 9",
            "add a : x < 9",
        ],
        others: &[],
        asks: Asks::Less,
    },
    Row {
        variables: TWO,
        firsts: &["add a : x > 1", "add a : x > 9"],
        others: &[],
        asks: Asks::AsOften,
    },
    Row {
        variables: TWO,
        firsts: &[
            "add a : y = 1",
            "add a : y != 1",
            "add a : y < 1",
            "add a : y <= 1",
            "add a : y > 1",
            "add a : y >= 1",
        ],
        others: &["add b : x <= y + 1", "add c : x > -1", "add d : x = 9"],
        asks: Asks::Less,
    },
    Row {
        variables: TWO,
        firsts: &["add a : x in {-1,1,3,9}", "add a : x in -1..9"],
        others: &[],
        asks: Asks::AsOften,
    },
    Row {
        variables: TWO,
        firsts: &["add a : x in {-1,1,3,9}", "add a : x in -1..9"],
        others: &["add b : x <= y", "add c : y in {0,4}", "add d : y != 4"],
        asks: Asks::Less,
    },
];

/// Sums. One term that differs from a number says nothing, and `3*x = 3` keeps one value.
const SUMS: &[Row] = &[
    Row {
        variables: TWO,
        firsts: &[
            "add a : sum x + y <= 1",
            "add a : sum x + y >= 1",
            "add a : sum x + y = 1",
            "add a : sum x + y != 1",
        ],
        others: &["add b : y != 0", "add c : y = 2"],
        asks: Asks::Less,
    },
    Row {
        variables: TWO,
        firsts: &[
            "add a : sum 2*x - 3*y <= 1",
            "add a : sum 2*x - 3*y >= 1",
            "add a : sum 2*x - 3*y = 1",
            "add a : sum 2*x - 3*y != 1",
        ],
        others: &["add b : x > -2", "add c : y <= 0", "add d : y >= -1"],
        asks: Asks::Less,
    },
    Row {
        variables: TWO,
        firsts: &[
            "add a : sum -2*x <= 2",
            "add a : sum -2*x >= 2",
            "add a : sum -2*x = 2",
            "add a : sum -2*x != 2",
        ],
        others: &["add b : x <= y"],
        asks: Asks::Less,
    },
    Row {
        variables: TWO,
        firsts: &[
            "add a : sum -1*x - 2*y <= 0",
            "add a : sum -1*x - 2*y >= 0",
            "add a : sum -1*x - 2*y = 0",
            "add a : sum -1*x - 2*y != 0",
        ],
        others: &["add b : x = 0", "add c : y != 0"],
        asks: Asks::Less,
    },
    Row {
        variables: TWO,
        firsts: &["add a : sum 3*x <= 3", "add a : sum 3*x >= 3"],
        others: &[],
        asks: Asks::Less,
    },
    Row {
        variables: TWO,
        firsts: &["add a : sum 3*x = 3", "add a : sum 3*x != 3"],
        others: &[],
        asks: Asks::AsOften,
    },
    Row {
        variables: FOUR,
        firsts: &[
            "add a : sum x + y + z <= 5",
            "add a : sum x + y + z >= 5",
            "add a : sum x + y + z = 5",
            "add a : sum x + y + z != 5",
        ],
        others: &["add b : x = 1", "add c : y != 2", "add d : z <= 2"],
        asks: Asks::Less,
    },
    Row {
        variables: FOUR,
        firsts: &[
            "add a : sum x - 2*y + 3*z - n <= 4",
            "add a : sum x - 2*y + 3*z - n >= 4",
            "add a : sum x - 2*y + 3*z - n = 4",
            "add a : sum x - 2*y + 3*z - n != 4",
        ],
        others: &[
            "add b : x < y",
            "add c : z = 2",
            "add d : n = 1",
            "add e : x != 2",
        ],
        asks: Asks::Less,
    },
];

/// The other kinds. Tables and elements say nothing.
const OTHERS: &[Row] = &[
    Row {
        variables: FOUR,
        firsts: &[
            "add a : count 1 x y z = 2",
            "add a : count 1 x y z != 2",
            "add a : count 1 x y z < 2",
            "add a : count 1 x y z <= 2",
            "add a : count 1 x y z > 2",
            "add a : count 1 x y z >= 2",
        ],
        others: &["add b : x = 1", "add c : y != 1", "add d : z <= 2"],
        asks: Asks::Less,
    },
    Row {
        variables: FOUR,
        firsts: &[
            "add a : count 2 x y z = n",
            "add a : count 2 x y z != n",
            "add a : count 2 x y z < n",
            "add a : count 2 x y z <= n",
            "add a : count 2 x y z > n",
            "add a : count 2 x y z >= n",
        ],
        others: &[
            "add b : x = 2",
            "add c : n != 2",
            "add d : n >= 1",
            "add e : y > 2",
        ],
        asks: Asks::Less,
    },
    Row {
        variables: FOUR,
        firsts: &[
            "add a : differ x y z",
            "add a : differ x y",
            "add a : differ z y x n",
        ],
        others: &[
            "add b : x <= 2",
            "add c : y <= 2",
            "add d : z <= 2",
            "add e : x = 1",
        ],
        asks: Asks::Less,
    },
    Row {
        variables: FOUR,
        firsts: &[
            "add a : table x y : (1,2) (2,3) (3,9) (4,4)",
            "add a : element z x (3,1,2,9)",
        ],
        others: &[],
        asks: Asks::AsOften,
    },
    Row {
        variables: FOUR,
        firsts: &[
            "add a : table x y z : (1,2,3) (2,3,1) (4,4,4) (3,1,1)",
            "add a : element z x (3,1,2,9)",
        ],
        others: &["add b : x != 2", "add c : n >= x", "add d : z < 4"],
        asks: Asks::Less,
    },
    Row {
        variables: FOUR,
        firsts: &["add a : x < y"],
        others: &["add b : y < z", "add c : z < x"],
        asks: Asks::Less,
    },
    Row {
        variables: FOUR,
        firsts: &["add a : x < y"],
        others: &[
            "add b : y < z",
            "add c : count 3 x y z = n",
            "add d : sum x + y + z != 8",
            "add e : element n x (1,0,3)",
        ],
        asks: Asks::Less,
    },
    Row {
        variables: FOUR,
        firsts: &["add a : differ x y z"],
        others: &[
            "add b : sum x + y - z = 2",
            "add c : table x n : (1,1) (2,0) (3,4)",
            "add d : y in {2,4}",
            "add e : n != 4",
        ],
        asks: Asks::Less,
    },
];

/// Takes the lines of variables.
fn declare(
    rt: &impl Abort,
    alloc: Global,
    twins: &mut Twins<'_>,
    lines: &[&str],
) -> Result<(), NoMemory> {
    for line in lines {
        twins.say(rt, alloc, 0, line)?;
    }
    Ok(())
}

/// A constraint comes under the number, and the engines settle.
fn come(
    rt: &impl Abort,
    alloc: Global,
    twins: &mut Twins<'_>,
    number: u32,
    line: &str,
) -> Result<(), NoMemory> {
    twins.say(rt, alloc, number, line)?;
    twins.settle(rt, alloc)
}

/// The constraints come one after another, under the numbers from 2 on.
fn all_come(
    rt: &impl Abort,
    alloc: Global,
    twins: &mut Twins<'_>,
    lines: &[&str],
) -> Result<(), NoMemory> {
    let mut number = 1_u32;
    for line in lines {
        number = number.saturating_add(1);
        come(rt, alloc, twins, number, line)?;
    }
    Ok(())
}

/// A constraint goes, the engines settle, it comes again, and they settle.
fn go_and_come(
    rt: &impl Abort,
    alloc: Global,
    twins: &mut Twins<'_>,
    number: u32,
    line: &str,
) -> Result<(), NoMemory> {
    twins.withdraw(rt, number);
    twins.settle(rt, alloc)?;
    come(rt, alloc, twins, number, line)
}

/// Each of the constraints under the numbers from 2 on goes and comes again.
fn each_goes(
    rt: &impl Abort,
    alloc: Global,
    twins: &mut Twins<'_>,
    lines: &[&str],
) -> Result<(), NoMemory> {
    let mut number = 1_u32;
    for line in lines {
        number = number.saturating_add(1);
        go_and_come(rt, alloc, twins, number, line)?;
    }
    Ok(())
}

/// The constraints of the lines go at once, and the engines settle.
fn all_go(
    rt: &impl Abort,
    alloc: Global,
    twins: &mut Twins<'_>,
    lines: &[&str],
) -> Result<(), NoMemory> {
    let mut number = 1_u32;
    for _ in lines {
        number = number.saturating_add(1);
        twins.withdraw(rt, number);
    }
    twins.settle(rt, alloc)
}

/// The first constraint and the others come, each goes and comes again, and all but the first go at once. Whenever the engines
/// have settled, they are alike.
fn come_and_go(
    rt: &impl Abort,
    alloc: Global,
    twins: &mut Twins<'_>,
    first: &str,
    others: &[&str],
) -> Result<(), NoMemory> {
    come(rt, alloc, twins, 1, first)?;
    all_come(rt, alloc, twins, others)?;
    go_and_come(rt, alloc, twins, 1, first)?;
    each_goes(rt, alloc, twins, others)?;
    all_go(rt, alloc, twins, others)
}

/// The same of new engines. All problems give the engines up here, since each place costs its proof.
fn come_and_go_anew(
    rt: &impl Abort,
    alloc: Global,
    asked: &Asked,
    problem: &Problem<'_>,
    variables: &[&str],
    others: &[&str],
) -> Result<(), NoMemory> {
    let mut twins = Twins::new(alloc, asked, problem);
    declare(rt, alloc, &mut twins, variables)?;
    come_and_go(rt, alloc, &mut twins, problem.first, others)
}

/// Asserts that the engines stay alike, and ask as the row says.
fn assert_asks(
    rt: &impl Abort,
    alloc: Global,
    row: &Row,
    problem: &Problem<'_>,
) -> Result<(), NoMemory> {
    let asked = Asked::new();
    come_and_go_anew(rt, alloc, &asked, problem, row.variables, row.others)?;
    let (told, silent) = (asked.told.get(), asked.silent.get());
    match row.asks {
        Asks::Less => assert!(rt;
            told < silent,
            "{told} questions, {silent} without shapes, {problem:?}"
        ),
        Asks::AsOften => assert_eq!(rt; told, silent, "questions, {problem:?}"),
    }
    Ok(())
}

/// The same without an order, with the last one and one revision at a time, and going round.
fn assert_asks_at_each_pace(
    rt: &impl Abort,
    alloc: Global,
    row: &Row,
    first: &str,
) -> Result<(), NoMemory> {
    let paces = [
        (Choice::Least, None),
        (Choice::Last, Some(1)),
        (Choice::Rotate, None),
    ];
    for (choice, limit) in paces {
        let problem = Problem {
            first,
            choice,
            limit,
            settlings: 0,
        };
        assert_asks(rt, alloc, row, &problem)?;
    }
    Ok(())
}

/// The same of each problem of the row.
fn assert_all_ask(rt: &impl Abort, alloc: Global, row: &Row) -> Result<(), NoMemory> {
    for first in row.firsts {
        assert_asks_at_each_pace(rt, alloc, row, first)?;
    }
    Ok(())
}

#[test]
fn shapes_of_comparisons_change_nothing_but_the_questions(rt: HostRuntime) -> Result<(), Fail> {
    for row in COMPARISONS {
        assert_all_ask(&rt, rt.alloc(), row)?;
    }
    Ok(())
}

#[test]
fn shapes_of_sums_change_nothing_but_the_questions(rt: HostRuntime) -> Result<(), Fail> {
    for row in SUMS {
        assert_all_ask(&rt, rt.alloc(), row)?;
    }
    Ok(())
}

#[test]
fn shapes_of_other_kinds_change_nothing_but_the_questions(rt: HostRuntime) -> Result<(), Fail> {
    for row in OTHERS {
        assert_all_ask(&rt, rt.alloc(), row)?;
    }
    Ok(())
}

/// Problems of one constraint over variables from 0 to 255, and how often filters are asked that tell their shapes and that tell
/// none, derived from what the shapes are known to spare.
///
/// `x <= y` keeps all, so both ends of each variable are asked. `x < y` asks for 0 of x, for 255, which goes, and 254; then for 0
/// of y, which goes, 1 and 255. Since y lost a value, all 255 values of x that are left are asked for again otherwise; but it was
/// not the greatest of y, and no other hurts x.
/// `x = 7` asks for one value beside 7, which stands for all, and for 7; so does `x != 7`, and where 7 were no value it would ask
/// once. No value of `x != y`, of the differ or of the sum lacks support while the other variables have two. The count asks for 7
/// and one value beside it, of each variable. Of the equality all are asked for; with 100 between them, y loses 156 to 255 in the
/// end, which hurts none of the 156 values of x that are left and asked for again otherwise.
const WIDE: &[(&str, u64, u64)] = &[
    ("add a : x <= y", 4, 512),
    ("add a : x < y", 6, 767),
    ("add a : x = 7", 2, 256),
    ("add a : x != 7", 2, 256),
    ("add a : x != 300", 1, 256),
    ("add a : x != y", 0, 512),
    ("add a : differ x y z", 0, 768),
    ("add a : sum x + 2*y - z != 5", 0, 768),
    ("add a : sum x + y + z <= 510", 6, 768),
    ("add a : count 7 x y z >= 1", 6, 768),
    ("add a : x = y", 512, 512),
    ("add a : x = y + 100", 512, 668),
];

/// Three variables with as many values as they may have.
const THREE: &[&str] = &["var x 0..255", "var y 0..255", "var z 0..255"];

/// Asserts that the filters are asked so often each time when the constraint comes, which is twice.
fn assert_asks_exactly(
    rt: &impl Abort,
    alloc: Global,
    first: &str,
    told: u64,
    silent: u64,
) -> Result<(), NoMemory> {
    let problem = Problem {
        first,
        choice: Choice::Least,
        limit: None,
        settlings: 0,
    };
    let asked = Asked::new();
    come_and_go_anew(rt, alloc, &asked, &problem, THREE, &[])?;
    assert_eq!(rt;
        asked.told.get(),
        told.saturating_mul(2),
        "questions, {first}"
    );
    assert_eq!(rt;
        asked.silent.get(),
        silent.saturating_mul(2),
        "without shapes, {first}"
    );
    Ok(())
}

#[test]
fn shapes_spare_these_questions(rt: HostRuntime) -> Result<(), Fail> {
    for (line, told, silent) in WIDE {
        assert_asks_exactly(&rt, rt.alloc(), line, *told, *silent)?;
    }
    Ok(())
}
