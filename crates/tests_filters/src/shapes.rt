//! What each kind tells of the support of its variables, and which of their losses it heeds, place by place.
use crate::samples::{Sample, con_of};
use palm_base::{NoMemory, Value};
use palm_filter::{Filter, Heed, Shape};
use palm_kind::Kind;
use palm_model::Op;
use std::alloc::Global;
use std::process::Abort;
use std::test::Fail;

/// A shape, as a table of constants has it.
#[derive(Clone, Copy)]
enum Wanted {
    Any,
    Convex,
    AlikeBut(i32),
    Guarded,
    Apart(i32),
}

/// The shape that is wanted.
fn shape_of(wanted: &Wanted) -> Shape {
    match *wanted {
        Wanted::Any => Shape::Any,
        Wanted::Convex => Shape::Convex,
        Wanted::AlikeBut(value) => Shape::AlikeBut(Value(value)),
        Wanted::Guarded => Shape::Guarded,
        Wanted::Apart(by) => Shape::Apart(by),
    }
}

/// Asserts that the filter tells what is wanted, of one place of its scope after another.
fn assert_shapes(rt: &impl Abort, sample: &Sample, kind: &Kind, wanted: &[Wanted]) {
    assert_eq!(rt; kind.scope().len(), wanted.len(), "variables of {sample:?}");
    for place in 0..wanted.len() {
        let shape = shape_of(&wanted[place]);
        assert_eq!(rt; kind.shape(place), shape, "{sample:?} at place {place}");
    }
}

/// The filter of the sample's constraint.
fn kind_of(rt: &impl Abort, alloc: Global, sample: &Sample) -> Result<Kind, NoMemory> {
    let Some(con) = con_of(alloc, sample)? else {
        panic!(rt; "{sample:?} is no constraint")
    };
    Kind::from_con(alloc, &con)
}

/// What the kinds tell of their places.
const SHAPES: &[(Sample, &[Wanted])] = &[
    (Sample::Variables(Op::Eq, 3), &[Wanted::Any, Wanted::Any]),
    (
        Sample::Variables(Op::Ne, 3),
        &[Wanted::Apart(3), Wanted::Apart(-3)],
    ),
    (
        Sample::Variables(Op::Ne, -4),
        &[Wanted::Apart(-4), Wanted::Apart(4)],
    ),
    (
        Sample::Variables(Op::Lt, -3),
        &[Wanted::Convex, Wanted::Convex],
    ),
    (
        Sample::Variables(Op::Le, -3),
        &[Wanted::Convex, Wanted::Convex],
    ),
    (
        Sample::Variables(Op::Gt, -3),
        &[Wanted::Convex, Wanted::Convex],
    ),
    (
        Sample::Variables(Op::Ge, -3),
        &[Wanted::Convex, Wanted::Convex],
    ),
    (Sample::Constant(Op::Eq, -5), &[Wanted::AlikeBut(-5)]),
    (Sample::Constant(Op::Ne, -5), &[Wanted::AlikeBut(-5)]),
    (Sample::Constant(Op::Lt, 5), &[Wanted::Convex]),
    (Sample::Constant(Op::Le, 5), &[Wanted::Convex]),
    (Sample::Constant(Op::Gt, 5), &[Wanted::Convex]),
    (Sample::Constant(Op::Ge, 5), &[Wanted::Convex]),
    (Sample::Sum(Op::Le), &[Wanted::Convex, Wanted::Convex]),
    (Sample::Sum(Op::Ge), &[Wanted::Convex, Wanted::Convex]),
    (Sample::Sum(Op::Eq), &[Wanted::Convex, Wanted::Convex]),
    (Sample::Sum(Op::Ne), &[Wanted::Guarded, Wanted::Guarded]),
    (Sample::OneTerm(Op::Le), &[Wanted::Convex]),
    (Sample::OneTerm(Op::Ge), &[Wanted::Convex]),
    (Sample::OneTerm(Op::Eq), &[Wanted::Convex]),
    (Sample::OneTerm(Op::Ne), &[Wanted::Any]),
    (
        Sample::Count(Op::Eq),
        &[Wanted::AlikeBut(7), Wanted::AlikeBut(7)],
    ),
    (
        Sample::Count(Op::Ne),
        &[Wanted::AlikeBut(7), Wanted::AlikeBut(7)],
    ),
    (
        Sample::Count(Op::Lt),
        &[Wanted::AlikeBut(7), Wanted::AlikeBut(7)],
    ),
    (
        Sample::Count(Op::Le),
        &[Wanted::AlikeBut(7), Wanted::AlikeBut(7)],
    ),
    (
        Sample::Count(Op::Gt),
        &[Wanted::AlikeBut(7), Wanted::AlikeBut(7)],
    ),
    (
        Sample::Count(Op::Ge),
        &[Wanted::AlikeBut(7), Wanted::AlikeBut(7)],
    ),
    (
        Sample::CountVariable(Op::Eq),
        &[Wanted::AlikeBut(7), Wanted::AlikeBut(7), Wanted::Any],
    ),
    (
        Sample::CountVariable(Op::Ne),
        &[Wanted::AlikeBut(7), Wanted::AlikeBut(7), Wanted::Any],
    ),
    (
        Sample::CountVariable(Op::Lt),
        &[Wanted::AlikeBut(7), Wanted::AlikeBut(7), Wanted::Convex],
    ),
    (
        Sample::CountVariable(Op::Le),
        &[Wanted::AlikeBut(7), Wanted::AlikeBut(7), Wanted::Convex],
    ),
    (
        Sample::CountVariable(Op::Gt),
        &[Wanted::AlikeBut(7), Wanted::AlikeBut(7), Wanted::Convex],
    ),
    (
        Sample::CountVariable(Op::Ge),
        &[Wanted::AlikeBut(7), Wanted::AlikeBut(7), Wanted::Convex],
    ),
    (Sample::Table, &[Wanted::Any, Wanted::Any]),
    (Sample::Element, &[Wanted::Any, Wanted::Any]),
    (
        Sample::Differ,
        &[Wanted::Apart(0), Wanted::Apart(0), Wanted::Apart(0)],
    ),
    (Sample::Within, &[Wanted::Any]),
];

#[test]
fn kinds_tell_their_shapes(rt: HostRuntime) -> Result<(), Fail> {
    for (sample, wanted) in SHAPES {
        assert_shapes(&rt, sample, &kind_of(&rt, rt.alloc(), sample)?, wanted);
    }
    Ok(())
}

/// Asserts that the filter heeds losses so, of one place of its scope after another.
fn assert_heeds(rt: &impl Abort, sample: &Sample, kind: &Kind, wanted: &[Heed]) {
    assert_eq!(rt; kind.scope().len(), wanted.len(), "variables of {sample:?}");
    for place in 0..wanted.len() {
        assert_eq!(rt;
            kind.heed(place),
            wanted[place],
            "{sample:?} at place {place}"
        );
    }
}

/// Which losses the kinds heed at their places. A lesser x makes `x < y` easier for y, a greater y for x; the sum is x - 2*y.
const HEEDS: &[(Sample, &[Heed])] = &[
    (
        Sample::Variables(Op::Eq, 3),
        &[Heed::Shifted(-3), Heed::Shifted(3)],
    ),
    (Sample::Variables(Op::Ne, 3), &[Heed::Alone, Heed::Alone]),
    (
        Sample::Variables(Op::Lt, -3),
        &[Heed::Least, Heed::Greatest],
    ),
    (
        Sample::Variables(Op::Le, -3),
        &[Heed::Least, Heed::Greatest],
    ),
    (
        Sample::Variables(Op::Gt, -3),
        &[Heed::Greatest, Heed::Least],
    ),
    (
        Sample::Variables(Op::Ge, -3),
        &[Heed::Greatest, Heed::Least],
    ),
    (Sample::Sum(Op::Le), &[Heed::Least, Heed::Greatest]),
    (Sample::Sum(Op::Ge), &[Heed::Greatest, Heed::Least]),
    (Sample::Sum(Op::Eq), &[Heed::Ends, Heed::Ends]),
    (Sample::Sum(Op::Ne), &[Heed::Alone, Heed::Alone]),
    (Sample::Count(Op::Le), &[Heed::Each, Heed::Each]),
    (
        Sample::CountVariable(Op::Eq),
        &[Heed::Each, Heed::Each, Heed::Each],
    ),
    (
        Sample::CountVariable(Op::Ne),
        &[Heed::Each, Heed::Each, Heed::Alone],
    ),
    (
        Sample::CountVariable(Op::Lt),
        &[Heed::Each, Heed::Each, Heed::Greatest],
    ),
    (
        Sample::CountVariable(Op::Le),
        &[Heed::Each, Heed::Each, Heed::Greatest],
    ),
    (
        Sample::CountVariable(Op::Gt),
        &[Heed::Each, Heed::Each, Heed::Least],
    ),
    (
        Sample::CountVariable(Op::Ge),
        &[Heed::Each, Heed::Each, Heed::Least],
    ),
    (Sample::Table, &[Heed::Each, Heed::Each]),
    (Sample::Element, &[Heed::Each, Heed::Each]),
    (Sample::Differ, &[Heed::Alone, Heed::Alone, Heed::Alone]),
];

#[test]
fn each_kind_heeds_these_losses(rt: HostRuntime) -> Result<(), Fail> {
    for (sample, wanted) in HEEDS {
        assert_heeds(&rt, sample, &kind_of(&rt, rt.alloc(), sample)?, wanted);
    }
    Ok(())
}
