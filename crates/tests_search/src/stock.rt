//! Each stock guide once, through the box that a search is handed.
use palm_base::{NoMemory, Pair, Value, Var};
use palm_guide::{FirstGuide, Guide, MostConflicts, SmallestGuide, ViewRow};
use std::alloc::Global;
use std::test::Fail;

fn row(var: u32, count: u32, least: i32, greatest: i32) -> ViewRow {
    ViewRow {
        var: Var(var),
        count,
        least: Value(least),
        greatest: Value(greatest),
    }
}

fn pair(var: u32, value: i32) -> Option<Pair> {
    Some(Pair {
        var: Var(var),
        value: Value(value),
    })
}

/// What the guides are shown.
fn view() -> [ViewRow; 5] {
    [
        row(0, 1, 5, 5),
        row(1, 3, -1, 9),
        row(2, 2, 4, 6),
        row(3, 2, 0, 7),
        row(4, 5, 2, 8),
    ]
}

/// What the first guide picks.
fn first_pick(alloc: Global) -> Result<Option<Pair>, NoMemory> {
    let mut guide: Box<dyn Guide> = Box::new(alloc, FirstGuide::new())?;
    Ok(guide.pick(&view()))
}

/// What the guide picks after it learned of a conflict, and what where each variable has one value.
fn two_picks(guide: &mut Box<dyn Guide>) -> [Option<Pair>; 2] {
    guide.learned(&[Var(3)]);
    let pick = guide.pick(&view());
    [pick, guide.pick(&[row(0, 1, 5, 5)])]
}

/// The same of the guide that picks a variable with fewest values.
fn smallest_picks(alloc: Global) -> Result<[Option<Pair>; 2], NoMemory> {
    let mut guide: Box<dyn Guide> = Box::new(alloc, SmallestGuide::new())?;
    Ok(two_picks(&mut guide))
}

// The second picks a variable of two values, whatever conflicts it learned of.
#[test]
fn guides_without_numbers_pick_by_the_view(rt: HostRuntime) -> Result<(), Fail> {
    assert_eq!(rt; first_pick(rt.alloc())?, pair(1, -1));
    assert_eq!(rt; smallest_picks(rt.alloc())?, [pair(2, 4), None]);
    Ok(())
}

/// What the guide, that numbers the first four variables, picks before, between and after conflicts.
fn three_picks(guide: &mut Box<dyn Guide>) -> [Option<Pair>; 3] {
    let first = guide.pick(&view());
    guide.learned(&[Var(0), Var(2), Var(3), Var(4)]);
    guide.learned(&[Var(0), Var(4)]);
    let second = guide.pick(&view());
    guide.learned(&[Var(3)]);
    [first, second, guide.pick(&view())]
}

/// The same of the guide that picks a variable with most conflicts.
fn most_picks(alloc: Global) -> Result<[Option<Pair>; 3], NoMemory> {
    let conflicts = MostConflicts::new(alloc, 4)?;
    let mut guide: Box<dyn Guide> = Box::new(alloc, conflicts)?;
    Ok(three_picks(&mut guide))
}

#[test]
fn conflicts_are_counted(rt: HostRuntime) -> Result<(), Fail> {
    let wanted = [pair(1, -1), pair(2, 4), pair(3, 0)];
    assert_eq!(rt; most_picks(rt.alloc())?, wanted);
    Ok(())
}
