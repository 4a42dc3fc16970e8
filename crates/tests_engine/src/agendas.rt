//! The agenda alone: what is woken is handed out, and marks follow what woke.
ghost use Rattle.std.specs.Prelude.{◌≡◌, ℕ, ◌<◌, List, [], ◌∷◌, length, IfOk, OnOk};
ghost use Rattle.palm_filter.specs.declared.heed.Heed.{Heed as HeedTerm};
ghost use Rattle.palm_agenda.specs.Agenda.{HasPlace, IsConnected, IsStanding, marked_whole};

use palm_agenda::{Agenda, LastOrder, Loss, Mark, Order, RotateOrder, Taken};
use palm_base::{Cid, NoMemory, Value, Var};
use palm_filter::Heed;
use std::alloc::Global;
use std::process::Abort;
use std::test::Fail;

fn decision() -> Cid
    ensures { result ≡ Cid.Decide 2 }
{
    Cid::Decide(Var(2))
}

fn user() -> Cid
    ensures { result ≡ Cid.User 70000 }
{
    Cid::User(70_000)
}

/// The decision as it is taken: it stands first.
fn taken_decision() -> Taken
    ensures { result ≡ record { cid = Cid.Decide 2; at = 0 } }
{
    Taken {
        cid: decision(),
        at: 0,
    }
}

/// The user's as it is taken: it stands second.
fn taken_user() -> Taken
    ensures { result ≡ record { cid = Cid.User 70000; at = 1 } }
{
    Taken { cid: user(), at: 1 }
}

/// The same heed for each of so many places.
fn heeds_of(alloc: Global, heed: Heed, count: usize) -> Result<Vec<Heed>, NoMemory> {
    let mut heeds = Vec::new(alloc);
    heeds.resize(count, heed)?;
    Ok(heeds)
}

/// Connects the two. The user's heeds the losses of its places so.
fn connect_two(alloc: Global, agenda: &mut Agenda, heeds: Vec<Heed>) -> Result<(), NoMemory>
    requires { agenda.old.connected ≡ [] }
    ensures { OnOk result ((some : List HeedTerm) × (others : List HeedTerm)
        × (agenda.new.connected ≡ marked_whole (Cid.Decide 2) (2 ∷ []) some ∷ marked_whole (Cid.User 70000) (0 ∷ 1 ∷ 0 ∷ []) others ∷ [])) }
{
    agenda.connect(user(), &[Var(0), Var(1), Var(0)], heeds)?;
    agenda.connect(decision(), &[Var(2)], heeds_of(alloc, Heed::Each, 1)?)
}

/// The loss of the value 5, where lesser, greater and several ones are left.
fn loss() -> Loss {
    Loss {
        value: Value(5),
        below: true,
        above: true,
        several: true,
    }
}

/// Asserts that both are handed out by rising name, and then nothing.
fn hand_out_by_name(rt: &impl Abort, agenda: &mut Agenda)
    ensures { agenda.new.connected ≡ agenda.old.connected }
{
    let mut order: Option<LastOrder> = None;
    let first = agenda.take(&mut order);
    let second = agenda.take(&mut order);
    let third = agenda.take(&mut order);
    assert_eq!(rt; first, Some(taken_decision()), "the first");
    assert_eq!(rt; second, Some(taken_user()), "the second");
    assert_eq!(rt; third, None, "the third");
}

/// Asserts that the user's is handed out where an order answers the last of both, and again where one answers the second.
fn hand_out_as_answered(rt: &impl Abort, agenda: &mut Agenda)
    requires { IsStanding agenda.old.connected (record { cid = Cid.Decide 2; at = 0 }) }
    ensures { IsConnected agenda.new.connected (Cid.Decide 2) }
{
    agenda.wake(Var(0), loss());
    agenda.wake_taken(&taken_decision());
    let mut last = Some(LastOrder::new());
    let first = agenda.take(&mut last);
    agenda.wake(Var(1), loss());
    let mut turned = RotateOrder::new();
    turned.ran(user(), 0);
    let mut rotate = Some(turned);
    let second = agenda.take(&mut rotate);
    assert_eq!(rt; first, Some(taken_user()), "the last");
    assert_eq!(rt; second, Some(taken_user()), "the one behind the user's");
}

/// Asserts that the decision alone is pending.
fn drop_decision(rt: &impl Abort, agenda: &mut Agenda)
    requires { IsConnected agenda.old.connected (Cid.Decide 2) }
{
    assert!(rt; !agenda.is_empty(), "nothing is pending");
    agenda.disconnect(decision());
    assert!(rt; agenda.is_empty(), "more than the decision is pending");
}

/// Asserts that the agenda hands out what is woken.
fn hand_out_what_woke(rt: &impl Abort, alloc: Global, agenda: &mut Agenda) -> Result<(), NoMemory>
    requires { agenda.old.connected ≡ [] }
{
    connect_two(alloc, agenda, heeds_of(alloc, Heed::Each, 3)?)?;
    hand_out_by_name(rt, agenda);
    hand_out_as_answered(rt, agenda);
    drop_decision(rt, agenda);
    Ok(())
}

/// The same of a new agenda.
fn hand_out_anew(rt: &impl Abort, alloc: Global) -> Result<(), NoMemory> {
    let mut agenda = Agenda::new(alloc);
    hand_out_what_woke(rt, alloc, &mut agenda)
}

#[test]
fn woken_constraints_are_handed_out(rt: HostRuntime) -> Result<(), Fail> {
    hand_out_anew(&rt, rt.alloc())?;
    Ok(())
}

/// Takes the marks of the user's places away.
fn unmark_user(agenda: &mut Agenda)
    requires standing { IsStanding agenda.old.connected (record { cid = Cid.User 70000; at = 1 }) }
    requires places { (place : ℕ) → place < 3 → HasPlace agenda.old.connected (Cid.User 70000) place }
    ensures { IsStanding agenda.new.connected (record { cid = Cid.User 70000; at = 1 }) }
{
    for place in 0..3 {
        agenda.unmark(&taken_user(), place);
    }
}

/// The mark of the values from the one to the other.
fn between(low: i32, high: i32) -> Mark {
    Mark::Between {
        low: Value(low),
        high: Value(high),
    }
}

/// The marks of the user's places where the values 2 and 4 of the first variable, and what lies between, are put back.
fn marks_of_restored(alloc: Global, agenda: &mut Agenda) -> Result<Vec<Mark>, NoMemory>
    requires { IsStanding agenda.old.connected (record { cid = Cid.User 70000; at = 1 }) }
{
    agenda.wake_restored(Var(0), Value(2), Value(4));
    Ok(Vec::from_slice(alloc, agenda.marks(&taken_user()))?)
}

/// The same where both constraints are connected first, and the marks taken away.
fn marks_after_return(alloc: Global, agenda: &mut Agenda) -> Result<Vec<Mark>, NoMemory>
    requires { agenda.old.connected ≡ [] }
{
    connect_two(alloc, agenda, heeds_of(alloc, Heed::Each, 3)?)?;
    unmark_user(agenda);
    marks_of_restored(alloc, agenda)
}

/// The same of a new agenda.
fn restored_marks(alloc: Global) -> Result<Vec<Mark>, NoMemory> {
    let mut agenda = Agenda::new(alloc);
    marks_after_return(alloc, &mut agenda)
}

#[test]
fn marks_follow_what_came_back(rt: HostRuntime) -> Result<(), Fail> {
    let expected = [between(2, 4), Mark::Clear, between(2, 4)];
    assert_eq!(rt; restored_marks(rt.alloc())?.as_slice(), expected.as_slice());
    Ok(())
}

/// The marks of the user's places where these values of the first variable are lost.
fn marks_of_lost(alloc: Global, agenda: &mut Agenda, losses: &[Loss]) -> Result<Vec<Mark>, NoMemory>
    requires { IsStanding agenda.old.connected (record { cid = Cid.User 70000; at = 1 }) }
{
    for loss in losses {
        agenda.wake(Var(0), *loss);
    }
    Ok(Vec::from_slice(alloc, agenda.marks(&taken_user()))?)
}

/// The same where both constraints are connected first, the user's with these heeds, and the marks taken away.
fn marks_after_losses(
    alloc: Global,
    agenda: &mut Agenda,
    heeds: Vec<Heed>,
    losses: &[Loss],
) -> Result<Vec<Mark>, NoMemory>
    requires { agenda.old.connected ≡ [] }
{
    connect_two(alloc, agenda, heeds)?;
    unmark_user(agenda);
    marks_of_lost(alloc, agenda, losses)
}

/// The same of a new agenda.
fn lost_marks(alloc: Global, heeds: Vec<Heed>, losses: &[Loss]) -> Result<Vec<Mark>, NoMemory> {
    let mut agenda = Agenda::new(alloc);
    marks_after_losses(alloc, &mut agenda, heeds, losses)
}

/// The places of the first variable stay clear, and that of the other variable is marked so.
fn at_other(mark: Mark) -> [Mark; 3] {
    [Mark::Clear, mark, Mark::Clear]
}

/// The losses of the least value, of the greatest one, and one that leaves a single value below it.
fn least() -> Loss {
    Loss {
        below: false,
        ..loss()
    }
}

fn greatest() -> Loss {
    Loss {
        above: false,
        ..loss()
    }
}

fn last_but_one() -> Loss {
    Loss {
        above: false,
        several: false,
        ..loss()
    }
}

/// The loss of another value that leaves the same.
fn loss_of(value: i32) -> Loss {
    Loss {
        value: Value(value),
        ..loss()
    }
}

// Each heed marks for exactly the losses that it names.
#[test]
fn marks_follow_the_losses_that_are_heeded(rt: HostRuntime) -> Result<(), Fail> {
    let rows: [(Heed, &[Loss], Mark); 20] = [
        (Heed::Each, &[loss()], Mark::Whole),
        (Heed::Least, &[loss()], Mark::Clear),
        (Heed::Least, &[greatest()], Mark::Clear),
        (Heed::Least, &[least()], Mark::Whole),
        (Heed::Least, &[loss(), least()], Mark::Whole),
        (Heed::Least, &[least(), loss()], Mark::Whole),
        (Heed::Greatest, &[loss()], Mark::Clear),
        (Heed::Greatest, &[least()], Mark::Clear),
        (Heed::Greatest, &[greatest()], Mark::Whole),
        (Heed::Ends, &[loss()], Mark::Clear),
        (Heed::Ends, &[least()], Mark::Whole),
        (Heed::Ends, &[greatest()], Mark::Whole),
        (Heed::Alone, &[loss()], Mark::Clear),
        (Heed::Alone, &[least(), greatest()], Mark::Clear),
        (Heed::Alone, &[last_but_one()], Mark::Whole),
        (Heed::Shifted(3), &[loss()], between(8, 8)),
        (Heed::Shifted(-7), &[loss(), loss_of(9)], between(-2, 2)),
        (
            Heed::Shifted(3),
            &[loss_of(i32::MAX - 3)],
            between(i32::MAX, i32::MAX),
        ),
        (Heed::Shifted(3), &[loss_of(i32::MAX - 2)], Mark::Whole),
        (Heed::Shifted(-3), &[loss_of(i32::MIN + 2)], Mark::Whole),
    ];
    for (heed, losses, mark) in &rows {
        let got = lost_marks(rt.alloc(), heeds_of(rt.alloc(), *heed, 3)?, losses)?;
        assert_eq!(rt;
            got.as_slice(),
            at_other(*mark).as_slice(),
            "{heed:?} of {losses:?}"
        );
    }
    Ok(())
}

// A loss that the heed of the variable's place leaves alone marks where no heed is told of the place.
#[test]
fn losses_are_heeded_where_nothing_is_told(rt: HostRuntime) -> Result<(), Fail> {
    let told = lost_marks(rt.alloc(), heeds_of(rt.alloc(), Heed::Least, 1)?, &[loss()])?;
    assert_eq!(rt; told.as_slice(), at_other(Mark::Clear).as_slice(), "told");
    let untold = lost_marks(rt.alloc(), Vec::new(rt.alloc()), &[loss()])?;
    assert_eq!(rt;
        untold.as_slice(),
        at_other(Mark::Whole).as_slice(),
        "untold"
    );
    Ok(())
}
