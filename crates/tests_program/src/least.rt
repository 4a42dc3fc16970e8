//! The least value of a variable: the settlings of `minimize` go through the order, and guides and orders lead to the same value. The
//! least values of the job shops were found by trying every order of the jobs on each machine, apart from the program.
use crate::outcomes::{accepted, front_of, no_guides};
use crate::stock::{CHOICES, outcome_by, outcome_with_two_orders};
use palm_base::NoMemory;
use palm_cli::Status;
use std::alloc::Global;
use std::test::Fail;
use tests_compare::first_difference;

// The second order goes round, and counts every revision: that of the cut, and that of a once the cut is withdrawn. So the third of
// three waiting constraints comes first then.
#[test]
fn its_settlings_go_through_the_order(rt: HostRuntime) -> Result<(), Fail> {
    let plain = b"palm 2\nvar z 1..2\nvar w 1..2\nadd a : z < w\norder 2\n\
        var x 1..9\npause\nadd c : x != 1\nadd d : x != 2\nadd e : x != 3\nresume\nlog\n";
    let after = b"palm 2\nvar z 1..2\nvar w 1..2\nadd a : z < w\norder 2\nminimize z budget 1\n\
        var x 1..9\npause\nadd c : x != 1\nadd d : x != 2\nadd e : x != 3\nresume\nlog\n";
    let in_order = b"ok\nok\nok\nok\nok\nok\nok\nok\nok\nok\nok\n\
        z 2 by a\nw 1 by a\nx 1 by c\nx 2 by d\nx 3 by e\nend\n";
    let turned = b"ok\nok\nok\nok\nok\nbest z=1 w=2\nproved by a\nend\nok\nok\nok\nok\nok\nok\n\
        z 2 by a\nw 1 by a\nx 3 by e\nx 1 by c\nx 2 by d\nend\n";
    let first = outcome_with_two_orders(rt.alloc(), plain, no_guides(rt.alloc()))?;
    assert_eq!(rt; first.status, Status::Done);
    assert_eq!(rt; first_difference(in_order, &first.output), None);
    let second = outcome_with_two_orders(rt.alloc(), after, no_guides(rt.alloc()))?;
    assert_eq!(rt; second.status, Status::Done);
    assert_eq!(rt; first_difference(turned, &second.output), None);
    Ok(())
}

/// A job shop: its lines, how many are accepted, with the three before these, and how the replies behind those begin.
#[derive(Clone, Copy)]
struct Shop<'a> {
    lines: &'a str,
    accepted: usize,
    front: &'a str,
}

/// Three jobs on three machines, each with its steps in order and how long each takes: a: v 3, w 3, u 3; b: u 3, w 3, v 3;
/// c: v 2, w 3, u 3.
const THREE_JOBS: Shop<'static> = Shop {
    lines: "var done 0..16\nvar av 0..16\nvar aw 0..16\nvar au 0..16\nvar bu 0..16\nvar bw 0..16\nvar bv 0..16\n\
            var cv 0..16\nvar cw 0..16\nvar cu 0..16\nvar u_ab 0..1\nvar u_ac 0..1\nvar u_bc 0..1\nvar v_ab 0..1\n\
            var v_ac 0..1\nvar v_bc 0..1\nvar w_ab 0..1\nvar w_ac 0..1\nvar w_bc 0..1\nadd aw : aw >= av + 3\n\
            add au : au >= aw + 3\nadd a : done >= au + 3\nadd bw : bw >= bu + 3\nadd bv : bv >= bw + 3\n\
            add b : done >= bv + 3\nadd cw : cw >= cv + 2\nadd cu : cu >= cw + 3\nadd c : done >= cu + 3\n\
            add u_ab : sum au - bu + 40*u_ab <= 37\nadd u_ba : sum bu - au - 40*u_ab <= -3\n\
            add u_ac : sum au - cu + 40*u_ac <= 37\nadd u_ca : sum cu - au - 40*u_ac <= -3\n\
            add u_bc : sum bu - cu + 40*u_bc <= 37\nadd u_cb : sum cu - bu - 40*u_bc <= -3\n\
            add v_ab : sum av - bv + 40*v_ab <= 37\nadd v_ba : sum bv - av - 40*v_ab <= -3\n\
            add v_ac : sum av - cv + 40*v_ac <= 37\nadd v_ca : sum cv - av - 40*v_ac <= -2\n\
            add v_bc : sum bv - cv + 40*v_bc <= 37\nadd v_cb : sum cv - bv - 40*v_bc <= -2\n\
            add w_ab : sum aw - bw + 40*w_ab <= 37\nadd w_ba : sum bw - aw - 40*w_ab <= -3\n\
            add w_ac : sum aw - cw + 40*w_ac <= 37\nadd w_ca : sum cw - aw - 40*w_ac <= -3\n\
            add w_bc : sum bw - cw + 40*w_bc <= 37\nadd w_cb : sum cw - bw - 40*w_bc <= -3\n\
            minimize done budget 1000\ndomain done\n",
    accepted: 49,
    front: "best done=14 ",
};

/// Four jobs on the same machines: a: v 2, w 3, u 1; b: v 3, u 1, w 2; c: v 1, w 2, u 3; d: v 2, w 2, u 1.
const FOUR_JOBS: Shop<'static> = Shop {
    lines: "var done 0..13\nvar av 0..13\nvar aw 0..13\nvar au 0..13\nvar bv 0..13\nvar bu 0..13\nvar bw 0..13\n\
            var cv 0..13\nvar cw 0..13\nvar cu 0..13\nvar dv 0..13\nvar dw 0..13\nvar du 0..13\nvar u_ab 0..1\n\
            var u_ac 0..1\nvar u_ad 0..1\nvar u_bc 0..1\nvar u_bd 0..1\nvar u_cd 0..1\nvar v_ab 0..1\nvar v_ac 0..1\n\
            var v_ad 0..1\nvar v_bc 0..1\nvar v_bd 0..1\nvar v_cd 0..1\nvar w_ab 0..1\nvar w_ac 0..1\nvar w_ad 0..1\n\
            var w_bc 0..1\nvar w_bd 0..1\nvar w_cd 0..1\nadd aw : aw >= av + 2\nadd au : au >= aw + 3\n\
            add a : done >= au + 1\nadd bu : bu >= bv + 3\nadd bw : bw >= bu + 1\nadd b : done >= bw + 2\n\
            add cw : cw >= cv + 1\nadd cu : cu >= cw + 2\nadd c : done >= cu + 3\nadd dw : dw >= dv + 2\n\
            add du : du >= dw + 2\nadd d : done >= du + 1\nadd u_ab : sum au - bu + 40*u_ab <= 39\n\
            add u_ba : sum bu - au - 40*u_ab <= -1\nadd u_ac : sum au - cu + 40*u_ac <= 39\n\
            add u_ca : sum cu - au - 40*u_ac <= -3\nadd u_ad : sum au - du + 40*u_ad <= 39\n\
            add u_da : sum du - au - 40*u_ad <= -1\nadd u_bc : sum bu - cu + 40*u_bc <= 39\n\
            add u_cb : sum cu - bu - 40*u_bc <= -3\nadd u_bd : sum bu - du + 40*u_bd <= 39\n\
            add u_db : sum du - bu - 40*u_bd <= -1\nadd u_cd : sum cu - du + 40*u_cd <= 37\n\
            add u_dc : sum du - cu - 40*u_cd <= -1\nadd v_ab : sum av - bv + 40*v_ab <= 38\n\
            add v_ba : sum bv - av - 40*v_ab <= -3\nadd v_ac : sum av - cv + 40*v_ac <= 38\n\
            add v_ca : sum cv - av - 40*v_ac <= -1\nadd v_ad : sum av - dv + 40*v_ad <= 38\n\
            add v_da : sum dv - av - 40*v_ad <= -2\nadd v_bc : sum bv - cv + 40*v_bc <= 37\n\
            add v_cb : sum cv - bv - 40*v_bc <= -1\nadd v_bd : sum bv - dv + 40*v_bd <= 37\n\
            add v_db : sum dv - bv - 40*v_bd <= -2\nadd v_cd : sum cv - dv + 40*v_cd <= 39\n\
            add v_dc : sum dv - cv - 40*v_cd <= -2\nadd w_ab : sum aw - bw + 40*w_ab <= 37\n\
            add w_ba : sum bw - aw - 40*w_ab <= -2\nadd w_ac : sum aw - cw + 40*w_ac <= 37\n\
            add w_ca : sum cw - aw - 40*w_ac <= -2\nadd w_ad : sum aw - dw + 40*w_ad <= 37\n\
            add w_da : sum dw - aw - 40*w_ad <= -2\nadd w_bc : sum bw - cw + 40*w_bc <= 38\n\
            add w_cb : sum cw - bw - 40*w_bc <= -2\nadd w_bd : sum bw - dw + 40*w_bd <= 38\n\
            add w_db : sum dw - bw - 40*w_bd <= -2\nadd w_cd : sum cw - dw + 40*w_cd <= 38\n\
            add w_dc : sum dw - cw - 40*w_cd <= -2\nminimize done budget 1000\ndomain done\n",
    accepted: 82,
    front: "best done=11 ",
};

/// Two jobs, each with a step at the saw and one at the brush. One plan alone is done at 6, so every guide and every order
/// leads to it.
const TWO_JOBS: Shop<'static> = Shop {
    lines: "var shelf_saw 0..10\nvar shelf_paint 0..10\nvar frame_saw 0..10\nvar frame_paint 0..10\n\
            var shelf_saw_first 0..1\nvar shelf_paint_first 0..1\nvar done 0..10\n\
            add shelf_steps : shelf_paint >= shelf_saw + 4\nadd shelf_done : done >= shelf_paint + 1\n\
            add frame_steps : frame_paint >= frame_saw + 1\nadd frame_done : done >= frame_paint + 4\n\
            add saw_shelf_frame : sum shelf_saw - frame_saw + 20*shelf_saw_first <= 16\n\
            add saw_frame_shelf : sum frame_saw - shelf_saw - 20*shelf_saw_first <= -1\n\
            add paint_shelf_frame : sum shelf_paint - frame_paint + 20*shelf_paint_first <= 19\n\
            add paint_frame_shelf : sum frame_paint - shelf_paint - 20*shelf_paint_first <= -4\n\
            minimize done budget 1000\n",
    accepted: 18,
    front: "best shelf_saw=1 shelf_paint=5 frame_saw=0 frame_paint=1 shelf_saw_first=0 shelf_paint_first=0 done=6\n\
            proved by ",
};

/// How the replies begin that the shop is to have.
fn wanted_of(alloc: Global, shop: &Shop<'_>) -> Result<String, NoMemory> {
    accepted(alloc, shop.accepted, shop.front)
}

// Which plan is found, and which constraints prove it, may hang on the guide and the order. How early it is done does not.
#[test]
fn guides_and_orders_lead_to_the_same_least_value(rt: HostRuntime) -> Result<(), Fail> {
    for choice in CHOICES {
        let outcome = outcome_by(rt.alloc(), choice, THREE_JOBS.lines)?;
        let wanted = wanted_of(rt.alloc(), &THREE_JOBS)?;
        let begun = front_of(&outcome.output, wanted.len());
        assert_eq!(rt; outcome.status, Status::Done, "{choice}");
        assert_eq!(rt;
            first_difference(wanted.as_bytes(), begun),
            None,
            "{choice}"
        );
    }
    Ok(())
}

#[test]
fn guides_and_orders_lead_to_the_same_least_value_of_four_jobs(
    rt: HostRuntime,
) -> Result<(), Fail> {
    for choice in CHOICES {
        let outcome = outcome_by(rt.alloc(), choice, FOUR_JOBS.lines)?;
        let wanted = wanted_of(rt.alloc(), &FOUR_JOBS)?;
        let begun = front_of(&outcome.output, wanted.len());
        assert_eq!(rt; outcome.status, Status::Done, "{choice}");
        assert_eq!(rt;
            first_difference(wanted.as_bytes(), begun),
            None,
            "{choice}"
        );
    }
    Ok(())
}

#[test]
fn guides_and_orders_lead_to_the_one_plan(rt: HostRuntime) -> Result<(), Fail> {
    for choice in CHOICES {
        let outcome = outcome_by(rt.alloc(), choice, TWO_JOBS.lines)?;
        let wanted = wanted_of(rt.alloc(), &TWO_JOBS)?;
        let begun = front_of(&outcome.output, wanted.len());
        assert_eq!(rt; outcome.status, Status::Done, "{choice}");
        assert_eq!(rt;
            first_difference(wanted.as_bytes(), begun),
            None,
            "{choice}"
        );
    }
    Ok(())
}
