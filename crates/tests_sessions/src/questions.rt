//! How often the session's engine asks for support.
ghost use Rattle.std.specs.Prelude.{◌≡◌, false};

use crate::fresh::{Question, ROOM, ask};
use crate::guides::Scripted;
use palm_agenda::LastOrder;
use palm_base::{SteadySink, Steps};
use palm_session::{Going, Session, Stop};
use std::alloc::Global;
use std::sync::ledger::Ledger;
use std::test::Fail;

/// Lines at which the engine asks, and lines behind them.
#[derive(Clone, Copy)]
struct Quiet<'a> {
    asking: &'a [u8],
    quiet: &'a [u8],
}

/// Whether the engine asks at the first lines, and never at those behind them.
fn is_quiet<L: Ledger>(
    session: &mut Session<Scripted, LastOrder>,
    lines: &Quiet<'_>,
    sink: &mut SteadySink,
    steps: &mut Steps<L>,
) -> Result<bool, Stop>
    requires { session.old.over ≡ false }
{
    sink.reserve(ROOM)?;
    if session.feed(lines.asking, sink, steps)? == Going::Quit {
        return Ok(false);
    }
    let asked = session.engine().checks();
    if session.feed(lines.quiet, sink, steps)? == Going::Quit {
        return Ok(false);
    }
    Ok(asked > 0 && session.engine().checks() == asked)
}

impl Question for Quiet<'_> {
    /// Whether it is so.
    type Answer = bool;

    fn answer<L: Ledger>(
        &self,
        alloc: Global,
        session: &mut Session<Scripted, LastOrder>,
        steps: &mut Steps<L>,
    ) -> Result<bool, Stop> {
        let mut sink = SteadySink::new(alloc);
        is_quiet(session, self, &mut sink, steps)
    }
}

/// Three wishes that are in each other's way.
const WISHES: &[u8] =
    b"palm 2\nvar x 1..3\nvar y 1..3\nadd a : x < y\nadd b : y < x\nadd c : x = 2\n";

/// Whether the engine asks at the wishes, and never at these lines behind them.
fn are_quiet(alloc: Global, quiet: &[u8]) -> Result<bool, Stop> {
    ask(
        alloc,
        Vec::new(alloc),
        &Quiet {
            asking: WISHES,
            quiet,
        },
    )
}

#[test]
fn the_engine_is_not_asked_by_some_questions(rt: HostRuntime) -> Result<(), Fail> {
    assert!(rt; are_quiet(rt.alloc(), b"minimal conflict\n")?);
    assert!(rt;
        are_quiet(
            rt.alloc(),
            b"prefer a 3\nprefer b 2\nprefer c 9\npreferred\npreferred\n"
        )?
    );
    assert!(rt;
        are_quiet(
            rt.alloc(),
            b"prefer a 3\nprefer a none\npreferred\nprefer a 4\n"
        )?
    );
    assert!(rt; !are_quiet(rt.alloc(), b"prefer a 3\npreferred\nrelax a\n")?);
    Ok(())
}
