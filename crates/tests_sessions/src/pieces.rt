//! Pieces that cut lines, and a last line without its line feed.
ghost use Rattle.std.specs.Prelude.{◌≡◌, false};

use crate::fresh::{Question, ROOM, ask, bytes_of};
use crate::guides::Scripted;
use palm_agenda::LastOrder;
use palm_base::{SteadySink, Steps};
use palm_session::{Going, Session, Stop};
use std::alloc::Global;
use std::sync::ledger::Ledger;
use std::test::Fail;
use tests_compare::first_difference;

/// Feeds a line, the beginning of another and its end, and finishes; answers whether the session is over only then.
fn is_over_at_last<L: Ledger>(
    session: &mut Session<Scripted, LastOrder>,
    sink: &mut SteadySink,
    steps: &mut Steps<L>,
) -> Result<bool, Stop>
    requires { session.old.over ≡ false }
{
    sink.reserve(ROOM)?;
    if session.feed(b"var x 1..2\r\ndoma", sink, steps)? == Going::Quit {
        return Ok(false);
    }
    if session.feed(b"ins", sink, steps)? == Going::Quit {
        return Ok(false);
    }
    let going = !session.is_over();
    session.finish(sink, steps)?;
    Ok(going && session.is_over() && session.book().variables() == 1)
}

/// Whether a session was over only when it was finished, and what it replied.
#[derive(Drop)]
struct Finished {
    over_at_last: bool,
    replies: Vec<u8>,
}

/// The pieces.
struct Pieces;

impl Question for Pieces {
    type Answer = Finished;

    fn answer<L: Ledger>(
        &self,
        alloc: Global,
        session: &mut Session<Scripted, LastOrder>,
        steps: &mut Steps<L>,
    ) -> Result<Finished, Stop> {
        let mut sink = SteadySink::new(alloc);
        let over_at_last = is_over_at_last(session, &mut sink, steps)?;
        let replies = bytes_of(alloc, &sink)?;
        Ok(Finished {
            over_at_last,
            replies,
        })
    }
}

#[test]
fn a_session_is_fed_and_finished(rt: HostRuntime) -> Result<(), Fail> {
    let got = ask(rt.alloc(), Vec::new(rt.alloc()), &Pieces)?;
    assert!(rt; got.over_at_last, "the session is not over");
    let expected = b"ok\nx: 1 2\nend\n";
    assert_eq!(rt; first_difference(expected, &got.replies), None);
    Ok(())
}
