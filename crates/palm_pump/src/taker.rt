//! What takes bytes.
ghost use Rattle.palm_lang.specs.Writing.{IsCounted};
ghost use Rattle.palm_pump.specs.Taking.{GoesOn, TakesEnd, TakesOn};

use palm_base::Sink;
use palm_lang::WriteStop;

/// Takes the bytes of a source as they come, and may write to a sink.
pub trait Taker {
    ghost use Rattle.palm_pump.specs.Taking.{Taking};

    /// Since it was the first of the two, the taker took these bytes and came so far, while the sink went from the one state to
    /// the other; now it is the last.
    ghost takes: { Self → Taking Self };

    /// Takes the next bytes, and answers whether it takes more.
    fn take<K: Sink>(&mut self, piece: &[u8], sink: &mut K) -> Result<bool, WriteStop>
        requires { GoesOn takes self.old (K.state sink.old) }
        ensures counted { IsCounted (K.state sink.old).faults (K.state sink.new).faults result }
        ensures takes { TakesOn takes self.old (K.state sink.old) piece.now result
            self.new (K.state sink.new) };

    /// Takes the end of the source.
    fn finish<K: Sink>(&mut self, sink: &mut K) -> Result<(), WriteStop>
        requires { GoesOn takes self.old (K.state sink.old) }
        ensures counted { IsCounted (K.state sink.old).faults (K.state sink.new).faults result }
        ensures takes { TakesEnd takes self.old (K.state sink.old) result
            self.new (K.state sink.new) };
}
