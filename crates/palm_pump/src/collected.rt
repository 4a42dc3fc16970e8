//! A text that is collected.
use crate::taker::Taker;
use palm_base::Sink;
use palm_lang::WriteStop;

/// A list keeps the bytes, and writes nothing.
impl Taker for Vec<u8> {
    ghost use Rattle.palm_pump.specs.Collected.{Keeps};

    ghost takes = { λ first progress text before after now. Keeps first.items progress text before after now.items };

    fn take<K: Sink>(&mut self, piece: &[u8], _sink: &mut K) -> Result<bool, WriteStop> {
        match self.extend_from_slice(piece) {
            Ok(()) => Ok(true),
            Err(_) => Err(WriteStop::NoMemory),
        }
    }

    fn finish<K: Sink>(&mut self, _sink: &mut K) -> Result<(), WriteStop> {
        Ok(())
    }
}
