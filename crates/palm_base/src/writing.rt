//! Writing whole texts to a sink.
ghost use Rattle.palm_base.specs.Streams.{HasCause, IsSameSink, WritesAll};

use crate::errors::Failed;
use crate::stream::Sink;

/// Writes the whole text, with as many writes as the sink needs. It takes no memory; at a fault a proper front was written.
pub fn write_all<K: Sink>(sink: &mut K, text: &[u8]) -> Result<(), Failed>
    ensures cause { HasCause (K.state sink.old).faults (K.state sink.new).faults result }
    ensures bytes { WritesAll (K.state sink.old) (K.state sink.new) text.now result }
    ensures stands { IsSameSink (K.state sink.old) (K.state sink.new) result }
{
    let mut rest = text;
    while !rest.is_empty() {
        match sink.write(rest) {
            Ok(count) => rest = &rest[count..],
            Err(failed) => return Err(failed),
        }
    }
    Ok(())
}
