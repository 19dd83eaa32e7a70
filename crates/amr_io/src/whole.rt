// Writing all of a piece.
ghost use Rattle.std.specs.Prelude.{◌≡◌, ◌<◌, ◌≤◌, ◌∷◌, [], length, take, Ok, OnOk, OnErr};
ghost use Rattle.std.specs.Io.KnownBytes.{Appends};
ghost use Rattle.amr_io.specs.Fault.{HasCause};
ghost use Rattle.amr_io.specs.Steps.{SinkStep};
ghost use Rattle.amr_io.specs.Told.{AppendsPart};

use crate::sink::Sink;
use crate::source::Failed;

/// Writes all of `bytes`, in as many writes as the sink needs. An empty piece needs none.
///
/// `Failed` comes only where the sink's faults rose. A proper prefix of `bytes`, never the whole, was then written.
pub fn write_whole<S: Sink>(sink: &mut S, bytes: &[u8]) -> Result<(), Failed>
    ensures whole { OnOk result (Appends (S.got sink.old) (S.got sink.new) bytes.now) }
    ensures part { OnErr result (AppendsPart (S.got sink.old) (S.got sink.new) bytes.now) }
    ensures empty { bytes.now ≡ [] → (result ≡ Ok tt) × (sink.new ≡ sink.old) }

    ensures cause { HasCause (S.faults sink.old) (S.faults sink.new) result }
    ensures beside { S.beside sink.new ≡ S.beside sink.old }
    ensures same { S.same sink.old sink.new }
{
    if bytes.is_empty() {
        return Ok(());
    }
    let count = sink.write(bytes)?;
    if count < bytes.len() {
        return write_rest(sink, &bytes[count..]);
    }
    Ok(())
}

/// Writes all of `head` and the first `count` octets of `body`, in as many writes as the sink needs.
///
/// `Failed` comes only where the sink's faults rose. A proper prefix of these octets, never the whole, was then written.
#[inline(always)]
pub fn write_whole_headed<S: Sink>(
    sink: &mut S,
    head: u8,
    body: &[u8],
    count: usize,
) -> Result<(), Failed>
    requires within { count ≤ length body.now }

    ensures whole { OnOk result (Appends (S.got sink.old) (S.got sink.new)
        (head ∷ take count body.now)) }
    ensures part { OnErr result (AppendsPart (S.got sink.old) (S.got sink.new)
        (head ∷ take count body.now)) }
    ensures step { SinkStep S.Sink sink.old sink.new result }
{
    let done = sink.write_headed(head, body, count)?;
    if done <= count {
        return write_rest(sink, &body[done - 1..count]);
    }
    Ok(())
}

/// Writes what a sink left of a piece. Most sinks take all at once, so this loop stands apart.
fn write_rest<S: Sink>(sink: &mut S, bytes: &[u8]) -> Result<(), Failed>
    requires some { 0 < length bytes.now }

    ensures whole { OnOk result (Appends (S.got sink.old) (S.got sink.new) bytes.now) }
    ensures part { OnErr result (AppendsPart (S.got sink.old) (S.got sink.new) bytes.now) }
    ensures step { SinkStep S.Sink sink.old sink.new result }
{
    let mut done = 0;
    while done < bytes.len() {
        done += sink.write(&bytes[done..])?;
    }
    Ok(())
}
