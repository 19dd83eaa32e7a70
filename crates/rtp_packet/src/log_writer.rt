// Packets written as a log (RFC 4571, 2).
ghost use Rattle.std.specs.Prelude.{◌≡◌, ◌≤◌, ◌++◌, ℕ, List, OnErr, OnOk, length, true};
ghost use Rattle.std.specs.Io.KnownBytes.{Appends};
ghost use Rattle.amr_io.specs.Steps.{SinkStep};
ghost use Rattle.amr_io.specs.Told.{AppendsFront};
ghost use Rattle.spec_packet.specs.Log.{framed};

use crate::packet_sink::PacketSink;
use amr_io::{Failed, Sink, write_whole};

/// The length of a record of a log, which stands before its packet (RFC 4571, 2).
pub fn log_head(len: u16) -> [u8; 2]
    ensures { (packet : List ℕ) → length packet ≡ len → result ++ packet ≡ framed packet }
{
    [(len / 256) as u8, (len % 256) as u8]
}

/// Writes packets to a sink as a log, each behind its length (RFC 4571, 2).
#[derive(Drop)]
pub struct LogWriter<'a, O> {
    /// No write has failed.
    pub ready: bool,
    pub sink: &'a mut O,
}

impl<'a, O: Sink> LogWriter<'a, O> {
    /// A writer that goes on behind what the sink got. A log has no header, so that it is ready.
    pub fn new(sink: &'a mut O) -> LogWriter<'a, O>
        ensures ready { result.ready ≡ true }
        ensures same_reference { result.sink.ghost_name ≡ sink.entry.ghost_name }
        ensures now { result.sink.now ≡ sink.old }
    {
        LogWriter { ready: true, sink }
    }
}

/// Writes a packet as a record of a log behind what the sink got.
///
/// `Failed` comes only where the sink's faults rose. A front of the record was then written.
fn write_record<O: Sink>(packet: &[u8], sink: &mut O) -> Result<(), Failed>
    requires { length packet.now ≤ 65535 }

    ensures whole { OnOk result (Appends (O.got sink.old) (O.got sink.new) (framed packet.now)) }
    ensures part { OnErr result
        (AppendsFront (O.got sink.old) (O.got sink.new) (framed packet.now)) }
    ensures step { SinkStep O.Sink sink.old sink.new result }
{
    write_whole(sink, &log_head(packet.len() as u16))?;
    write_whole(sink, packet)
}

impl<'a, O: Sink> PacketSink for LogWriter<'a, O> {
    ghost use Rattle.rtp_packet.specs.LogWritten.{SameLog, WrotePacket, WrotePart};
    ghost use Rattle.rtp_packet.specs.LogSinkLaws.{same_log, through};

    ghost ready = { λ w. w.ready };

    ghost faults = { λ w. O.faults w.sink.now };

    ghost whole = { λ v packet w. WrotePacket O.Sink v packet w };

    ghost part = { λ v packet w. WrotePart O.Sink v packet w };

    ghost same = { λ v w. SameLog O.beside O.same v w };

    #[inline(always)]
    fn put_packet(&mut self, packet: &[u8]) -> Result<(), Failed> {
        self.ready = false;
        write_record(packet, self.sink)?;
        self.ready = true;
        Ok(())
    }

    ghost reflexive = { λ w. same_log O.beside O.same O.reflexive w };

    ghost transitive = { λ a b c p q. through O.beside O.same O.transitive a b c p q };
}
