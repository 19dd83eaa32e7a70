// Laws of what the sender's calls put, each the contract of a function that does nothing.
ghost use Rattle.std.specs.Prelude.{List};
ghost use Rattle.amr_sender.specs.Sends.{Sends, SendsPart};
ghost use Rattle.spec_packet.specs.Rtp.{RtpPacket};

use rtp_packet::PacketSink;

/// What two calls put one after the other is what both put: so a stream of blocks and its end put
/// just the packets that are sent for them, and a prefix of them where the sink failed.
pub fn calls_add_up<P: PacketSink>()
    ensures whole { (a b c : P) (l m n : List RtpPacket)
        → Sends P.PacketSink a b l m → Sends P.PacketSink b c m n → Sends P.PacketSink a c l n }
    ensures part { (a b c : P) (l m n : List RtpPacket)
        → Sends P.PacketSink a b l m → SendsPart P.PacketSink b c m n
        → SendsPart P.PacketSink a c l n }
{}
