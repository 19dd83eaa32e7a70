// Hearing a record: a packet of the session goes to the receiver, and any other record is passed over.
ghost use Rattle.std.specs.Prelude.{◌≡◌, IfOk, OnErr, OnOk, false};
ghost use Rattle.amr_playout.specs.Gains.{Gains, GainsPart};
ghost use Rattle.amr_playout.specs.Steps.{TakesPlan};
ghost use Rattle.record_hearing.specs.Going.{IsServedBy, TakesRecord};
ghost use Rattle.record_hearing.specs.Hearing.{EndsPart, EndsSession, HearStep, Hears, HearsPart, Offers, OffersPart};
ghost use Rattle.amr_playout.specs.Heard.{heard as heard_as};
ghost use Rattle.amr_toc.specs.Viewed.{format_of};
ghost use Rattle.spec_session.specs.Packets.{is_asked as is_type_asked};

use crate::heard::Heard;
use crate::job::RecordJob;
use amr_frame::BlockSink;
use amr_io::Failed;
use amr_payload::read_payload;
use amr_playout::{Offered, Receiver};
use amr_toc::PayloadView;
use rtp_packet::{RtpView, read_rtp};

/// Whether a payload type is the asked one; each is where none is asked.
fn is_asked(asked: Option<u8>, payload_type: u8) -> bool
    ensures { result ≡ is_type_asked asked payload_type }
{
    match asked {
        None => true,
        Some(pt) => pt == payload_type,
    }
}

/// Hears a record, and puts the blocks that go out on it.
///
/// `Failed` comes only where the sink's faults rose. A prefix of the blocks was then put, and the receiver is
/// spent.
pub fn hear<B: BlockSink>(
    job: &RecordJob,
    receiver: &mut Receiver,
    octets: &[u8],
    out: &mut B,
) -> Result<Heard, Failed>
    requires ready { TakesRecord job.now receiver.old }
    requires sink { TakesPlan B.BlockSink job.now.plan out.old }

    ensures heard { IfOk result (Hears job.now receiver.old receiver.new octets.now
        (Gains B.whole out.old out.new)) }
    ensures part { OnErr result (HearsPart job.now receiver.old octets.now
        (GainsPart B.whole B.part out.old out.new)) }

    ensures step { HearStep B.BlockSink receiver.old receiver.new out.old out.new result }
{
    if octets.is_empty() {
        return Ok(Heard::Null);
    }
    let Ok(rtp) = read_rtp(octets) else {
        return Ok(Heard::NoRtp);
    };
    if !is_asked(job.pt, rtp.payload_type()) {
        return Ok(Heard::OtherType);
    }
    let Ok(payload) = read_payload(&job.plan.profile, rtp.payload()) else {
        return Ok(Heard::NoPayload);
    };
    offer(job, receiver, &rtp, &payload, out)
}

/// Offers a packet to the receiver, and puts the blocks that go out on it.
///
/// `Failed` comes only where the sink's faults rose. A prefix of the blocks was then put, and the receiver is
/// spent.
fn offer<B: BlockSink>(
    job: &RecordJob,
    receiver: &mut Receiver,
    rtp: &RtpView<'_>,
    payload: &PayloadView<'_>,
    out: &mut B,
) -> Result<Heard, Failed>
    requires format { format_of payload.now ≡ job.now.plan.profile }
    requires ready { TakesRecord job.now receiver.old }
    requires sink { TakesPlan B.BlockSink job.now.plan out.old }

    ensures offered { IfOk result (Offers job.now receiver.old receiver.new
        (heard_as rtp.now payload.now) (Gains B.whole out.old out.new)) }
    ensures part { OnErr result (OffersPart job.now receiver.old
        (heard_as rtp.now payload.now) (GainsPart B.whole B.part out.old out.new)) }

    ensures step { HearStep B.BlockSink receiver.old receiver.new out.old out.new result }
{
    match receiver.offer(rtp, payload, out) {
        Ok(_) => Ok(Heard::Accepted),
        Err(Offered::Refused(_)) => Ok(Heard::NoPlace),
        Err(Offered::BlockFault) => Err(Failed),
    }
}

/// Ends the session, and puts the blocks that it still held.
///
/// `Failed` comes only where the sink's faults rose. A prefix of the blocks was then put.
pub fn end_session<B: BlockSink>(
    job: &RecordJob,
    receiver: &mut Receiver,
    out: &mut B,
) -> Result<(), Failed>
    requires served { IsServedBy job.now receiver.old }
    requires unspent { receiver.old.spent ≡ false }
    requires sink { TakesPlan B.BlockSink job.now.plan out.old }

    ensures ended { OnOk result (EndsSession job.now receiver.old receiver.new
        (Gains B.whole out.old out.new)) }
    ensures part { OnErr result (EndsPart job.now receiver.old
        (GainsPart B.whole B.part out.old out.new)) }

    ensures step { HearStep B.BlockSink receiver.old receiver.new out.old out.new result }
{
    match receiver.finish(out) {
        Ok(_) => Ok(()),
        Err(_) => Err(Failed),
    }
}
