// A record of a log, as it is listed.
ghost use Rattle.std.specs.Prelude.{◌≡◌, ◌≤◌, [], cond, length};
ghost use Rattle.amr_frame.specs.Profiles.{IsValid};
ghost use Rattle.amr_io.specs.Steps.{SinkStep};
ghost use Rattle.amr_toc.specs.Viewed.{format_of, octets_of, viewed};
ghost use Rattle.list_engine.specs.Payloads.{all_bits_said};
ghost use Rattle.list_engine.specs.Records.{HearsOne, HearsPacket, HearsRecord};
ghost use Rattle.list_engine.specs.Records.{ListsPacket, ListsPayload, ListsRecord};
ghost use Rattle.rtp_packet.specs.View.{packet};
ghost use Rattle.run_report.specs.Written.{Writes};
ghost use Rattle.spec_session.specs.Packets.{is_asked as is_type_asked};

use crate::bits::write_bits;
use crate::causes::{push_payload_refusal, push_rtp_refusal};
use crate::head::push_head;
use crate::job::ListJob;
use crate::line::Line;
use crate::payload::push_payload;
use amr_io::{Failed, Sink};
use amr_mode::ModeDesk;
use amr_payload::read_payload;
use amr_toc::PayloadView;
use rtp_packet::{RtpView, read_rtp};

/// Whether a payload type is the asked one; each is where none is asked.
fn is_asked(asked: Option<u8>, payload_type: u8) -> bool
    ensures { result ≡ is_type_asked asked payload_type }
{
    match asked {
        None => true,
        Some(pt) => pt == payload_type,
    }
}

/// Writes the lines of the bits of all frames, where they are asked for.
///
/// `Failed` comes only where the output's faults rose. A front of them was then written.
fn write_asked_bits<O: Sink>(
    asked: bool,
    line: &mut Line,
    view: &PayloadView<'_>,
    output: &mut O,
) -> Result<(), Failed>
    ensures { Writes O.Sink (cond asked (all_bits_said view.now) [])
        output.old output.new result }
{
    if asked {
        return write_bits(line, view, output);
    }
    Ok(())
}

/// Lists a payload that was read, behind the front of its line: the desk hears its request and
/// makes a step.
///
/// `Failed` comes only where the output's faults rose. A front of the text was then written.
fn list_payload<O: Sink>(
    job: &ListJob,
    desk: &mut ModeDesk,
    view: &PayloadView<'_>,
    line: &mut Line,
    output: &mut O,
) -> Result<(), Failed>
    requires format { format_of view.now ≡ job.now.profile }
    requires room { length line.old ≤ 500 }

    ensures heard { HearsOne desk.old desk.new (viewed view.now).cmr }
    ensures listed { ListsPayload O.Sink job.now desk.old line.old (viewed view.now).cmr
        (octets_of view.now) output.old output.new result }
    ensures step { SinkStep O.Sink output.old output.new result }
{
    desk.hear(view.cmr());
    let mode = desk.step();
    push_payload(line, view, mode);
    line.push(b"\n");
    match line.write(output) {
        Ok(()) => write_asked_bits(job.show_bits, line, view, output),
        Err(failed) => Err(failed),
    }
}

/// Lists a packet, behind the front of its line. A payload of another type than the asked one isn't
/// looked at.
///
/// `Failed` comes only where the output's faults rose. A front of the text was then written.
fn list_packet<O: Sink>(
    job: &ListJob,
    desk: &mut ModeDesk,
    rtp: &RtpView<'_>,
    line: &mut Line,
    output: &mut O,
) -> Result<(), Failed>
    requires format { IsValid job.now.profile }
    requires room { length line.old ≤ 100 }

    ensures heard { HearsPacket job.now desk.old desk.new (packet rtp.now) }
    ensures listed { ListsPacket O.Sink job.now desk.old line.old (packet rtp.now)
        output.old output.new result }
    ensures step { SinkStep O.Sink output.old output.new result }
{
    push_head(line, rtp);
    if !is_asked(job.pt, rtp.payload_type()) {
        line.push(b" refused=type\n");
        return line.write(output);
    }
    match read_payload(&job.profile, rtp.payload()) {
        Ok(view) => list_payload(job, desk, &view, line, output),
        Err(why) => {
            line.push(b" refused=");
            push_payload_refusal(line, why);
            line.push(b"\n");
            line.write(output)
        }
    }
}

/// Lists the record behind `count` others: its line, and, where they are asked for, the lines of
/// its bits.
///
/// `Failed` comes only where the output's faults rose. A front of the lines was then written.
pub(crate) fn list_record<O: Sink>(
    job: &ListJob,
    desk: &mut ModeDesk,
    count: u64,
    octets: &[u8],
    line: &mut Line,
    output: &mut O,
) -> Result<(), Failed>
    requires format { IsValid job.now.profile }

    ensures heard { HearsRecord job.now desk.old desk.new octets.now }
    ensures listed { ListsRecord O.Sink job.now desk.old count octets.now
        output.old output.new result }
    ensures step { SinkStep O.Sink output.old output.new result }
{
    line.clear();
    line.number(count);
    line.named(b" ", octets.len() as u64);
    if octets.is_empty() {
        line.push(b" null\n");
        return line.write(output);
    }
    match read_rtp(octets) {
        Ok(rtp) => list_packet(job, desk, &rtp, line, output),
        Err(why) => {
            line.push(b" refused=");
            push_rtp_refusal(line, why);
            line.push(b"\n");
            line.write(output)
        }
    }
}
