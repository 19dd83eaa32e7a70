// The text of an answer.
ghost use Rattle.std.specs.Prelude.{◌≡◌, ◌+◌, ◌++◌, ◌≤◌, decimal, length};
ghost use Rattle.arrayvec.specs.ArrayString.{array_string_len};
ghost use Rattle.amr_sdp.specs.Answers.{chosen_said, wanted_said};
ghost use Rattle.amr_sdp.specs.Offers.{offer_said};
ghost use Rattle.amr_sdp.specs.Texts.{format_text, front_text, line_end, map_text};
ghost use Rattle.amr_sdp.specs.Texts.{parameters_text, time_text, times_text};
ghost use Rattle.media_params.specs.Fmtp.{parameters};
ghost use Rattle.run_report.specs.Written.{Writes};
ghost use Rattle.spec_media.specs.Printing.{printed};
ghost use Rattle.spec_offer.specs.Answers.{answer_text};

use crate::answer::{Chosen, Wanted};
use crate::offer::Offer;
use amr_frame::rate;
use amr_io::{Failed, Sink, write_whole};
use arrayvec::ArrayString;
use itoa::Buffer;
use media_params::{Fmtp, print_fmtp};
use sdp_lines::codec_name;

/// Room for the longest piece that is gathered, the map.
type Piece = ArrayString<128>;

/// Writes the text of an answer: the media line with a port, the map, the media parameters where
/// they aren't all at their defaults, and the times that the offer asks for (RFC 4566, 5.14 and 6).
/// Each line ends with CR LF.
///
/// `Failed` comes only where the sink's faults rose. A front of the text was then written.
pub fn write_answer<S: Sink>(
    offer: &Offer,
    wanted: &Wanted,
    port: u16,
    chosen: &Chosen,
    sink: &mut S,
) -> Result<(), Failed>
    ensures { Writes S.Sink (answer_text (offer_said offer.now) (wanted_said wanted.now) port
        (chosen_said chosen.now)) sink.old sink.new result }
{
    match write_media(offer, wanted, port, chosen.pt, sink) {
        Ok(()) => write_attributes(offer, chosen, sink),
        Err(failed) => Err(failed),
    }
}

/// Writes the media line and the map.
fn write_media<S: Sink>(
    offer: &Offer,
    wanted: &Wanted,
    port: u16,
    pt: u8,
    sink: &mut S,
) -> Result<(), Failed>
    ensures { Writes S.Sink (front_text port ++ (offer_said offer.now).protocol
        ++ map_text (wanted_said wanted.now) pt) sink.old sink.new result }
{
    match write_front(port, offer.protocol(), sink) {
        Ok(()) => write_piece(&gather_map(wanted, pt), sink),
        Err(failed) => Err(failed),
    }
}

/// Writes the media line up to the protocol word.
fn write_front<S: Sink>(port: u16, protocol: &[u8], sink: &mut S) -> Result<(), Failed>
    ensures { Writes S.Sink (front_text port ++ protocol.now) sink.old sink.new result }
{
    match write_piece(&gather_front(port), sink) {
        Ok(()) => write_octets(protocol, sink),
        Err(failed) => Err(failed),
    }
}

/// Writes the media parameters and the times.
fn write_attributes<S: Sink>(offer: &Offer, chosen: &Chosen, sink: &mut S) -> Result<(), Failed>
    ensures { Writes S.Sink (parameters_text (chosen_said chosen.now)
        ++ times_text (offer_said offer.now)) sink.old sink.new result }
{
    match write_parameters(chosen, sink) {
        Ok(()) => write_piece(&gather_times(offer), sink),
        Err(failed) => Err(failed),
    }
}

/// Writes the line of the media parameters, where they aren't all at their defaults.
fn write_parameters<S: Sink>(chosen: &Chosen, sink: &mut S) -> Result<(), Failed>
    ensures { Writes S.Sink (parameters_text (chosen_said chosen.now)) sink.old sink.new result }
{
    if chosen.fmtp.is_default() {
        Ok(())
    } else {
        write_format(chosen, sink)
    }
}

/// Writes the line of media parameters.
fn write_format<S: Sink>(chosen: &Chosen, sink: &mut S) -> Result<(), Failed>
    ensures { Writes S.Sink (format_text chosen.now.pt ++ printed (parameters chosen.now.fmtp)
        ++ line_end) sink.old sink.new result }
{
    match write_values(chosen, sink) {
        Ok(()) => write_octets(b"\r\n", sink),
        Err(failed) => Err(failed),
    }
}

/// Writes the line of media parameters up to its end.
fn write_values<S: Sink>(chosen: &Chosen, sink: &mut S) -> Result<(), Failed>
    ensures { Writes S.Sink (format_text chosen.now.pt ++ printed (parameters chosen.now.fmtp))
        sink.old sink.new result }
{
    match write_piece(&gather_format(chosen.pt), sink) {
        Ok(()) => write_printed(&chosen.fmtp, sink),
        Err(failed) => Err(failed),
    }
}

/// Writes media parameters.
fn write_printed<S: Sink>(fmtp: &Fmtp, sink: &mut S) -> Result<(), Failed>
    ensures { Writes S.Sink (printed (parameters fmtp.now)) sink.old sink.new result }
{
    print_fmtp(fmtp, sink)
}

/// Writes a gathered piece.
fn write_piece<S: Sink>(piece: &Piece, sink: &mut S) -> Result<(), Failed>
    ensures { Writes S.Sink piece.now.bytes sink.old sink.new result }
{
    write_octets(piece.as_str().as_bytes(), sink)
}

/// Writes octets.
fn write_octets<S: Sink>(octets: &[u8], sink: &mut S) -> Result<(), Failed>
    ensures { Writes S.Sink octets.now sink.old sink.new result }
{
    write_whole(sink, octets)
}

/// The media line up to the protocol word.
fn gather_front(port: u16) -> Piece
    ensures { result.bytes ≡ front_text port }
{
    let mut piece = ArrayString::new();
    piece.push_str("m=audio ");
    push_number(&mut piece, u64::from(port), " ");
    piece
}

/// The end of the media line, and the map.
fn gather_map(wanted: &Wanted, pt: u8) -> Piece
    ensures { result.bytes ≡ map_text (wanted_said wanted.now) pt }
{
    let mut piece = ArrayString::new();
    piece.push_str(" ");
    push_number(&mut piece, u64::from(pt), "\r\na=rtpmap:");
    push_number(&mut piece, u64::from(pt), " ");
    piece.push_str(codec_name(wanted.codec));
    piece.push_str("/");
    push_number(&mut piece, u64::from(rate(wanted.codec)), "/");
    push_number(&mut piece, u64::from(wanted.channels), "\r\n");
    piece
}

/// What stands before the media parameters.
fn gather_format(pt: u8) -> Piece
    ensures { result.bytes ≡ format_text pt }
{
    let mut piece = ArrayString::new();
    piece.push_str("a=fmtp:");
    push_number(&mut piece, u64::from(pt), " ");
    piece
}

/// The lines of the times that the offer asks for.
fn gather_times(offer: &Offer) -> Piece
    ensures { result.bytes ≡ times_text (offer_said offer.now) }
{
    let mut piece = ArrayString::new();
    push_time(&mut piece, "a=ptime:", offer.ptime());
    push_time(&mut piece, "a=maxptime:", offer.maxptime());
    piece
}

/// Appends the line of a time, where there is one.
fn push_time(piece: &mut Piece, front: &str, time: Option<u32>)
    requires room { array_string_len piece.old + length front.now + 22 ≤ 128 }

    ensures bytes { piece.new.bytes ≡ piece.old.bytes ++ time_text front.now time }
    ensures len { array_string_len piece.new
        ≤ array_string_len piece.old + length front.now + 22 }
{
    if let Some(time) = time {
        piece.push_str(front);
        push_number(piece, u64::from(time), "\r\n");
    }
}

/// Appends a number and what stands behind it.
fn push_number(piece: &mut Piece, number: u64, behind: &str)
    requires room { array_string_len piece.old + 20 + length behind.now ≤ 128 }

    ensures bytes { piece.new.bytes ≡ piece.old.bytes ++ decimal number ++ behind.now }
    ensures len { array_string_len piece.new
        ≤ array_string_len piece.old + 20 + length behind.now }
{
    piece.push_str(Buffer::new().format(number));
    piece.push_str(behind);
}
