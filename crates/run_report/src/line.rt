// One note, gathered before it is written.
ghost use Rattle.std.specs.Prelude.{◌≡◌, ◌+◌, ◌≤◌, ◌++◌, codes, length, decimal};
ghost use Rattle.arrayvec.specs.ArrayString.{array_string_len};
ghost use Rattle.refusals.specs.Names.{param_name};
ghost use Rattle.run_report.specs.Lines.{end_line, file_line, media_line, offer_line};
ghost use Rattle.run_report.specs.Lines.{record_line, sent_line, type_line, usage_line};

use crate::counts::Counts;
use crate::end::RunEnd;
use arrayvec::ArrayString;
use itoa::Buffer;
use refusals::{FmtpRefusal, OfferRefusal, Param, RefusedType, StoreRefusal};

/// Room for the longest note, the nine counts with their names: 244 octets.
pub type Line = ArrayString<256>;

/// Appends a count behind its name.
fn push_count(line: &mut Line, name: &str, count: u64)
    requires room { array_string_len line.old + length name.now + 20 ≤ 256 }

    ensures text { line.new.bytes ≡ line.old.bytes ++ name.now ++ decimal count }
    ensures len { array_string_len line.new ≤ array_string_len line.old + length name.now + 20 }
{
    let mut digits = Buffer::new();
    line.push_str(name);
    line.push_str(digits.format(count));
}

/// The line of the counts of a run that records a log.
pub fn gather_record(counts: &Counts) -> Line
    ensures { result.bytes ≡ record_line counts.now }
{
    let mut line = ArrayString::new();
    push_count(&mut line, "packets=", counts.packets);
    push_count(&mut line, " null=", counts.null);
    push_count(&mut line, " rtp=", counts.rtp);
    push_count(&mut line, " type=", counts.other_type);
    push_count(&mut line, " payload=", counts.payload);
    push_count(&mut line, " place=", counts.place);
    push_count(&mut line, " late=", counts.late);
    push_count(&mut line, " copies=", counts.copies);
    push_count(&mut line, " blocks=", counts.blocks);
    line.push_str("\n");
    line
}

/// The line of the counts of a run that sends packets.
pub fn gather_sent(counts: &Counts) -> Line
    ensures { result.bytes ≡ sent_line counts.now }
{
    let mut line = ArrayString::new();
    push_count(&mut line, "blocks=", counts.blocks);
    push_count(&mut line, " packets=", counts.sent);
    line.push_str("\n");
    line
}

/// The line of an offered payload type that doesn't suit.
pub fn gather_type(refused: &RefusedType) -> Line
    ensures { result.bytes ≡ type_line refused.now }
{
    let mut line = ArrayString::new();
    push_count(&mut line, "type=", refused.pt as u64);
    line.push_str(" refused=");
    line.push_str(refused.why.name());
    line.push_str("\n");
    line
}

/// The line of a storage file that is refused.
fn gather_file(refusal: StoreRefusal) -> Line
    ensures { result.bytes ≡ file_line refusal }
{
    let mut line = ArrayString::new();
    match refusal {
        StoreRefusal::Magic => line.push_str("refused=T1"),
        StoreRefusal::Channels { chan } => {
            push_count(&mut line, "refused=T2 chan=", chan as u64);
        }
        StoreRefusal::Reserved { place, ft } => {
            push_count(&mut line, "refused=T3 place=", place);
            push_count(&mut line, " ft=", ft as u64);
        }
        StoreRefusal::Truncated { place } => push_count(&mut line, "refused=T4 place=", place),
        StoreRefusal::BlockRest { place } => push_count(&mut line, "refused=T5 place=", place),
    }
    line.push_str("\n");
    line
}

/// The line of a refusal of a payload type's parameter: the rule's text, the type and the parameter's name.
fn gather_param(rule: &str, pt: u8, param: Param) -> Line
    requires room { length rule.now ≤ 20 }

    ensures { result.bytes
        ≡ rule.now ++ decimal pt ++ codes " param=" ++ param_name param ++ codes "\n" }
{
    let mut line = ArrayString::new();
    push_count(&mut line, rule, pt as u64);
    line.push_str(" param=");
    line.push_str(param.name());
    line.push_str("\n");
    line
}

/// The line of media parameters of a payload type that are refused.
fn gather_media(pt: u8, refusal: FmtpRefusal) -> Line
    ensures { result.bytes ≡ media_line pt refusal }
{
    match refusal {
        FmtpRefusal::NoName => gather_number("refused=F1 pt=", pt as u64),
        FmtpRefusal::BadValue { param } => gather_param("refused=F2 pt=", pt, param),
        FmtpRefusal::Repeated { param } => gather_param("refused=F3 pt=", pt, param),
        FmtpRefusal::Contradiction => gather_number("refused=F4 pt=", pt as u64),
    }
}

/// The line of an offer that is refused.
fn gather_offer(refusal: OfferRefusal) -> Line
    ensures { result.bytes ≡ offer_line refusal }
{
    match refusal {
        OfferRefusal::NoAudio => gather_text("refused=F5"),
        OfferRefusal::BadMap { line } => gather_number("refused=F6 line=", line as u64),
        OfferRefusal::Parameters { pt, refusal } => gather_media(pt, refusal),
    }
}

/// A line of a text alone.
fn gather_text(text: &str) -> Line
    requires room { length text.now ≤ 20 }

    ensures { result.bytes ≡ text.now ++ codes "\n" }
{
    let mut line = ArrayString::new();
    line.push_str(text);
    line.push_str("\n");
    line
}

/// A line of a text and a number.
fn gather_number(text: &str, number: u64) -> Line
    requires room { length text.now ≤ 20 }

    ensures { result.bytes ≡ text.now ++ decimal number ++ codes "\n" }
{
    let mut line = ArrayString::new();
    push_count(&mut line, text, number);
    line.push_str("\n");
    line
}

/// The line of an end, which is empty for a run that met nothing.
pub fn gather_end(end: RunEnd) -> Line
    ensures { result.bytes ≡ end_line end }
{
    match end {
        RunEnd::Done => ArrayString::new(),
        RunEnd::LogCut { have } => gather_number("truncated have=", have as u64),
        RunEnd::File(refusal) => gather_file(refusal),
        RunEnd::Sdp(refusal) => gather_offer(refusal),
        RunEnd::ReadFault => gather_text("read fault"),
        RunEnd::WriteFault => gather_text("write fault"),
        RunEnd::OutOfMemory => gather_text("out of memory"),
        RunEnd::LimitReached => gather_text("limit reached"),
        RunEnd::NoAnswer => gather_text("no answer"),
    }
}

/// The line where the words give no job.
pub fn gather_usage() -> Line
    ensures { result.bytes ≡ usage_line }
{
    let mut line = ArrayString::new();
    line.push_str("usage: record, stream, convert, list, answer or trial, ");
    line.push_str("then pairs of an option and its value\n");
    line
}
