// Media parameters as they are printed.
ghost use Rattle.std.specs.Prelude.{◌≡◌, ◌+◌, ◌≤◌, Ok, OnErr, OnOk, Some, [], codes, decimal};
ghost use Rattle.std.specs.Prelude.{length, option_map};
ghost use Rattle.std.specs.Io.KnownBytes.{Appends};
ghost use Rattle.amr_frame.specs.First.{when};
ghost use Rattle.amr_io.specs.Fault.{HasCause};
ghost use Rattle.amr_io.specs.Told.{AppendsPart};
ghost use Rattle.amr_mode.specs.Members.{members};
ghost use Rattle.arrayvec.specs.ArrayString.{array_string_len};
ghost use Rattle.media_params.specs.Fmtp.{parameters};
ghost use Rattle.media_params.specs.Gathered.{added, parted, with_param};
ghost use Rattle.refusals.specs.declared.param.Param.TheVariants as params;
ghost use Rattle.spec_media.specs.Pieces.{is_empty};
ghost use Rattle.spec_media.specs.Printing.{mode_list, on, other_than_1, printed};
ghost use Rattle.spec_modes.specs.ModeSets.{has};

use crate::fmtp::Fmtp;
use amr_io::{Failed, Sink, write_whole};
use amr_mode::ModeSet;
use arrayvec::ArrayString;
use itoa::Buffer;
use refusals::Param;

/// Room for the longest text, which has less than 300 octets.
type Text = ArrayString<320>;

/// Writes the parameters that aren't at their defaults, in the order of the table, as `name=value` with `; ` between them
/// (RFC 4867, 8.3). Modes rise, with commas between them. Where all are at their defaults the sink isn't called.
///
/// `Failed` comes only where the sink's faults rose. A proper prefix of the text was then written.
pub fn print_fmtp<S: Sink>(fmtp: &Fmtp, sink: &mut S) -> Result<(), Failed>
    ensures whole { OnOk result
        (Appends (S.got sink.old) (S.got sink.new) (printed (parameters fmtp.now))) }
    ensures part { OnErr result
        (AppendsPart (S.got sink.old) (S.got sink.new) (printed (parameters fmtp.now))) }
    ensures empty { printed (parameters fmtp.now) ≡ []
        → (result ≡ Ok tt) × (sink.new ≡ sink.old) }

    ensures cause { HasCause (S.faults sink.old) (S.faults sink.new) result }
    ensures beside { S.beside sink.new ≡ S.beside sink.old }
    ensures same { S.same sink.old sink.new }
{
    write_whole(sink, gather(fmtp).as_str().as_bytes())
}

impl Fmtp {
    /// Whether all parameters are at their defaults, so that none is printed.
    pub fn is_default(&self) -> bool
        ensures { result ≡ is_empty (printed (parameters self.now)) }
    {
        gather(self).is_empty()
    }
}

/// The text of parameters.
fn gather(fmtp: &Fmtp) -> Text
    ensures { result.bytes ≡ printed (parameters fmtp.now) }
{
    let mut text = ArrayString::new();
    push_flag(&mut text, Param::OctetAlign, fmtp.octet_aligned);
    push_modes(&mut text, fmtp.modes);
    push_count(&mut text, Param::Period, fmtp.period);
    push_count(&mut text, Param::Capability, fmtp.capability);
    push_flag(&mut text, Param::Neighbor, fmtp.neighbor);
    push_flag(&mut text, Param::Crc, fmtp.crc);
    push_flag(&mut text, Param::Sorting, fmtp.sorting);
    push_number(&mut text, Param::Interleaving, fmtp.interleaving);
    push_number(&mut text, Param::MaxRed, fmtp.max_red);
    text
}

/// Appends a parameter that is on.
fn push_flag(text: &mut Text, param: Param, flag: bool)
    requires room { array_string_len text.old ≤ 290 }

    ensures bytes { text.new.bytes ≡ with_param param (on flag) text.old.bytes }
    ensures len { array_string_len text.new ≤ array_string_len text.old + 26 }
{
    if flag {
        push_param(text, param, "1");
    }
}

/// Appends a parameter that isn't 1.
fn push_count(text: &mut Text, param: Param, count: u8)
    requires room { array_string_len text.old ≤ 290 }

    ensures bytes { text.new.bytes ≡ with_param param (other_than_1 count) text.old.bytes }
    ensures len { array_string_len text.new ≤ array_string_len text.old + 28 }
{
    if count != 1 {
        push_param(text, param, Buffer::new().format(count));
    }
}

/// Appends a parameter that has a number.
fn push_number(text: &mut Text, param: Param, number: Option<u16>)
    requires room { array_string_len text.old ≤ 290 }

    ensures bytes { text.new.bytes
        ≡ with_param param (option_map decimal number) text.old.bytes }
    ensures len { array_string_len text.new ≤ array_string_len text.old + 30 }
{
    if let Some(number) = number {
        push_param(text, param, Buffer::new().format(number));
    }
}

/// Appends the modes, where there is a set of them.
fn push_modes(text: &mut Text, modes: Option<ModeSet>)
    requires room { array_string_len text.old ≤ 200 }

    ensures bytes { text.new.bytes
        ≡ with_param params.ModeSet (option_map mode_list (option_map members modes)) text.old.bytes }
    ensures len { array_string_len text.new ≤ array_string_len text.old + 89 }
{
    if let Some(set) = modes {
        push_param(text, Param::ModeSet, gather_modes(set).as_str());
    }
}

/// Appends a parameter with its value, behind `; ` where others stand before it.
fn push_param(text: &mut Text, param: Param, value: &str)
    requires room { array_string_len text.old + length value.now ≤ 295 }

    ensures bytes { text.new.bytes ≡ with_param param (Some value.now) text.old.bytes }
    ensures len { array_string_len text.new ≤ array_string_len text.old + length value.now + 25 }
{
    part(text, "; ");
    text.push_str(param.name());
    text.push_str("=");
    text.push_str(value);
}

/// The modes of a set, with commas between them: at most 16, of three digits at most.
fn gather_modes(set: ModeSet) -> Text
    ensures modes { result.bytes ≡ mode_list (members set) }
    ensures short { array_string_len result ≤ 64 }
{
    let mut text = ArrayString::new();
    for mode in 0..16 {
        push_mode(&mut text, set, mode);
    }
    text
}

/// Appends a mode that is in the set, behind a comma where others stand before it.
fn push_mode(text: &mut Text, set: ModeSet, mode: u8)
    requires room { array_string_len text.old ≤ 200 }

    ensures bytes { text.new.bytes
        ≡ added (codes ",") text.old.bytes (when (has (members set) mode) (decimal mode)) }
    ensures len { array_string_len text.new ≤ array_string_len text.old + 4 }
{
    if set.has(mode) {
        part(text, ",");
        text.push_str(Buffer::new().format(mode));
    }
}

/// Appends what stands between two pieces, where there is one already.
fn part(text: &mut Text, between: &str)
    requires room { array_string_len text.old + length between.now ≤ 320 }

    ensures bytes { text.new.bytes ≡ parted between.now text.old.bytes }
    ensures len { array_string_len text.new ≤ array_string_len text.old + length between.now }
{
    if !text.is_empty() {
        text.push_str(between);
    }
}
