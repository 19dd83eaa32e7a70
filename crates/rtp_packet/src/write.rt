ghost use Rattle.std.specs.Prelude.{◌≡◌, ℕ, List, ◌+◌, ◌≤◌, ◌++◌, length, take, flat_map, option_map, IfSome, Ok};
ghost use Rattle.spec_packet.specs.RtpReading.{rtp_of};
ghost use Rattle.rtp_packet.specs.View.{extension_of};
ghost use Rattle.rtp_packet.specs.Written.{octets_32, fixed_octets, extension_octets, packet_of, written, packet_size, extension_size as size_of_extension, AreCountable, AreWritable, IsWords};

use crate::fields::RtpFields;
use crate::fit::fit_places;
use crate::put::{four_octets, put, put_extension, put_padding, put_sources, two_octets};

/// How many octets an RTP packet has with these fields and a payload of `payload_len` octets.
pub fn size_rtp(fields: &RtpFields<'_>, payload_len: usize) -> usize
    requires fields { AreCountable fields.now }
    requires payload { payload_len ≤ 65535 }
    ensures { result ≡ packet_size fields.now payload_len }
{
    12 + 4 * fields.sources.len()
        + extension_size(fields.extension)
        + payload_len
        + fields.padding as usize
}

/// Writes an RTP packet (RFC 3550, 5.1 and 5.3.1) into `out`, which has exactly its size. P is 1
/// exactly where there is padding; the padding octets but the last are 0. Read again it is the same
/// packet.
pub fn write_rtp(fields: &RtpFields<'_>, payload: &[u8], out: &mut [u8])
    requires fields { AreWritable fields.now }
    requires payload { length payload.now ≤ 65535 }
    requires size { length out.old ≡ packet_size fields.now (length payload.now) }
    ensures octets { out.new ≡ written (packet_of fields.now payload.now) }
    ensures reads { rtp_of out.new ≡ Ok (packet_of fields.now payload.now) }
{
    fit_places(fields, payload);
    let fixed = fixed_header(fields);
    let fixed_end = put(out, 0, &fixed);
    let sources_end = put_sources(out, fixed_end, fields.sources);
    let header_end = put_any_extension(out, sources_end, fields.extension);
    let payload_end = put(out, header_end, payload);
    put_padding(out, payload_end, fields.padding);
}

/// How many octets an extension takes in a header, its head included.
fn extension_size(extension: Option<(u16, &[u8])>) -> usize
    requires { IfSome extension (λ e. IsWords e.1.now) }
    ensures { result ≡ size_of_extension extension.entry }
{
    match extension {
        None => 0,
        Some((_, words)) => 4 + words.len(),
    }
}

/// Writes an extension from `at` on, where there is one, and says where it ends.
fn put_any_extension(out: &mut [u8], at: usize, extension: Option<(u16, &[u8])>) -> usize
    requires words { IfSome extension (λ e. IsWords e.1.now) }
    requires fits { at + size_of_extension extension ≤ length out.old }
    ensures end { result ≡ at + size_of_extension extension.entry }
    ensures front { take result out.new ≡ take at out.old
        ++ extension_octets (option_map (λ e. extension_of e.0 e.1.now) extension.entry) }
{
    match extension {
        None => at,
        Some((bits, words)) => put_extension(out, at, bits, words),
    }
}

/// The 12 octets of the fixed header.
fn fixed_header(fields: &RtpFields<'_>) -> [u8; 12]
    requires fields { AreWritable fields.now }
    ensures { (payload : List ℕ) → result ≡ fixed_octets (packet_of fields.now payload) }
{
    let padded = if fields.padding == 0 { 0 } else { 32 };
    let extended = if fields.extension.is_some() { 16 } else { 0 };
    let marked = if fields.marker { 128 } else { 0 };
    let [s0, s1] = two_octets(fields.sequence);
    let [t0, t1, t2, t3] = four_octets(fields.timestamp);
    let [r0, r1, r2, r3] = four_octets(fields.ssrc);
    let first = 128 + padded + extended + fields.sources.len() as u8;
    let second = marked + fields.payload_type;
    [first, second, s0, s1, t0, t1, t2, t3, r0, r1, r2, r3]
}
