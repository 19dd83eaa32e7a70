// The fields of a header (RFC 3550, 5.1 and 5.3.1), each read from whole octets. A field of the
// first or the second octet takes that octet alone.
ghost use Rattle.std.specs.Prelude.{◌≡◌, ◌+◌, ◌*◌, ◌≤◌, ◌<◌, [], ◌∷◌, length};
ghost use Rattle.amr_bits.specs.Bits.{bit_at, number_at};
ghost use Rattle.spec_packet.specs.RtpReading.{version, is_padded as has_padding, is_extended as has_extension};

/// The version: the first two bits of the first octet.
pub(crate) fn version_in(first: u8) -> u8
    ensures { result ≡ version (first ∷ []) }
{
    first / 64
}

/// Whether there is padding, by the first octet.
pub(crate) fn is_padded(first: u8) -> bool
    ensures { result ≡ has_padding (first ∷ []) }
{
    first / 32 % 2 == 1
}

/// Whether there is a header extension, by the first octet.
pub(crate) fn is_extended(first: u8) -> bool
    ensures { result ≡ has_extension (first ∷ []) }
{
    first / 16 % 2 == 1
}

/// How many contributing sources there are, by the first octet.
pub(crate) fn source_count(first: u8) -> usize
    ensures count { result ≡ number_at (first ∷ []) 4 4 }
    ensures below { result < 16 }
{
    (first % 16) as usize
}

/// The marker bit, by the second octet.
pub(crate) fn marker_in(second: u8) -> bool
    ensures { result ≡ bit_at (second ∷ []) 0 }
{
    second / 128 == 1
}

/// The payload type, by the second octet.
pub(crate) fn type_in(second: u8) -> u8
    ensures { result ≡ number_at (second ∷ []) 1 7 }
{
    second % 128
}

/// The 16 bits of the two octets from `at` on.
pub(crate) fn number_16(octets: &[u8], at: usize) -> u16
    requires { at + 2 ≤ length octets.now }
    ensures { result ≡ number_at octets.now (8 * at) 16 }
{
    256 * octets[at] as u16 + octets[at + 1] as u16
}

/// The 32 bits of the four octets from `at` on.
pub(crate) fn number_32(octets: &[u8], at: usize) -> u32
    requires { at + 4 ≤ length octets.now }
    ensures { result ≡ number_at octets.now (8 * at) 32 }
{
    let high = 256 * octets[at] as u32 + octets[at + 1] as u32;
    let low = 256 * octets[at + 2] as u32 + octets[at + 3] as u32;
    65536 * high + low
}
