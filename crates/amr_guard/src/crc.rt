ghost use Rattle.std.specs.Prelude.{◌≡◌, ◌+◌, ◌*◌, ◌/◌, ◌≤◌, ◌<◌, ◌^◌, Bool, List, length, ◌++◌};
ghost use Rattle.amr_bits.specs.Bits.{bits_at, bits_of, number as number_of};
ghost use Rattle.amr_bits.specs.Runs.{run};
ghost use Rattle.spec_payload.specs.FrameCrc.{crc_of};

use crate::table::crc_of_octet;
use amr_bits::BitSlice;

/// The frame CRC of a run of bits (RFC 4867, 4.4.2.1), its coefficient of `x^7` in the most
/// significant bit. That of no bits is 0.
pub fn crc8(bits: BitSlice<'_>) -> u8
    ensures { result ≡ number_of (crc_of (run bits.entry)) }
{
    let whole = bits.len / 8;
    let rest = (bits.len % 8) as u32;
    after_bits(crc_of_whole(bits), bits.number(8 * whole, rest), rest)
}

/// The CRC of all bits of the run but the last `len % 8`.
fn crc_of_whole(bits: BitSlice<'_>) -> u8
    ensures { result ≡ number_of
        (crc_of (bits_at bits.entry.octets.now bits.entry.start (8 * (bits.entry.len / 8)))) }
{
    let whole = bits.len / 8;
    if bits.start % 8 == 0 {
        // The frames of an octet-aligned payload begin at octets, so this is the way that counts.
        let first = bits.start / 8;
        crc_of_octets(&bits.octets[first..first + whole])
    } else {
        crc_across(bits, whole)
    }
}

/// The CRC of the bits of octets.
fn crc_of_octets(octets: &[u8]) -> u8
    ensures { result ≡ number_of (crc_of (bits_of octets.now)) }
{
    let mut register = 0;
    for octet in octets {
        register = after_octet(register, *octet);
    }
    register
}

/// The CRC of the first `8 * count` bits of a run that may begin inside an octet.
fn crc_across(bits: BitSlice<'_>, count: usize) -> u8
    requires { 8 * count ≤ bits.len }
    ensures { result ≡ number_of
        (crc_of (bits_at bits.entry.octets.now bits.entry.start (8 * count))) }
{
    let mut crc = 0;
    for at in 0..count {
        crc = after_octet(crc, bits.number(8 * at, 8) as u8);
    }
    crc
}

/// The CRC of bits with eight more behind them, from that of the bits.
fn after_octet(register: u8, octet: u8) -> u8
    ensures { (a c : List Bool) → number_of (crc_of a) ≡ register → length c ≡ 8
        → number_of c ≡ octet
        → result ≡ number_of (crc_of (a ++ c)) }
{
    crc_of_octet(register ^ octet)
}

/// The CRC of bits with `count` more behind them, from that of the bits.
fn after_bits(register: u8, more: u32, count: u32) -> u8
    requires few { count ≤ 7 }
    requires below { more < 2 ^ count }
    ensures { (a c : List Bool) → number_of (crc_of a) ≡ register → length c ≡ count
        → number_of c ≡ more
        → result ≡ number_of (crc_of (a ++ c)) }
{
    crc_of_octet((register as u32 >> (8 - count) ^ more) as u8) ^ register << count
}
