ghost use Rattle.std.specs.Prelude.{◌≡◌, ◌≤◌};
ghost use Rattle.amr_frame.specs.Tables.{bits_in, class_a_in, clock, kind_in, octets_in, ticks};

use crate::codec::{Codec, Kind};

/// What a frame type stands for (3GPP TS 26.101 and TS 26.201).
pub fn kind_of(codec: Codec, ft: u8) -> Kind
    requires { ft ≤ 15 }
    ensures { result ≡ kind_in codec ft }
{
    match (codec, ft) {
        (Codec::Amr, 0..=7) | (Codec::AmrWb, 0..=8) => Kind::Speech,
        (Codec::Amr, 8) | (Codec::AmrWb, 9) => Kind::Sid,
        (Codec::AmrWb, 14) => Kind::Lost,
        (_, 15) => Kind::Empty,
        _ => Kind::Reserved,
    }
}

/// The number of bits of a frame of this type (3GPP TS 26.101 and TS 26.201).
pub fn bits_of(codec: Codec, ft: u8) -> usize
    requires { ft ≤ 15 }
    ensures { result ≡ bits_in codec ft }
{
    match codec {
        Codec::Amr => match ft {
            0 => 95,
            1 => 103,
            2 => 118,
            3 => 134,
            4 => 148,
            5 => 159,
            6 => 204,
            7 => 244,
            8 => 39,
            _ => 0,
        },
        Codec::AmrWb => match ft {
            0 => 132,
            1 => 177,
            2 => 253,
            3 => 285,
            4 => 317,
            5 => 365,
            6 => 397,
            7 => 461,
            8 => 477,
            9 => 40,
            _ => 0,
        },
    }
}

/// How many of the first bits of a frame of this type a frame CRC covers.
pub fn class_a_of(codec: Codec, ft: u8) -> usize
    requires { ft ≤ 15 }
    ensures { result ≡ class_a_in codec ft }
{
    match codec {
        Codec::Amr => match ft {
            0 => 42,
            1 => 49,
            2 => 55,
            3 => 58,
            4 => 61,
            5 => 75,
            6 => 65,
            7 => 81,
            8 => 39,
            _ => 0,
        },
        Codec::AmrWb => match ft {
            0 => 54,
            1 => 64,
            2..=8 => 72,
            9 => 40,
            _ => 0,
        },
    }
}

/// The number of octets that hold the bits of a frame of this type.
pub fn octets_of(codec: Codec, ft: u8) -> usize
    requires { ft ≤ 15 }
    ensures { result ≡ octets_in codec ft }
{
    bits_of(codec, ft).div_ceil(8)
}

/// The ticks of the RTP clock in one frame time of 20 ms.
pub fn step(codec: Codec) -> u32
    ensures { result ≡ ticks codec }
{
    match codec {
        Codec::Amr => 160,
        Codec::AmrWb => 320,
    }
}

/// The rate of the RTP clock, in ticks a second.
pub fn rate(codec: Codec) -> u32
    ensures { result ≡ clock codec }
{
    match codec {
        Codec::Amr => 8000,
        Codec::AmrWb => 16000,
    }
}
