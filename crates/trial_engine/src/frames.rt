// The frames of a trial.
ghost use Rattle.std.specs.Prelude.{◌≡◌, ◌≤◌, ◌<◌, false, length};
ghost use Rattle.amr_frame.specs.Tables.{is_reserved};
ghost use Rattle.spec_modes.specs.ModeSets.{all_modes};
ghost use Rattle.spec_trial.specs.Blocks.{frame_drawn, frame_made, octets_drawn, sid_type, speech_drawn};
ghost use Rattle.spec_trial.specs.Draws.{after};
ghost use Rattle.trial_engine.specs.Made.{MakesFrame};

use crate::draws::Draws;
use amr_bits::BitSlice;
use amr_frame::{Cell, Codec, bits_of, octets_of};

/// How many octets the longest frame has.
const MOST_OCTETS: usize = 60;

/// The type of a silence descriptor (3GPP TS 26.101 and TS 26.201).
fn silence_of(codec: Codec) -> u8
    ensures is_sid { result ≡ sid_type codec }
    ensures exists { result ≤ 15 }
    ensures known { is_reserved codec result ≡ false }
{
    match codec {
        Codec::Amr => 8,
        Codec::AmrWb => 9,
    }
}

/// How many modes of speech a codec has (3GPP TS 26.101 and TS 26.201).
fn count_modes(codec: Codec) -> u32
    ensures count { result ≡ length (all_modes codec) }
    ensures some { 1 ≤ result }
    ensures few { result ≤ 9 }
    ensures known { (mode : _) → mode < result → is_reserved codec mode ≡ false }
{
    match codec {
        Codec::Amr => 8,
        Codec::AmrWb => 9,
    }
}

/// Fills octets, a draw for each.
fn fill_octets(draws: &mut Draws, octets: &mut [u8])
    ensures octets { octets.new ≡ octets_drawn draws.old.state (length octets.old) }
    ensures state { draws.new.state ≡ after draws.old.state (length octets.old) }
{
    for octet in octets.iter_mut() {
        *octet = draws.draw(256) as u8;
    }
}

/// A frame of this type and Q, its bits drawn.
fn fill_frame(codec: Codec, ft: u8, q: bool, draws: &mut Draws) -> Cell
    requires exists { ft ≤ 15 }
    requires known { is_reserved codec ft ≡ false }

    ensures { MakesFrame codec (frame_drawn codec ft q draws.old.state) result draws.new }
{
    let mut octets = [0; MOST_OCTETS];
    let filled = &mut octets[..octets_of(codec, ft)];
    fill_octets(draws, filled);
    let Some(bits) = BitSlice::of(filled, 0, bits_of(codec, ft)) else {
        unreachable!()
    };
    Cell::from_bits(codec, ft, q, bits)
}

/// A frame of speech, of a mode that is drawn.
fn make_speech(codec: Codec, q: bool, draws: &mut Draws) -> Cell
    ensures { MakesFrame codec (speech_drawn codec q draws.old.state) result draws.new }
{
    let mode = draws.draw(count_modes(codec)) as u8;
    fill_frame(codec, mode, q, draws)
}

/// The next frame of a trial: a draw of 16 says what it is.
pub(crate) fn make_frame(codec: Codec, draws: &mut Draws) -> Cell
    ensures { MakesFrame codec (frame_made codec draws.old.state) result draws.new }
{
    match draws.draw(16) {
        13 => fill_frame(codec, silence_of(codec), true, draws),
        14 => Cell::no_data(),
        15 => make_speech(codec, false, draws),
        _ => make_speech(codec, true, draws),
    }
}
