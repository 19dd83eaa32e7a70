// Sets of speech modes.
ghost use Rattle.std.specs.Prelude.{◌≡◌, ◌↔◌, ◌<◌, ◌≤◌, IfSome, IsSome};
ghost use Rattle.amr_frame.specs.Tables.{mode_bits};
ghost use Rattle.amr_mode.specs.Nearest.{greatest_below, least_above, up_to};
ghost use Rattle.spec_modes.specs.Desk.{toward};
ghost use Rattle.spec_modes.specs.ModeSets.{IsModeSet, all_modes, greatest, has, within};

use amr_frame::Codec;

/// A set of speech modes: bit m stands for mode m (3GPP TS 26.101 and TS 26.201).
#[derive(Clone, Copy, Debug, PartialEq, Eq)]
pub struct ModeSet {
    pub bits: u16,
}

impl ModeSet {
    ghost use Rattle.amr_mode.specs.Members.{members};

    /// All modes of the codec: 0 to 7 of AMR, 0 to 8 of AMR-WB.
    pub fn all(codec: Codec) -> ModeSet
        ensures modes { members result ≡ all_modes codec }
        ensures bits { result.bits ≡ mode_bits codec }
    {
        match codec {
            Codec::Amr => ModeSet { bits: 0xff },
            Codec::AmrWb => ModeSet { bits: 0x1ff },
        }
    }

    /// The set of these bits. There is none where no bit is set, or one that stands for no mode of the codec.
    pub fn of(codec: Codec, bits: u16) -> Option<ModeSet>
        ensures is_set { IsSome result ↔ IsModeSet codec (members (record { bits = bits })) }
        ensures bits { IfSome result (λ set. set.bits ≡ bits) }
    {
        if bits == 0 || bits > ModeSet::all(codec).bits {
            return None;
        }
        Some(ModeSet { bits })
    }

    /// Whether a mode is in the set.
    pub fn has(&self, mode: u8) -> bool
        ensures { result ≡ has (members self.now) mode }
    {
        mode < 16 && self.bits >> mode & 1 == 1
    }

    /// Whether each mode of the set is in the other.
    pub fn within(&self, other: &ModeSet) -> bool
        ensures { result ≡ within (members self.now) (members other.now) }
    {
        self.bits & other.bits == self.bits
    }

    /// The greatest mode of the set, or 0 where the set has none.
    pub fn greatest(&self) -> u8
        ensures { result ≡ greatest (members self.now) }
    {
        self.greatest_up_to(15, 0)
    }

    /// The greatest mode of the set that is at most `limit`, or `otherwise` where there is none.
    pub(crate) fn greatest_up_to(&self, limit: u8, otherwise: u8) -> u8
        requires { limit ≤ 15 }
        ensures { result ≡ up_to (members self.now) limit otherwise }
    {
        for mode in (0..limit + 1).rev() {
            if self.has(mode) {
                return mode;
            }
        }
        otherwise
    }

    /// The next mode of the set from a mode towards another, which is the answer where none lies between (RFC 4867, 8.1,
    /// mode-change-neighbor).
    pub(crate) fn toward(&self, mode: u8, target: u8) -> u8
        ensures { result ≡ toward (members self.now) mode target }
    {
        if mode < target {
            self.least_above(mode, target)
        } else {
            self.greatest_below(mode, target)
        }
    }

    /// The least mode of the set above `mode`, and at most `target`.
    fn least_above(&self, mode: u8, target: u8) -> u8
        requires { mode < target }
        ensures { result ≡ least_above (members self.now) mode target }
    {
        for next in mode + 1..target {
            if self.has(next) {
                return next;
            }
        }
        target
    }

    /// The greatest mode of the set below `mode`, and at least `target`.
    fn greatest_below(&self, mode: u8, target: u8) -> u8
        requires { target ≤ mode }
        ensures { result ≡ greatest_below (members self.now) mode target }
    {
        for next in (target..mode).rev() {
            if self.has(next) {
                return next;
            }
        }
        target
    }
}
