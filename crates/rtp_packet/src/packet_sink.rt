// What packets are put to.
ghost use Rattle.std.specs.Prelude.{◌≡◌, ◌≤◌, ℕ, Bool, List, IsTrue, OnOk, OnErr, is_ok, length};
ghost use Rattle.amr_io.specs.Fault.{HasCause};

use amr_io::Failed;

/// Where packets go, one after the other.
pub trait PacketSink {
    /// Whether a packet may be put.
    ghost ready: { Self → Bool };

    /// How often the outside has failed. It never falls, and stops at 2 ^ 64 - 1.
    ghost faults: { Self → ℕ };

    /// The whole packet was put, where the sink tells what it got.
    ghost whole: { Self → List ℕ → Self → Type 0 };

    /// A part of the packet was put, where the sink tells what it got.
    ghost part: { Self → List ℕ → Self → Type 0 };

    /// The second still writes to the object that the first writes to.
    ghost same: { Self → Self → Type 0 };

    /// Puts one packet, of 1 to 65,535 octets.
    ///
    /// `Failed` comes only where `faults` rose. A part of the packet may then have been put, and no
    /// further packet may be.
    fn put_packet(&mut self, packet: &[u8]) -> Result<(), Failed>
        requires ready { IsTrue (ready self.old) }
        requires some { 1 ≤ length packet.now }
        requires most { length packet.now ≤ 65535 }

        ensures whole { OnOk result (whole self.old packet.now self.new) }
        ensures part { OnErr result (part self.old packet.now self.new) }
        ensures ready { ready self.new ≡ is_ok result }

        ensures cause { HasCause (faults self.old) (faults self.new) result }
        ensures same { same self.old self.new };

    /// Each sink writes to the object that it writes to.
    ghost reflexive: { (s : Self) → same s s };

    /// What still writes to the same object through two steps does so through both.
    ghost transitive: { (a b c : Self) → same a b → same b c → same a c };
}
