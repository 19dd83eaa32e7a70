// What became of a record of a log.
ghost use Rattle.std.specs.Prelude.{◌≡◌, ◌<◌, ◌^◌};
ghost use Rattle.record_hearing.specs.Tallies.{IsSmall, counted_as};

use run_report::Counts;

/// What became of a record, by the first that holds.
#[derive(Clone, Copy)]
pub enum Heard {
    /// It has no octets.
    Null,
    /// It isn't an RTP packet: H1 to H5.
    NoRtp,
    /// It is a packet of another payload type than the asked one.
    OtherType,
    /// Its payload isn't one of the format: P1 to P13.
    NoPayload,
    /// It has no place in the session: S1 to S3.
    NoPlace,
    /// It was accepted.
    Accepted,
}

/// Counts a record, and under which test it put nothing into the session.
pub fn count(counts: &mut Counts, heard: Heard)
    requires small { IsSmall counts.old }
    requires few { counts.old.packets < 2 ^ 40 }

    ensures counted { counts.new ≡ counted_as counts.old heard }
    ensures small { IsSmall counts.new }
{
    counts.packets += 1;
    match heard {
        Heard::Null => counts.null += 1,
        Heard::NoRtp => counts.rtp += 1,
        Heard::OtherType => counts.other_type += 1,
        Heard::NoPayload => counts.payload += 1,
        Heard::NoPlace => counts.place += 1,
        Heard::Accepted => {}
    }
}
