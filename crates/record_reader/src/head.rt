// The length in the head of a record.
ghost use Rattle.std.specs.Prelude.{◌+◌, ◌-◌, ◌≤◌, ◌<◌, ◌^◌, length, MatchOption};
ghost use Rattle.spec_packet.specs.Records.{IsPartial};
ghost use Rattle.record_reader.specs.Record.{StartsWith};

/// The size of the record that stands first, its head included, or `None` where it isn't whole.
pub(crate) fn record_size<const HEAD: usize, const AT: usize>(octets: &[u8]) -> Option<usize>
    requires head { AT + 2 ≤ HEAD }
    requires small { HEAD ≤ 2 ^ 16 }

    ensures size { MatchOption result
        (IsPartial HEAD AT octets.now × (length octets.now < HEAD + (2 ^ 16 - 1)))
        (λ n. StartsWith HEAD AT octets.now n) }
{
    if octets.len() < HEAD {
        return None;
    }
    let size = HEAD + usize::from(octets[AT]) * 256 + usize::from(octets[AT + 1]);
    if size <= octets.len() {
        Some(size)
    } else {
        None
    }
}
