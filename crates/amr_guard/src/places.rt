ghost use Rattle.std.specs.Prelude.{◌≡◌, ℕ, ◌≤◌, ◌<◌, min, nat_lt, nat_eq, length, sum, slice_index, slice_index_or};
ghost use Rattle.std.specs.List.{All, sum_by, count_by};
ghost use Rattle.spec_payload.specs.RobustOrder.{Place, place as pair, robust_order};
ghost use Rattle.amr_guard.specs.Sorting.{AreLengths, IsOctet, robust_place};
ghost use Rattle.amr_guard.specs.Walking.{AreNext};

/// The place in the robust order, counted from 0, of octet `octet` of frame `frame`, where the
/// frames have `lengths` octets (RFC 4867, 4.4.4). It looks at each length.
pub fn sorted_place(lengths: &[u8], frame: usize, octet: usize) -> usize
    requires lengths { AreLengths lengths.now }
    requires exists { IsOctet lengths.now frame octet }
    ensures place { result ≡ robust_place lengths.now frame octet }
    ensures stands { (d : Place)
        → slice_index_or (robust_order lengths.now) result d ≡ pair octet frame }
    ensures within { result < sum lengths.now }
{
    octets_below(lengths, octet) + frames_having(&lengths[..frame], octet)
}

/// How many octets of all frames have a number below `octet` in theirs.
fn octets_below(lengths: &[u8], octet: usize) -> usize
    requires frames { length lengths.now ≤ 384 }
    ensures { result ≡ sum_by (λ l. min l octet) lengths.now }
{
    let mut total = 0;
    for length in lengths {
        total += (*length as usize).min(octet);
    }
    total
}

/// How many frames have an octet `octet`.
fn frames_having(lengths: &[u8], octet: usize) -> usize
    ensures { result ≡ count_by (λ l. nat_lt octet l) lengths.now }
{
    let mut total = 0;
    for length in lengths {
        if *length as usize > octet {
            total += 1;
        }
    }
    total
}

/// For each octet number, the place in the robust order of the first octet with that number.
pub(crate) fn row_starts(lengths: &[u8]) -> [usize; 60]
    requires lengths { AreLengths lengths.now }
    ensures { AreNext lengths.now 0 result }
{
    let counts = counted(lengths);
    let mut frames = lengths.len() - counts[0];
    let mut start = 0;
    let mut starts = [0; 60];
    for octet in 0..60 {
        starts[octet] = start;
        start += frames;
        frames -= counts[octet + 1];
    }
    starts
}

/// How many frames have each length.
fn counted(lengths: &[u8]) -> [usize; 61]
    requires short { All (λ l. l ≤ 60) lengths.now }
    ensures { (k : ℕ) → k ≤ 60 → slice_index result k ≡ count_by (λ l. nat_eq l k) lengths.now }
{
    let mut counts = [0; 61];
    for length in lengths {
        counts[*length as usize] += 1;
    }
    counts
}
