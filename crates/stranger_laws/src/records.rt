ghost use Rattle.segment_laws.specs.One.{IsOneSegment, without_refused};
ghost use Rattle.spec_record.specs.Recording.{Recording, early_of, file_of, heard};
ghost use Rattle.std.specs.Prelude.{◌≡◌, List, ℕ};
ghost use Rattle.stranger_laws.specs.Strangers.{accepted_records};

/// The packets of the records that are accepted are the accepted packets, in any list of records.
pub fn accepted_records_are_accepted_packets()
    ensures { (r : Recording) (records : List (List ℕ))
        → heard r (accepted_records r records) ≡ without_refused r.rules (heard r records) }
{}

/// Where no packet but the first begins a segment, the records that are accepted packets alone give
/// the file of all records, and have the same of it out early. A record that is no RTP packet, of
/// another payload type, with a payload that is refused, of no octet, or a packet that is refused
/// changes no octet of it.
pub fn strangers_change_no_file()
    ensures file { (r : Recording) (records : List (List ℕ))
        → IsOneSegment r.rules (heard r records)
        → file_of r (accepted_records r records) ≡ file_of r records }
    ensures early { (r : Recording) (records : List (List ℕ))
        → IsOneSegment r.rules (heard r records)
        → early_of r (accepted_records r records) ≡ early_of r records }
{}
