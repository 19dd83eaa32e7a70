ghost use Rattle.segment_laws.specs.One.{IsOneSegment};
ghost use Rattle.spec_record.specs.Recording.{Recording, early_of, file_of, heard};
ghost use Rattle.spec_run.specs.Meanings.{IsPrefix};
ghost use Rattle.spec_session.specs.Release as session;
ghost use Rattle.spec_store.specs.StorageFile.{storage_file};
ghost use Rattle.std.specs.Prelude.{◌++◌, ◌≡◌, List, ℕ};

/// What is written while more records may come stays, also where new segments begin: it is the
/// front of what is written while still more come, and of the file of every longer list of records.
pub fn what_is_written_stays()
    ensures early { (r : Recording) (records more : List (List ℕ))
        → IsPrefix (early_of r records) (early_of r (records ++ more)) }
    ensures whole { (r : Recording) (records more : List (List ℕ))
        → IsPrefix (early_of r records) (file_of r (records ++ more)) }
{}

/// A log in which no packet but the first begins a segment gives the same file, and has the same of
/// it out early, as without segments.
pub fn one_segment_is_recorded_as_a_session()
    ensures file { (r : Recording) (records : List (List ℕ))
        → IsOneSegment r.rules (heard r records)
        → file_of r records ≡ storage_file r.rules.codec r.rules.channels
        (session.released r.rules (heard r records)) }
    ensures early { (r : Recording) (records : List (List ℕ))
        → IsOneSegment r.rules (heard r records)
        → early_of r records ≡ storage_file r.rules.codec r.rules.channels
        (session.gone_out r.rules (heard r records)) }
{}
