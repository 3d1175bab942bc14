//! Laws over traces. Each is the contract of a function that does nothing.
ghost use Rattle.index_seq.specs.Laws.{TracesBeginInTheirYear, TracesHaveOneResult};

/// The series of a trace is the record begun in its year and wrapped round.
pub fn traces_begin_in_their_year()
    ensures { TracesBeginInTheirYear }
{}

/// The yearly deliveries are the same whichever histories are taken as the traces.
pub fn traces_have_one_result()
    ensures { TracesHaveOneResult }
{}
