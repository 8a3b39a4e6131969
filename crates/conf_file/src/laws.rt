//! Laws of conference files, each the contract of a function with nothing in its body.
ghost use Rattle.conf_file.specs.File.{LawOfFileFronts, LawOfNextAnswers, LawOfOneReading, LawOfReading};

/// What a reader gives, call by call, is what its source says as a conference file.
pub fn files_are_read()
    ensures { LawOfReading }
{}

/// A file says one thing at most: one list of entries and one end.
pub fn one_reading()
    ensures { LawOfOneReading }
{}

/// What the front of a file decides does not change with what follows it.
pub fn fronts_decide()
    ensures { LawOfFileFronts }
{}

/// What `next` answers is fixed where its source tells its octets and does not fail.
pub fn answers_of_a_reader()
    ensures { LawOfNextAnswers }
{}
