//! The law of made files, the contract of a function with nothing in its body.
ghost use Rattle.conf_make.specs.Laws.{LawOfMadeFiles};

/// What `make` writes is a conference file, with as many lanes and ending with its last entry.
pub fn made_files_are_conferences()
    ensures { LawOfMadeFiles }
{}
