//! A law of the words.

ghost use Rattle.command_words.specs.Asks.{OneJob};

/// Words ask for at most one job. `read_words` finds it.
pub fn one_job()
    ensures { OneJob }
{}
