//! Laws of what opens questions.

ghost use Rattle.unlock_audit.specs.laws.Sound.{FoundAgainOpens, FoundOpens, WrittenOpens};
ghost use Rattle.unlock_audit.specs.laws.Anew.{OpensAnew};
ghost use Rattle.unlock_audit.specs.laws.Never.{NeverOpens};

/// What is told to open a question was run: its commands were answered with OK, one after the other, and then `why` was.
pub fn what_opens_was_run()
    ensures found { FoundOpens }
    ensures again { FoundAgainOpens }
    ensures written { WrittenOpens }
{}

/// A new run over some stores is an opening over their image.
pub fn a_new_run_is_an_opening()
    ensures { OpensAnew }
{}

/// What is told to open no question by any command forbids the change whatever the stores hold, in this run and in each new one.
pub fn what_never_opens_always_forbids()
    ensures { NeverOpens }
{}
