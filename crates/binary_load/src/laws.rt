ghost use Rattle.binary_load.specs.Laws.{DumpsReadBack, TapesAreRead, TapesHaveForms, RunsReadBack, LastStoresStay};

/// The law that a dump says exactly the dumped words at their addresses, and the start, to every memory that has these
/// addresses.
pub fn dumps_read_back()
    ensures { DumpsReadBack }
{}

/// The law that what has the form of a tape is read as that tape says.
pub fn tapes_are_read()
    ensures { TapesAreRead }
{}

/// The law that bytes which are read as a tape have its form, and that bytes are read with a fault exactly where it
/// stands in them as the forms of tapes say.
pub fn tapes_have_forms()
    ensures { TapesHaveForms }
{}

/// The law that a tape of runs says exactly their words at their addresses, in their order, and the start or that there
/// is none.
pub fn runs_read_back()
    ensures { RunsReadBack }
{}

/// The law that after stores each word of a memory is that of the last store to its address, or as it was.
pub fn last_stores_stay()
    ensures { LastStoresStay }
{}
