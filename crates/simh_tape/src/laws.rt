ghost use Rattle.simh_tape.specs.Laws.{BlocksAreReadBack, ItemsReadTheSame, MarksLeadBack, SpacingLeadsBack};

/// The law that an item which is read forward from one place to another is read backwards from that other place to the
/// first.
pub fn items_read_the_same()
    ensures { ItemsReadTheSame }
{}

/// The law that a block which is written is read back, forward from its place and backwards from its end, as the same
/// bytes and without an error flag.
pub fn blocks_are_read_back()
    ensures { BlocksAreReadBack }
{}

/// The law that spacing forward over some blocks, and back over as many, ends where it began.
pub fn spacing_leads_back()
    ensures { SpacingLeadsBack }
{}

/// The law that spacing forward over a tape mark, and back over it, ends where it began.
pub fn marks_lead_back()
    ensures { MarksLeadBack }
{}
