ghost use Rattle.unit_list.specs.Laws.{CallsReachOneUnit, UnitsStayInRange};
ghost use Rattle.unit_list.specs.Whole.{UnitsAreWhole};

/// The law that a call moves one unit, and leaves the kinds of all.
pub fn calls_reach_one_unit()
    ensures { CallsReachOneUnit }
{}

/// The law that the registers of a unit are in their ranges at first, and behind each call that it can be asked; that
/// what it says is a word of 16 bits; and that it wishes for an event of one of its units, later than now.
pub fn units_stay_in_range()
    ensures { UnitsStayInRange }
{}

/// The law that units whose registers are read, kind by kind, or set, are whole: what is read of them is they
/// themselves, and units that are set are those that were wanted.
pub fn units_are_whole()
    ensures { UnitsAreWhole }
{}
