ghost use Rattle.unit_trait.specs.Laws.{CodesTellKinds, RegistersHaveTheirNames};

/// The law that the code of a kind tells it from every other one.
pub fn codes_tell_kinds()
    ensures { CodesTellKinds }
{}

/// The law that the registers that others than their device look at, BUSY, DONE and POS, are those of these names.
pub fn registers_have_their_names()
    ensures { RegistersHaveTheirNames }
{}
