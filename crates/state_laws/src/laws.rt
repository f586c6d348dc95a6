ghost use Rattle.state_laws.specs.Laws.{SavedIsValid, SavingPutsBack};
ghost use Rattle.state_laws.specs.PutBackValid.{PutBackIsValid};

/// The law that a session that is put back from what was saved of it is that session, but for its keys and for what is
/// still to come on its lines.
pub fn saving_puts_back()
    ensures { SavingPutsBack }
{}

/// The law that what is saved of a session of a standard machine is valid, so that it has a text, which is read and
/// puts the session back.
pub fn saved_is_valid()
    ensures { SavedIsValid }
{}

/// The law that a session into which a valid state was put back is within its limits.
pub fn put_back_is_valid()
    ensures { PutBackIsValid }
{}
