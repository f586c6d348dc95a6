// What holds of both rules of the auto-index locations.
ghost use Rattle.nova_memory.specs.Laws.{RulesAgree};

/// The law that indirect references which pass no auto-index location, 20 to 37 (octal), come to the same by both
/// rules, and leave memory as it is.
pub fn rules_agree()
    ensures { RulesAgree }
{}
