ghost use Rattle.telnet_lines.specs.Laws.{ReadBySequences, CutAnywhere};
ghost use Rattle.telnet_lines.specs.Account.{AccountsAddUp};
ghost use Rattle.telnet_lines.specs.Many.{LinesStandApart};

/// The law of what each sequence of RFC 854 gives.
pub fn data_are_read_by_sequences()
    ensures { ReadBySequences }
{}

/// The law that keys are the same wherever the bytes of a connection are cut.
pub fn keys_under_any_cutting()
    ensures { CutAnywhere }
{}

/// The law that on a connection the keys taken and waiting are those of all that was received, and that the bytes sent
/// and waiting are the opening and all that was accepted, coded.
pub fn accounts_add_up()
    ensures { AccountsAddUp }
{}

/// The law that a step for one of several lines changes what is seen of that line alone.
pub fn lines_stand_apart()
    ensures { LinesStandApart }
{}
