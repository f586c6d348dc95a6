ghost use Rattle.plain_commands.specs.QuotedText.{QuotedTextsReadBack};
ghost use Rattle.command_laws.specs.PassedBreaks.{BreaksArePassedOnce};
ghost use Rattle.command_laws.specs.Resumption.{RestorePutsBack};
ghost use Rattle.command_laws.specs.SameCommand.{SameStateSameCommand};
ghost use Rattle.command_laws.specs.Valid.{CommandsKeepStates};
ghost use Rattle.command_laws.specs.Laws.{RefusalsChangeNothing, ResetsLeaveTheProgram, SetCpuLeavesTheRest};

/// The law that a command that is refused prints nothing and leaves the machine, the breaks, the expects, the sent
/// bytes and the keys as they were, and all files too, but for ATTACH, DETACH, EXIT, SAVE and DUMP where a call on a
/// file failed: they may have changed that file before, and SAVE may have written back what the disk holds.
pub fn refusals_change_nothing()
    ensures { RefusalsChangeNothing }
{}

/// The law that RESET, and RUN before its run, leave the processor with its memory, the switches, STOP_DEV, the time,
/// the keys that were taken and the attached files as they were, but for the PC that RUN may give, and that what waits
/// then are the events that the resets of the units wish.
pub fn resets_leave_the_program()
    ensures { ResetsLeaveTheProgram }
{}

/// The law that SET CPU leaves the words below the size that it gives, makes all others 0, and changes nothing else of
/// the machine.
pub fn set_cpu_leaves_the_rest()
    ensures { SetCpuLeavesTheRest }
{}

/// The law that what SHOW EXPECT prints of a text reads as that text.
pub fn quoted_texts_read_back()
    ensures { QuotedTextsReadBack }
{}

/// The law of what every state is that commands work on: a command leaves such a state, each of its texts comes in one,
/// and a script that it has read is of bytes. What the disk holds of its file is what is in it, where nothing is to be
/// written back, as long as the disk alone has changed that file, or it has the bytes that it had and a SAVE had
/// nothing to write back.
pub fn commands_keep_states()
    ensures { CommandsKeepStates }
{}

/// The law that calls that do one command on the same state come to the same answer and state, and print and send the
/// same, where no call on a file fails, the console refuses no byte and memory suffices.
pub fn same_state_same_command()
    ensures { SameStateSameCommand }
{}

/// The law of what RESTORE puts in place, where it is done and its file has the text of what was saved of a session, in
/// either version, and the present machine has units of the same kinds: the machine, what is attached to it, the watch
/// tables and the lines are those of that session; the keys and the files are the present ones, and so is what is still
/// to come on lines, less one listening for each port. And a SAVE in which no call on a file fails leaves such a file.
pub fn restore_puts_back()
    ensures { RestorePutsBack }
{}

/// The law of what becomes of a break where a run is split: a run of n + k counts it and stops at it, and a run of k
/// behind one of n passes it once, in its first turn.
pub fn breaks_are_passed_once()
    ensures { BreaksArePassedOnce }
{}
