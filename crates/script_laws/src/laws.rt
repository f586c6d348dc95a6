ghost use Rattle.script_laws.specs.Valid.{SessionsStayValid};
ghost use Rattle.script_laws.specs.Core.{SameCoreSameFuture, CutBehindTexts};
ghost use Rattle.script_laws.specs.Resumption.{RestoredGoesOn, SameCoreSameFinish, SavedAndRestoredGoOnAlike};
ghost use Rattle.script_laws.specs.Laws.{ActionsAreForgotten, EndedScriptsDoNotMatter, LineByLine, LinesAreConsumed};

/// The law that a session goes line by line, to its own end and not to that of the bound in its definition.
pub fn session_goes_line_by_line()
    ensures { LineByLine }
{}

/// The law that after so many lines that only go on, what was consumed is those lines, and the budget fell by the sum
/// of their costs.
pub fn lines_are_consumed()
    ensures { LinesAreConsumed }
{}

/// The law that sessions of the same core, in which no call on a file fails, have the same future.
pub fn same_core_same_future()
    ensures { SameCoreSameFuture }
{}

/// The law that a session is cut behind each of its texts: what follows is what the session there does.
pub fn session_is_cut_behind_texts()
    ensures { CutBehindTexts }
{}

/// The law that between two texts no actions of a stop are kept: those of the last one wait as texts, or were refused.
pub fn actions_are_forgotten()
    ensures { ActionsAreForgotten }
{}

/// The law that where no action waits, nothing depends on the innermost scripts whose last line was done.
pub fn ended_scripts_do_not_matter()
    ensures { EndedScriptsDoNotMatter }
{}

/// The law of what every session is: behind a text it still is, what is made comes in states of its kind, and so does
/// the end. What the disk holds of its file is what is in it, where nothing is to be written back, as long as the
/// session goes on, which it does only where nothing else has changed that file.
pub fn sessions_stay_valid()
    ensures { SessionsStayValid }
{}

/// The law that calls that perform sessions of one core come to the same finish and state, read the same, and print and
/// send the same, where no call on a file fails, the console refuses no byte, no read fails and memory suffices.
pub fn sessions_end_alike()
    ensures { SameCoreSameFinish }
{}

/// The law that a session in which a saved one was restored goes on as that one, with the rest of the input, the
/// budget, the limit of a run, the prompt, the keys and what is to come on lines as they are then.
pub fn restored_session_goes_on()
    ensures { RestoredGoesOn }
{}

/// The law that a session that was saved and goes on, and one into which it is restored with the same outside, do the
/// same from there on.
pub fn saved_and_restored_go_on_alike()
    ensures { SavedAndRestoredGoOnAlike }
{}
