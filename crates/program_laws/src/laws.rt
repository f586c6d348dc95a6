ghost use Rattle.program_laws.specs.Laws.{MoreRoomSameEnd, TakesFirstPart, WholeWithoutFaults};
ghost use Rattle.program_laws.specs.Resumption.{RestoredProgramsGoOn};
ghost use Rattle.program_laws.specs.Valid.{ProgramStaysValid};
ghost use Rattle.program_laws.specs.Told.{ToldIsEnough};
ghost use Rattle.program_laws.specs.WorkloadUse.{WorkloadUsesNothing};

/// The law that a console that takes more comes to the same end, where none of its bytes was refused.
pub fn more_room_same_end()
    ensures { MoreRoomSameEnd }
{}

/// The law that what the console took is a first part of what the program prints where nothing fails.
pub fn console_takes_first_part()
    ensures { TakesFirstPart }
{}

/// The law that without a failing call the outcome is that of the whole trace.
pub fn whole_without_faults()
    ensures { WholeWithoutFaults }
{}

/// The law that, with words, an input and files of bytes, the session that the program begins is what every session is,
/// and what the program leaves is in range, wherever it ends.
pub fn program_stays_valid()
    ensures { ProgramStaysValid }
{}

/// The law that a program that restores a saved session goes on as that session, and ends as the program does that
/// saved it and went on, where both have units of the same kinds and the same outside from there on, and no call on a
/// file, the console or the input fails.
pub fn restored_programs_go_on()
    ensures { RestoredProgramsGoOn }
{}

/// The law that files that tell their contents, and lines that tell what comes on them, tell all that any program uses
/// of them.
pub fn told_is_enough()
    ensures { ToldIsEnough }
{}

/// The law that the program of `-g` uses no file and no line, whatever these tell, but for the keys file, where the
/// words name one: all that `simulate` claims of it where files and lines tell what is used, stands there.
pub fn workload_uses_nothing()
    ensures { WorkloadUsesNothing }
{}
