ghost use Rattle.nova_machine.specs.Laws.{RunSplits, RunTakesTime};
ghost use Rattle.machine_laws.specs.SameRun.{SameStateSameRun};
ghost use Rattle.machine_laws.specs.ServiceLaws.{ServesWhileDue};
ghost use Rattle.nova_machine.specs.StopCauses.{StopIoeHasItsName};
ghost use Rattle.nova_machine.specs.StopLaws.{TurnStops};
ghost use Rattle.machine_laws.specs.ValidLaws.{RunsStayValid};
ghost use Rattle.machine_laws.specs.WordLaws.{WordsReadBack};
ghost use Rattle.nova_machine.specs.Looks.{LooksChangeNothing};

/// The law that a run of n + k is a run of n and then a run of k, with what the first made in front, where only the
/// count or the end of time ended the first. Another stop within the first n ends the whole run.
pub fn runs_split()
    ensures { RunSplits }
{}

/// The law that time grows by the instructions that a run has executed, at most its count; that HOLD stays where none
/// was; and that no run changes how many words the memory has, the switch register, or STOP_DEV.
pub fn runs_take_time()
    ensures { RunTakesTime }
{}

/// The law that each stop of a turn comes exactly where its cause is given, and what stands after it.
pub fn turns_stop()
    ensures { TurnStops }
{}

/// The law that the register by which a unit that can have a file stops a run is STOP_IOE.
pub fn stop_ioe_has_its_name()
    ensures { StopIoeHasItsName }
{}

/// The law that a turn serves while an event is due, the first one first, and that this ends: a service brings no event
/// that is due in the same turn.
pub fn units_are_served_while_due()
    ensures { ServesWhileDue }
{}

/// The law that turns, and runs, from the same state do the same: they end by the same stop in the same state, and
/// print the same, where neither meets a failed call on a file or a refused byte.
pub fn same_state_same_run()
    ensures { SameStateSameRun }
{}

/// The law of what every state is that a run works on: a new machine is valid, and a turn and a run go from a valid
/// state to valid ones, also where something comes in between; no run goes past the end of time; and the disk's copy is
/// that of its file where nothing is to be written back, as long as nothing else changes that file.
pub fn runs_stay_valid()
    ensures { RunsStayValid }
{}

/// The law that words of memory which are written as a sector or as a block of a tape are read back from there, at
/// each address where there is memory, and that no other word changes.
pub fn words_read_back()
    ensures { WordsReadBack }
{}

/// The law that a look of the console's keyboard for which no key comes asks for the keyboard's event again, and
/// changes nothing else.
pub fn looks_change_nothing()
    ensures { LooksChangeNothing }
{}
