ghost use Rattle.event_queue.specs.Agenda.{AgendaStandsAgain};
ghost use Rattle.event_queue.specs.Laws.{RemainingTimesAreDueTimes, ListsStaySound};

/// The law that the remaining times are those of a list of absolute times: what is done to the one is done to the
/// other, and a tick leaves the times at which the events are due.
pub fn remaining_times_are_due_times()
    ensures { RemainingTimesAreDueTimes }
{}

/// The law that whatever is done to a sound list leaves one.
pub fn lists_stay_sound()
    ensures { ListsStaySound }
{}

/// The law that events which are asked for again in their order, where none waits, stand as they stood, those of one
/// time too.
pub fn agenda_stands_again()
    ensures { AgendaStandsAgain }
{}
