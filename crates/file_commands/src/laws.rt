ghost use Rattle.file_commands.specs.Laws.{CommandsTakeTheirNotes, CountsAddUp};

/// The law that a command is handed exactly the notes that have its number, where the next one has a greater number;
/// and that those are then gone, and the others left.
pub fn commands_take_their_notes()
    ensures { CommandsTakeTheirNotes }
{}

/// The law that notes which are at most as many as the counts have risen in each of two spans are so over both.
pub fn counts_add_up()
    ensures { CountsAddUp }
{}
