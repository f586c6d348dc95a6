ghost use Rattle.script_text.specs.Laws.{LinesMakeTheScript, LinesFollow, LabelIsFirst, PlainLinesStay};
ghost use Rattle.script_text.specs.Laws.{OthersDoNotMatter};

/// The law that the lines of a script as they stand in it make up the script, and that they are its first line with its
/// LF and the lines of what follows.
pub fn lines_make_the_script()
    ensures whole { LinesMakeTheScript }
    ensures first { LinesFollow }
{}

/// The law that the place of a label is that of the first line with it, and that there is none only where no line has
/// it.
pub fn labels_are_the_first()
    ensures { LabelIsFirst }
{}

/// The law that a line without a `%` is filled to itself.
pub fn plain_lines_stay()
    ensures { PlainLinesStay }
{}

/// The law that only those arguments matter of which a `%` with their digit stands in the line.
pub fn other_arguments_do_not_matter()
    ensures { OthersDoNotMatter }
{}
