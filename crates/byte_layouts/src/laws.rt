// The law of layouts.
ghost use Rattle.byte_layouts.specs.declared.known.Known.{Known};
ghost use Rattle.byte_layouts.specs.Whole.{TextsAreRead};

use crate::part::Part;

/// The law of each layout that a part has: a value's text is read as it, and nothing else is; what bytes say has them
/// as its text; too few of them are cut short, and any behind them are at fault; and no text is that of two values.
pub fn texts_are_read<P: Part>()
    ensures { (known : Known) → TextsAreRead (P.layout known) }
{}
