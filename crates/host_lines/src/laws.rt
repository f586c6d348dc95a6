ghost use Rattle.std.specs.Prelude.{IsTrue};
ghost use Rattle.host_lines.specs.Laws.{RecordsAnswer};
ghost use Rattle.host_lines.specs.State.{TellsPeers};

use crate::lines::Lines;

/// The law that a call whose answer is put behind a record has given what was ahead, whatever the record comes to.
pub fn records_answer()
    ensures { RecordsAnswer }
{}

/// The law that where traffic is told, a connection that stands was accepted and has a caller, and nobody is behind any
/// other one, for all lines.
pub fn told_peers_stand<L: Lines>()
    ensures { IsTrue L.tells → (lines : L) → TellsPeers (L.state lines).told (L.state lines) }
{}
