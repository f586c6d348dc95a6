// The parts of a saved session, each of which is read or taken by itself.
ghost use Rattle.std.specs.Prelude.{◌≡◌, map};
ghost use Rattle.saved_session.specs.Fields.{machine_in, watch_in};
ghost use Rattle.saved_session.specs.Parts.{file_in, state_in};

use crate::saved::{
    Saved, SavedBreak, SavedCpu, SavedEvent, SavedExpect, SavedFile, SavedPorts, SavedSend,
    SavedUnit,
};

/// The machine.
#[derive(Drop)]
pub struct MachineFields {
    pub cpu: SavedCpu,
    pub words: Vec<u16>,
    pub units: Vec<SavedUnit>,
    pub agenda: Vec<SavedEvent>,
}

/// What a run watches.
#[derive(Drop)]
pub struct WatchFields {
    pub breaks: Vec<SavedBreak>,
    pub expects: Vec<SavedExpect>,
    pub tail: Vec<u8>,
    pub sends: Vec<SavedSend>,
}

/// All parts of a saved session, as one value.
pub fn joined(
    machine: MachineFields,
    attachments: Vec<SavedFile>,
    ports: SavedPorts,
    watch: WatchFields,
) -> Saved
    ensures { state_in result ≡ record { machine = machine_in machine; files = map file_in attachments.items; ports = ports; watch = watch_in watch } }
{
    Saved {
        cpu: machine.cpu,
        words: machine.words,
        units: machine.units,
        agenda: machine.agenda,
        attachments,
        ports,
        breaks: watch.breaks,
        expects: watch.expects,
        tail: watch.tail,
        sends: watch.sends,
    }
}
