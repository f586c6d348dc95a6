// What stands behind the units, which tell how many they are: the events, the attached files, the ports, and what a run
// watches.
ghost use Rattle.std.specs.Prelude.{◌≡◌, true};
ghost use Rattle.byte_layouts.specs.Parts.{GoesOn};
ghost use Rattle.state_text.specs.Rows.{Behind, rows_behind};

use crate::file_formats::FileFormat;
use crate::machine_formats::EventFormat;
use crate::port_formats::PortsFormat;
use crate::watch_formats::{BreakFormat, ExpectFormat, SendFormat, TailFormat};
use byte_layouts::{Both, Elements, FieldFault, Known, One, Part, Pending, Three};
use saved_session::{SavedBreak, SavedEvent, SavedExpect, SavedFile, SavedPorts, SavedSend};
use std::alloc::Global;

type Tables = Both<
    Both<Elements<BreakFormat>, Elements<ExpectFormat>>,
    Both<One<TailFormat>, Elements<SendFormat>>,
>;

type Parts = Three<Elements<EventFormat>, Both<Elements<FileFormat>, One<PortsFormat>>, Tables>;

/// What was read of what a run watches.
pub type FoundTables = (
    (Vec<SavedBreak>, Vec<SavedExpect>),
    (Vec<u8>, Vec<SavedSend>),
);

/// What was read behind the units.
pub type FoundBehind = (Vec<SavedEvent>, ((Vec<SavedFile>, SavedPorts), FoundTables));

/// The parts behind the units, in their order.
#[derive(Drop)]
pub struct BehindUnits {
    parts: Parts,
}

impl Part for BehindUnits {
    type Output = FoundBehind;

    ghost Value = { Behind };

    ghost view = { ⟦<Parts as Part>⟧.view };

    ghost layout = { λ known. rows_behind known.version known.count };

    ghost rest = { λ known s. ⟦<Parts as Part>⟧.rest known s.parts };

    ghost is_over = { λ s. ⟦<Parts as Part>⟧.is_over s.parts };

    fn new(alloc: Global) -> BehindUnits {
        BehindUnits {
            parts: Parts::new(alloc),
        }
    }

    fn go_on(
        &mut self,
        alloc: Global,
        known: Known,
        pending: &mut Pending,
    ) -> Result<(), FieldFault> {
        self.parts.go_on(alloc, known, pending)
    }

    fn finish(self) -> FoundBehind {
        self.parts.finish()
    }
}
