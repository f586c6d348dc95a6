use std::marker::Model;
use unit_trait::UnitName;

/// A unit that waits, and the instructions that remain until its event is due.
#[derive(Clone, Copy)]
pub(crate) struct Waiting {
    pub(crate) unit: UnitName,
    pub(crate) remaining: u32,
}

impl Model for Waiting {
    ghost use Rattle.event_queue.specs.EventList.{Event};

    ghost Value = { Event };

    ghost view = { λ e. record { unit = e.unit; remaining = e.remaining } };

    ghost inverse = { λ e. record { unit = e.unit; remaining = e.remaining } };
}
