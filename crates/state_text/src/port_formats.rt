// How the ports of the terminal lines are read and written.
ghost use Rattle.std.specs.Prelude.{◌≡◌, ◌++◌, ◌&&◌, ◌||◌, ◌==◌, nat_le, nat_lt, OnOk};
ghost use Rattle.std.specs.Int.{w16};
ghost use Rattle.saved_session.specs.declared.saved.SavedPorts.{SavedPorts};
ghost use Rattle.saved_session.specs.Ranges.{has_multiplexer, is_among, is_multiplexer_port, is_console_port};
ghost use Rattle.byte_layouts.specs.Readers.{Reads, number, tested};
ghost use Rattle.byte_layouts.specs.Layout.{number_text, reading};
ghost use Rattle.state_text.specs.Rows.{multiplexer_row, console_row, ports_layout};

use byte_layouts::{Cursor, FieldFault, Format, Known, put_u16};
use saved_session::SavedPorts;
use std::alloc::{AllocError, Global};

/// How many units a session has whose machine has the multiplexer.
const UNITS: usize = 11;

/// How many lines the multiplexer has, each with a port of its own.
const LINES: u32 = 64;

/// The largest port that its first line can have.
const LAST_FIRST_PORT: u16 = 65472;

/// The ports.
pub struct PortsFormat;

// Whether a port is one of those of the multiplexer's lines, by the first of them.
fn is_among(first: u16, port: u16) -> bool
    ensures { result ≡ is_among first port }
{
    first <= port && u32::from(port) < u32::from(first) + LINES
}

// Whether the multiplexer's lines can have ports from that one on.
fn is_multiplexer_port(listed: bool, tti1: u16, first: u16) -> bool
    ensures { result ≡ is_multiplexer_port listed tti1 first }
{
    first == 0 || (listed && first <= LAST_FIRST_PORT && !is_among(first, tti1))
}

// Whether the console's line can have a port.
fn is_console_port(tti1: u16, first: u16, port: u16) -> bool
    ensures { result ≡ is_console_port tti1 first port }
{
    port == 0 || (port != tti1 && (first == 0 || !is_among(first, port)))
}

// The first port of the multiplexer's lines, where the version has it.
#[tactic(auto, using(crate::proofs::VersionLaws::in_first, crate::proofs::VersionLaws::in_later))]
fn multiplexer_port(cursor: &mut Cursor, known: Known, tti1: u16) -> Result<u16, FieldFault>
    ensures { Reads (λ x. x) result cursor.new (reading (multiplexer_row known.version (has_multiplexer known.count) tti1) cursor.old) }
{
    if known.version == 1 {
        return Ok(0);
    }
    listed_port(cursor, known.count == UNITS, tti1)
}

// The first port of the multiplexer's lines.
fn listed_port(cursor: &mut Cursor, listed: bool, tti1: u16) -> Result<u16, FieldFault>
    ensures { Reads (λ x. x) result cursor.new (tested (is_multiplexer_port listed tti1) (number w16) cursor.old) }
{
    let place = cursor.place();
    let port = cursor.u16()?;
    if !is_multiplexer_port(listed, tti1, port) {
        return Err(FieldFault::BadField(place));
    }
    Ok(port)
}

// The console's port, where the version has it.
#[tactic(auto, using(crate::proofs::VersionLaws::in_first, crate::proofs::VersionLaws::in_later))]
fn console_port(cursor: &mut Cursor, version: u16, tti1: u16, qty: u16) -> Result<u16, FieldFault>
    ensures { Reads (λ x. x) result cursor.new (reading (console_row version tti1 qty) cursor.old) }
{
    if version == 1 {
        return Ok(0);
    }
    free_port(cursor, tti1, qty)
}

// The console's port.
fn free_port(cursor: &mut Cursor, tti1: u16, qty: u16) -> Result<u16, FieldFault>
    ensures { Reads (λ x. x) result cursor.new (tested (is_console_port tti1 qty) (number w16) cursor.old) }
{
    let place = cursor.place();
    let port = cursor.u16()?;
    if !is_console_port(tti1, qty, port) {
        return Err(FieldFault::BadField(place));
    }
    Ok(port)
}

impl Format for PortsFormat {
    type Item = SavedPorts;

    ghost Value = { SavedPorts };

    ghost view = { λ p. p };

    ghost layout = { λ known before. ports_layout known.version (has_multiplexer known.count) };

    #[tactic(auto, unfolding(crate::specs::Rows::ports_layout))]
    fn read(
        _alloc: Global,
        cursor: &mut Cursor,
        known: Known,
        _before: &[SavedPorts],
    ) -> Result<SavedPorts, FieldFault> {
        let tti1 = cursor.u16()?;
        let qty = multiplexer_port(cursor, known, tti1)?;
        let console = console_port(cursor, known.version, tti1, qty)?;
        Ok(SavedPorts { tti1, qty, console })
    }
}

/// Writes the ports.
pub fn write_ports(ports: &SavedPorts, out: &mut Vec<u8>) -> Result<(), AllocError>
    ensures { OnOk result (out.new.items ≡ out.old.items ++ (number_text w16 ports.now.tti1 ++ (number_text w16 ports.now.qty ++ number_text w16 ports.now.console))) }
{
    put_u16(out, ports.tti1)?;
    put_u16(out, ports.qty)?;
    put_u16(out, ports.console)
}
