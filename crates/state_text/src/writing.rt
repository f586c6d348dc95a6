ghost use Rattle.std.specs.Prelude.{◌≡◌, ◌++◌, OnOk, IfOk, length};
ghost use Rattle.saved_session.specs.Parts.{state_in};
ghost use Rattle.saved_session.specs.Valid.{Fits};
ghost use Rattle.byte_layouts.specs.Layout.{text as text_of, Fits as FitsIn};
ghost use Rattle.state_text.specs.Rows.{this_version, tables_in, table_rows, behind_in, rows_behind, memory_in, memory_rows, state_fields, state_rows};
ghost use Rattle.state_text.specs.Text.{body, text};

use crate::file_formats::FileFormat;
use crate::machine_formats::{EventFormat, UnitFormat, VERSION, WordFormat, write_cpu};
use crate::port_formats::write_ports;
use crate::watch_formats::{BreakFormat, ExpectFormat, SendFormat, TailFormat};
use byte_layouts::{Known, Writes, put_u16, write_list, write_plain};
use saved_session::Saved;
use sha2::{Digest, Sha256};
use std::alloc::{AllocError, Global};

// What a run watches.
fn write_tables(saved: &Saved, known: Known, out: &mut Vec<u8>) -> Result<(), AllocError>
    requires { FitsIn table_rows (tables_in (state_in saved.now).watch) }
    ensures { OnOk result (out.new.items ≡ out.old.items ++ text_of table_rows (tables_in (state_in saved.now).watch)) }
{
    write_list::<BreakFormat>(&saved.breaks, known, out)?;
    write_list::<ExpectFormat>(&saved.expects, known, out)?;
    TailFormat::write(&saved.tail, known, out)?;
    write_list::<SendFormat>(&saved.sends, known, out)
}

// What stands behind the units.
#[tactic(auto, unfolding(crate::specs::Rows::ports_layout))]
fn write_behind(saved: &Saved, out: &mut Vec<u8>) -> Result<(), AllocError>
    requires { FitsIn (rows_behind this_version (length (state_in saved.now).machine.units)) (behind_in (state_in saved.now)) }
    ensures { OnOk result (out.new.items ≡ out.old.items
        ++ text_of (rows_behind this_version (length (state_in saved.now).machine.units)) (behind_in (state_in saved.now))) }
{
    let known = Known {
        version: VERSION,
        count: saved.units.len(),
    };
    write_list::<EventFormat>(&saved.agenda, known, out)?;
    write_list::<FileFormat>(&saved.attachments, known, out)?;
    write_ports(&saved.ports, out)?;
    write_tables(saved, known, out)
}

// The processor and the words.
fn write_memory(saved: &Saved, out: &mut Vec<u8>) -> Result<(), AllocError>
    ensures { OnOk result (out.new.items ≡ out.old.items ++ text_of (memory_rows this_version) (memory_in (state_in saved.now).machine)) }
{
    write_cpu(&saved.cpu, out)?;
    write_plain::<WordFormat>(&saved.words, Known::nothing(), out)
}

// All rows.
#[tactic(auto, unfolding(crate::specs::Text::body, crate::specs::Rows::state_layout))]
fn write_rows(saved: &Saved, out: &mut Vec<u8>) -> Result<(), AllocError>
    requires { FitsIn state_rows (state_fields (this_version, state_in saved.now)) }
    ensures { OnOk result (out.new.items ≡ out.old.items ++ body this_version (state_in saved.now)) }
{
    out.extend_from_slice(b"NOVASTAT")?;
    put_u16(out, VERSION)?;
    write_memory(saved, out)?;
    write_list::<UnitFormat>(&saved.units, Known::nothing(), out)?;
    write_behind(saved, out)
}

/// Writes a saved session as a state file. Nothing but want of memory can refuse it.
#[tactic(auto, unfolding(crate::specs::Text::text_in))]
pub fn write_state(alloc: Global, saved: &Saved) -> Result<Vec<u8>, AllocError>
    requires { Fits (state_in saved.now) }
    ensures { IfOk result (λ v. v.items ≡ text (state_in saved.now)) }
{
    let mut out = Vec::new(alloc);
    write_rows(saved, &mut out)?;
    let digest = Sha256::digest(out.as_slice());
    out.extend_from_slice(&digest)?;
    Ok(out)
}
