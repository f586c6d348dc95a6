// How the machine is read and written: its processor, words, units and events.
ghost use Rattle.std.specs.Prelude.{◌≡◌, ◌<◌, ◌^◌, ◌++◌, ◌&&◌, OnOk, ℕ, List, [], length, map, nat_le, nat_lt, ◌==◌, refl};
ghost use Rattle.std.specs.List.{list_any};
ghost use Rattle.std.specs.Int.{w8, w16, w32};
ghost use Rattle.unit_trait.specs.declared.kind.Kind.{Kind};
ghost use Rattle.saved_session.specs.declared.saved.SavedCpu.{SavedCpu};
ghost use Rattle.saved_session.specs.declared.saved.SavedEvent.{SavedEvent};
ghost use Rattle.saved_session.specs.Parts.{UnitPart, unit_in};
ghost use Rattle.saved_session.specs.Ranges.{is_size, is_position, can_wait, comes_last, is_event_of, is_later, kind_at, register_count, holds_value};
ghost use Rattle.byte_layouts.specs.Readers.{Reads, number, tested, chain, with_last};
ghost use Rattle.byte_layouts.specs.Layout.{One, Two, Four, Any, Many, text, reading, Fits};
ghost use Rattle.state_text.specs.Rows.{this_version, start_layout, word_layout, word_count, register_rows, registers_in, switch_rows, switches_in, autobit_row, cpu_layout, register_layout, registers_layout, unit_layout, is_count_in, event_layout, few_events};

use byte_layouts::{
    Cursor, FieldFault, Format, Known, ListFormat, Measure, Plain, Tells, Writes, put_u8, put_u16,
    put_u32, put_u64, write_plain,
};
use saved_session::{SavedCpu, SavedEvent, SavedUnit, holds_value, kind_at, register_count};
use std::alloc::{AllocError, Global};
use unit_trait::{Kind, units_of};

/// How many units a session has whose machine has no multiplexer.
const UNITS: u8 = 10;

/// How many events wait at most.
const MOST_EVENTS: u16 = 81;

/// The version that is written, and the newest that is read.
pub const VERSION: u16 = 2;

/// The first bytes of every state file, and its version.
pub struct StartFormat;

impl Tells for StartFormat {
    type Item = u16;

    ghost Value = { ℕ };

    ghost view = { λ n. n };

    ghost layout = { λ known. start_layout };

    ghost tells = { λ known version. record { version = version; count = 0 } };

    fn read(_alloc: Global, cursor: &mut Cursor, _known: Known) -> Result<u16, FieldFault> {
        cursor.head(b"NOVASTAT")?;
        cursor.version_to(VERSION)
    }

    fn tell(_known: Known, version: &u16) -> Known {
        Known {
            version: *version,
            count: 0,
        }
    }
}

/// A word of 16 bits.
pub struct WordFormat;

impl Format for WordFormat {
    type Item = u16;

    ghost Value = { ℕ };

    ghost view = { λ n. n };

    ghost layout = { λ known before. word_layout };

    fn read(
        _alloc: Global,
        cursor: &mut Cursor,
        _known: Known,
        _before: &[u16],
    ) -> Result<u16, FieldFault> {
        cursor.u16()
    }
}

impl Writes for WordFormat {
    fn write(word: &u16, _known: Known, out: &mut Vec<u8>) -> Result<(), AllocError> {
        put_u16(out, *word)
    }

    ghost same_text = { λ known before x. refl };

    ghost same_fits = { λ known before x fits. fits };
}

impl Plain for WordFormat {
    ghost always_fits = { λ known before x. tt };
}

/// The processor, which tells how many words stand behind it.
pub struct CpuFormat;

// The size of memory in units of 1024 words.
fn size(cursor: &mut Cursor) -> Result<u8, FieldFault>
    ensures { Reads (λ x. x) result cursor.new (tested is_size (number w8) cursor.old) }
{
    let place = cursor.place();
    let k = cursor.u8()?;
    if k < 4 || k > 32 || k % 4 != 0 {
        return Err(FieldFault::BadField(place));
    }
    Ok(k)
}

// The four accumulators.
fn accumulators(cursor: &mut Cursor) -> Result<[u16; 4], FieldFault>
    ensures { Reads (λ x. x) result cursor.new (reading (Many 4 (λ before. word_layout)) cursor.old) }
{
    Ok([cursor.u16()?, cursor.u16()?, cursor.u16()?, cursor.u16()?])
}

// The flag of the auto-index rule.
#[tactic(auto, using(crate::proofs::VersionLaws::in_first, crate::proofs::VersionLaws::in_later))]
fn autobit(cursor: &mut Cursor, version: u16) -> Result<u8, FieldFault>
    ensures { Reads (λ x. x) result cursor.new (reading (autobit_row version) cursor.old) }
{
    if version == 1 {
        return Ok(0);
    }
    cursor.u8_to(1)
}

impl Measure for CpuFormat {
    type Item = SavedCpu;

    ghost Value = { SavedCpu };

    ghost view = { λ c. c };

    ghost layout = { λ known. cpu_layout known.version };

    ghost count = { word_count };

    #[tactic(auto, unfolding(crate::specs::Rows::cpu_layout))]
    fn read(_alloc: Global, cursor: &mut Cursor, known: Known) -> Result<SavedCpu, FieldFault> {
        Ok(SavedCpu {
            size_k: size(cursor)?,
            acs: accumulators(cursor)?,
            carry: cursor.u8_to(1)?,
            pc: cursor.u16_below(32768)?,
            on: cursor.u8_to(1)?,
            hold: cursor.u8_to(1)?,
            mask: cursor.u16()?,
            sr: cursor.u16()?,
            stop_dev: cursor.u8_to(1)?,
            autobit: autobit(cursor, known.version)?,
            time: cursor.u64_to(1 << 60)?,
            keys_taken: cursor.u64_to(65536)?,
        })
    }

    fn count(cpu: &SavedCpu) -> u32 {
        1024 * u32::from(cpu.size_k)
    }
}

// The size of memory, the accumulators, Carry and PC.
fn write_registers(cpu: &SavedCpu, out: &mut Vec<u8>) -> Result<(), AllocError>
    ensures { OnOk result (out.new.items ≡ out.old.items ++ text register_rows (registers_in cpu.now)) }
{
    put_u8(out, cpu.size_k)?;
    write_plain::<WordFormat>(&cpu.acs, Known::nothing(), out)?;
    put_u8(out, cpu.carry)?;
    put_u16(out, cpu.pc)
}

// Interrupts and switches.
fn write_switches(cpu: &SavedCpu, out: &mut Vec<u8>) -> Result<(), AllocError>
    ensures { OnOk result (out.new.items ≡ out.old.items ++ text switch_rows (switches_in cpu.now)) }
{
    put_u8(out, cpu.on)?;
    put_u8(out, cpu.hold)?;
    put_u16(out, cpu.mask)?;
    put_u16(out, cpu.sr)?;
    put_u8(out, cpu.stop_dev)
}

/// Writes the processor.
#[tactic(auto, unfolding(crate::specs::Rows::cpu_layout))]
pub fn write_cpu(cpu: &SavedCpu, out: &mut Vec<u8>) -> Result<(), AllocError>
    ensures { OnOk result (out.new.items ≡ out.old.items ++ text (cpu_layout this_version) cpu.now) }
{
    write_registers(cpu, out)?;
    write_switches(cpu, out)?;
    put_u8(out, cpu.autobit)?;
    put_u64(out, cpu.time)?;
    put_u64(out, cpu.keys_taken)
}

/// A unit and its registers.
pub struct UnitFormat;

// A number that can only be that one.
fn exactly(cursor: &mut Cursor, expected: usize) -> Result<u8, FieldFault>
    ensures { Reads (λ x. x) result cursor.new (tested (λ n. n == expected) (number w8) cursor.old) }
{
    let place = cursor.place();
    let n = cursor.u8()?;
    if usize::from(n) != expected {
        return Err(FieldFault::BadField(place));
    }
    Ok(n)
}

// Register number i of a kind.
fn register(cursor: &mut Cursor, kind: Kind, i: u8) -> Result<u32, FieldFault>
    ensures { Reads (λ x. x) result cursor.new (tested (holds_value kind i) (number w32) cursor.old) }
{
    let place = cursor.place();
    let value = cursor.u32()?;
    if !holds_value(kind, i, value) {
        return Err(FieldFault::BadField(place));
    }
    Ok(value)
}

// So many registers of a kind, from the first one on.
fn registers_of(
    alloc: Global,
    cursor: &mut Cursor,
    kind: Kind,
    count: u8,
) -> Result<Vec<u32>, FieldFault>
    ensures { Reads (λ v. v.items) result cursor.new (chain (λ front. reading (register_layout kind front)) with_last count [] cursor.old) }
{
    let mut registers = Vec::new(alloc);
    for i in 0..count {
        let value = register(cursor, kind, i)?;
        registers.push(value)?;
    }
    Ok(registers)
}

#[tactic(auto, unfolding(crate::specs::Rows::registers_layout))]
fn registers(alloc: Global, cursor: &mut Cursor, kind: Kind) -> Result<Vec<u32>, FieldFault>
    ensures { Reads (λ v. v.items) result cursor.new (reading (registers_layout kind) cursor.old) }
{
    let count = exactly(cursor, usize::from(register_count(kind)))?;
    registers_of(alloc, cursor, kind, count)
}

impl Format for UnitFormat {
    type Item = SavedUnit;

    ghost Value = { UnitPart };

    ghost view = { unit_in };

    ghost layout = { λ known before. unit_layout before };

    fn read(
        alloc: Global,
        cursor: &mut Cursor,
        _known: Known,
        before: &[SavedUnit],
    ) -> Result<SavedUnit, FieldFault> {
        let position = exactly(cursor, before.len())?;
        Ok(SavedUnit {
            position,
            registers: registers(alloc, cursor, kind_at(position))?,
        })
    }
}

/// A register, whatever its unit is.
pub struct RegisterFormat;

impl Format for RegisterFormat {
    type Item = u32;

    ghost Value = { ℕ };

    ghost view = { λ n. n };

    ghost layout = { λ known before. Any Four };

    fn read(
        _alloc: Global,
        cursor: &mut Cursor,
        _known: Known,
        _before: &[u32],
    ) -> Result<u32, FieldFault> {
        cursor.u32()
    }
}

impl Writes for RegisterFormat {
    fn write(register: &u32, _known: Known, out: &mut Vec<u8>) -> Result<(), AllocError> {
        put_u32(out, *register)
    }

    ghost same_text = { λ known before x. refl };

    ghost same_fits = { λ known before x fits. fits };
}

impl Plain for RegisterFormat {
    ghost always_fits = { λ known before x. tt };
}

impl Writes for UnitFormat {
    #[tactic(auto, unfolding(crate::specs::Rows::registers_layout))]
    fn write(unit: &SavedUnit, _known: Known, out: &mut Vec<u8>) -> Result<(), AllocError> {
        put_u8(out, unit.position)?;
        put_u8(out, unit.registers.len() as u8)?;
        write_plain::<RegisterFormat>(&unit.registers, Known::nothing(), out)
    }

    ghost same_text = { λ known before x. refl };

    ghost same_fits = { λ known before x fits. fits };
}

// How many units there are.
fn unit_count(cursor: &mut Cursor, version: u16) -> Result<u8, FieldFault>
    ensures { Reads (λ x. x) result cursor.new (tested (is_count_in version) (number w8) cursor.old) }
{
    let place = cursor.place();
    let count = cursor.u8()?;
    if count != UNITS && (version == 1 || count != UNITS + 1) {
        return Err(FieldFault::BadField(place));
    }
    Ok(count)
}

impl ListFormat for UnitFormat {
    ghost size = { One };

    ghost few = { λ known. is_count_in known.version };

    fn count(cursor: &mut Cursor, known: Known) -> Result<u32, FieldFault> {
        Ok(u32::from(unit_count(cursor, known.version)?))
    }

    fn write_count(count: usize, out: &mut Vec<u8>) -> Result<(), AllocError> {
        put_u8(out, count as u8)
    }
}

/// An event.
pub struct EventFormat;

// The position of one of so many units.
fn position(cursor: &mut Cursor, count: usize) -> Result<u8, FieldFault>
    ensures { Reads (λ x. x) result cursor.new (tested (is_position count) (number w8) cursor.old) }
{
    let place = cursor.place();
    let position = cursor.u8()?;
    if usize::from(position) >= count {
        return Err(FieldFault::BadField(place));
    }
    Ok(position)
}

// Whether an event is that of a unit.
fn is_event_of(position: u8, unit: u8, event: &SavedEvent) -> bool
    ensures { result ≡ is_event_of position unit event.now }
{
    event.position == position && event.unit == unit
}

// Whether one of these events is that of a unit.
fn is_taken(events: &[SavedEvent], position: u8, unit: u8) -> bool
    ensures { result ≡ list_any (is_event_of position unit) events.now }
{
    events
        .iter()
        .any(|event| is_event_of(position, unit, event))
}

// Whether an event comes later than that.
fn is_later(remaining: u32, event: &SavedEvent) -> bool
    ensures { result ≡ is_later remaining event.now }
{
    event.remaining > remaining
}

// Whether one of these events comes later than that.
fn is_passed(events: &[SavedEvent], remaining: u32) -> bool
    ensures { result ≡ list_any (is_later remaining) events.now }
{
    events.iter().any(|event| is_later(remaining, event))
}

// The number of a unit that can have an event behind these.
fn event_unit(cursor: &mut Cursor, events: &[SavedEvent], position: u8) -> Result<u8, FieldFault>
    ensures { Reads (λ x. x) result cursor.new (tested (can_wait events.now position) (number w8) cursor.old) }
{
    let place = cursor.place();
    let unit = cursor.u8()?;
    if unit >= units_of(kind_at(position)) || is_taken(events, position, unit) {
        return Err(FieldFault::BadField(place));
    }
    Ok(unit)
}

// The time that remains to an event behind these.
fn remaining(cursor: &mut Cursor, events: &[SavedEvent]) -> Result<u32, FieldFault>
    ensures { Reads (λ x. x) result cursor.new (tested (comes_last events.now) (number w32) cursor.old) }
{
    let place = cursor.place();
    let remaining = cursor.u32()?;
    if is_passed(events, remaining) {
        return Err(FieldFault::BadField(place));
    }
    Ok(remaining)
}

impl Format for EventFormat {
    type Item = SavedEvent;

    ghost Value = { SavedEvent };

    ghost view = { λ e. e };

    ghost layout = { λ known before. event_layout known.count before };

    fn read(
        _alloc: Global,
        cursor: &mut Cursor,
        known: Known,
        before: &[SavedEvent],
    ) -> Result<SavedEvent, FieldFault> {
        let position = position(cursor, known.count)?;
        let unit = event_unit(cursor, before, position)?;
        let remaining = remaining(cursor, before)?;
        Ok(SavedEvent {
            position,
            unit,
            remaining,
        })
    }
}

impl Writes for EventFormat {
    fn write(event: &SavedEvent, _known: Known, out: &mut Vec<u8>) -> Result<(), AllocError> {
        put_u8(out, event.position)?;
        put_u8(out, event.unit)?;
        put_u32(out, event.remaining)
    }

    ghost same_text = { λ known before x. refl };

    ghost same_fits = { λ known before x fits. fits };
}

impl ListFormat for EventFormat {
    ghost size = { Two };

    ghost few = { λ known. few_events };

    fn count(cursor: &mut Cursor, _known: Known) -> Result<u32, FieldFault> {
        Ok(u32::from(cursor.u16_to(MOST_EVENTS)?))
    }

    fn write_count(count: usize, out: &mut Vec<u8>) -> Result<(), AllocError> {
        put_u16(out, count as u16)
    }
}
