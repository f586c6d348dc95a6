// How what a run watches is read and written: breaks, texts that are waited for, the last bytes printed, those to send.
ghost use Rattle.std.specs.Prelude.{◌≡◌, ◌+◌, ◌<◌, ◌^◌, ◌++◌, ◌&&◌, OnOk, IfOk, ℕ, List, length, map, nat_le, refl};
ghost use Rattle.std.specs.Int.{w8, w16, w32};
ghost use Rattle.saved_session.specs.declared.saved.SavedSend.{SavedSend};
ghost use Rattle.saved_session.specs.Parts.{BreakPart, ExpectPart, break_in, expect_in};
ghost use Rattle.saved_session.specs.Ranges.{is_address, is_expect_count, is_text_length};
ghost use Rattle.byte_layouts.specs.Readers.{Reads, number, tested};
ghost use Rattle.byte_layouts.specs.Layout.{One, Two, Sized, number_text, text, reading, Fits};
ghost use Rattle.state_text.specs.Rows.{any, actions_layout, break_layout, few_breaks, address_behind, expect_layout, few_expects, tail_layout, send_layout, few_sends, time_behind};

use byte_layouts::{
    Cursor, FieldFault, Format, Known, ListFormat, Writes, put_u8, put_u16, put_u32, put_u64,
};
use saved_session::{SavedBreak, SavedExpect, SavedSend};
use std::alloc::{AllocError, Global};

/// How many breaks, texts that are waited for and bytes that are sent there are at most.
const MOST_BREAKS: u16 = 256;

const MOST_EXPECTS: u8 = 64;

const MOST_SENDS: u16 = 4096;

/// How many bytes actions and a text that is waited for have at most.
const LONGEST_ACTIONS: u16 = 512;

const LONGEST_TEXT: u8 = 64;

/// When the last byte is sent at the latest.
const LAST_SEND: u64 = 1 << 62;

// Actions.
fn actions<'a>(cursor: &mut Cursor<'a>) -> Result<&'a [u8], FieldFault>
    ensures { Reads (λ x. x.now) result cursor.new (reading actions_layout cursor.old) }
{
    let length = cursor.u16_to(LONGEST_ACTIONS)?;
    let place = cursor.place();
    let actions = cursor.bytes(usize::from(length))?;
    if actions.contains(&b'\n') {
        return Err(FieldFault::BadField(place));
    }
    Ok(actions)
}

// Bytes behind their number, in 8 bits.
fn put_short(out: &mut Vec<u8>, bytes: &[u8]) -> Result<(), AllocError>
    requires { length bytes.now < 2 ^ 8 }
    ensures { OnOk result (out.new.items ≡ out.old.items ++ (number_text w8 (length bytes.now) ++ bytes.now)) }
{
    put_u8(out, bytes.len() as u8)?;
    out.extend_from_slice(bytes)
}

// Bytes behind their number, in 16 bits.
pub fn put_long(out: &mut Vec<u8>, bytes: &[u8]) -> Result<(), AllocError>
    requires { length bytes.now < 2 ^ 16 }
    ensures { OnOk result (out.new.items ≡ out.old.items ++ (number_text w16 (length bytes.now) ++ bytes.now)) }
{
    put_u16(out, bytes.len() as u16)?;
    out.extend_from_slice(bytes)
}

/// A break.
pub struct BreakFormat;

// The number behind an address.
fn next_address(address: u16) -> u32
    ensures { result ≡ address + 1 }
{
    u32::from(address) + 1
}

// From which address on the next break can be.
fn address_behind(before: &[SavedBreak]) -> u32
    ensures { result ≡ address_behind (map break_in before.now) }
{
    match before.last() {
        Some(last) => next_address(last.address),
        None => 0,
    }
}

// An address from that one on.
fn address(cursor: &mut Cursor, least: u32) -> Result<u16, FieldFault>
    ensures { Reads (λ x. x) result cursor.new (tested (λ a. nat_le least a && is_address a) (number w16) cursor.old) }
{
    let place = cursor.place();
    let address = cursor.u16()?;
    if u32::from(address) < least || address >= 32768 {
        return Err(FieldFault::BadField(place));
    }
    Ok(address)
}

impl Format for BreakFormat {
    type Item = SavedBreak;

    ghost Value = { BreakPart };

    ghost view = { break_in };

    ghost layout = { λ known before. break_layout before };

    fn read(
        alloc: Global,
        cursor: &mut Cursor,
        _known: Known,
        before: &[SavedBreak],
    ) -> Result<SavedBreak, FieldFault> {
        let address = address(cursor, address_behind(before))?;
        let count = cursor.u32()?;
        let actions = actions(cursor)?;
        Ok(SavedBreak {
            address,
            count,
            actions: Vec::from_slice(alloc, actions)?,
        })
    }
}

impl Writes for BreakFormat {
    fn write(b: &SavedBreak, _known: Known, out: &mut Vec<u8>) -> Result<(), AllocError> {
        put_u16(out, b.address)?;
        put_u32(out, b.count)?;
        put_long(out, &b.actions)
    }

    ghost same_text = { λ known before x. refl };

    ghost same_fits = { λ known before x fits. fits };
}

impl ListFormat for BreakFormat {
    ghost size = { Two };

    ghost few = { λ known. few_breaks };

    fn count(cursor: &mut Cursor, _known: Known) -> Result<u32, FieldFault> {
        Ok(u32::from(cursor.u16_to(MOST_BREAKS)?))
    }

    fn write_count(count: usize, out: &mut Vec<u8>) -> Result<(), AllocError> {
        put_u16(out, count as u16)
    }
}

/// A text that is waited for.
pub struct ExpectFormat;

// How many times it is waited for.
fn expect_count(cursor: &mut Cursor) -> Result<u32, FieldFault>
    ensures { Reads (λ x. x) result cursor.new (tested is_expect_count (number w32) cursor.old) }
{
    let place = cursor.place();
    let count = cursor.u32()?;
    if count < 1 {
        return Err(FieldFault::BadField(place));
    }
    Ok(count)
}

// A text that is waited for.
fn text<'a>(cursor: &mut Cursor<'a>) -> Result<&'a [u8], FieldFault>
    ensures { Reads (λ x. x.now) result cursor.new (reading (Sized One is_text_length any) cursor.old) }
{
    let place = cursor.place();
    let length = cursor.u8()?;
    if length < 1 || length > LONGEST_TEXT {
        return Err(FieldFault::BadField(place));
    }
    cursor.bytes(usize::from(length))
}

impl Format for ExpectFormat {
    type Item = SavedExpect;

    ghost Value = { ExpectPart };

    ghost view = { expect_in };

    ghost layout = { λ known before. expect_layout };

    fn read(
        alloc: Global,
        cursor: &mut Cursor,
        _known: Known,
        _before: &[SavedExpect],
    ) -> Result<SavedExpect, FieldFault> {
        let count = expect_count(cursor)?;
        let text = text(cursor)?;
        let actions = actions(cursor)?;
        Ok(SavedExpect {
            count,
            text: Vec::from_slice(alloc, text)?,
            actions: Vec::from_slice(alloc, actions)?,
        })
    }
}

impl Writes for ExpectFormat {
    fn write(expect: &SavedExpect, _known: Known, out: &mut Vec<u8>) -> Result<(), AllocError> {
        put_u32(out, expect.count)?;
        put_short(out, &expect.text)?;
        put_long(out, &expect.actions)
    }

    ghost same_text = { λ known before x. refl };

    ghost same_fits = { λ known before x fits. fits };
}

impl ListFormat for ExpectFormat {
    ghost size = { One };

    ghost few = { λ known. few_expects };

    fn count(cursor: &mut Cursor, _known: Known) -> Result<u32, FieldFault> {
        Ok(u32::from(cursor.u8_to(MOST_EXPECTS)?))
    }

    fn write_count(count: usize, out: &mut Vec<u8>) -> Result<(), AllocError> {
        put_u8(out, count as u8)
    }
}

/// The bytes that were printed last.
pub struct TailFormat;

impl Format for TailFormat {
    type Item = Vec<u8>;

    ghost Value = { List ℕ };

    ghost view = { λ v. v.items };

    ghost layout = { λ known before. tail_layout };

    fn read(
        alloc: Global,
        cursor: &mut Cursor,
        _known: Known,
        _before: &[Vec<u8>],
    ) -> Result<Vec<u8>, FieldFault> {
        let length = cursor.u8_to(LONGEST_TEXT)?;
        let tail = cursor.bytes(usize::from(length))?;
        Ok(Vec::from_slice(alloc, tail)?)
    }
}

impl Writes for TailFormat {
    fn write(tail: &Vec<u8>, _known: Known, out: &mut Vec<u8>) -> Result<(), AllocError> {
        put_short(out, tail)
    }

    ghost same_text = { λ known before x. refl };

    ghost same_fits = { λ known before x fits. fits };
}

/// A byte that is sent.
pub struct SendFormat;

// From when on the next byte can be sent.
fn time_behind(before: &[SavedSend]) -> u64
    ensures { result ≡ time_behind before.now }
{
    match before.last() {
        Some(last) => last.time,
        None => 0,
    }
}

impl Format for SendFormat {
    type Item = SavedSend;

    ghost Value = { SavedSend };

    ghost view = { λ s. s };

    ghost layout = { λ known before. send_layout before };

    fn read(
        _alloc: Global,
        cursor: &mut Cursor,
        _known: Known,
        before: &[SavedSend],
    ) -> Result<SavedSend, FieldFault> {
        Ok(SavedSend {
            time: cursor.u64_in(time_behind(before), LAST_SEND)?,
            byte: cursor.u8()?,
        })
    }
}

impl Writes for SendFormat {
    fn write(send: &SavedSend, _known: Known, out: &mut Vec<u8>) -> Result<(), AllocError> {
        put_u64(out, send.time)?;
        put_u8(out, send.byte)
    }

    ghost same_text = { λ known before x. refl };

    ghost same_fits = { λ known before x fits. fits };
}

impl ListFormat for SendFormat {
    ghost size = { Two };

    ghost few = { λ known. few_sends };

    fn count(cursor: &mut Cursor, _known: Known) -> Result<u32, FieldFault> {
        Ok(u32::from(cursor.u16_to(MOST_SENDS)?))
    }

    fn write_count(count: usize, out: &mut Vec<u8>) -> Result<(), AllocError> {
        put_u16(out, count as u16)
    }
}
