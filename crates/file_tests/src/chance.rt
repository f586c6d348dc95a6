// Disks by chance, the same in each run of the tests: what is written, read and written back of each is what a plain buffer
// has.
ghost use Rattle.std.specs.Prelude.{◌≡◌, ◌<◌};
ghost use Rattle.unit_files.specs.Open.{AllOpen};

use crate::disk::{DISK, read, write};
use crate::images::with_file;
use crate::texts::{equal, holds};
use host_files::{Files, MemFiles};
use std::alloc::{AllocError, Global};
use std::process::Abort;
use unit_files::{AttachMode, Attached, SECTOR_BYTES};

/// How many sectors are written of a disk: those of eight pages.
const SECTORS: u32 = 64;

/// Calls that fail, and how many bytes they write. Each attaching makes an opening and a length, and up to eight reads.
const FAILS: &str = "7:100 31:0 58:4096 90:1 133:512 190:4095 250:77 311:0 402:1000";

#[derive(Clone, Copy)]
struct Chance {
    state: u32,
}

impl Chance {
    fn below(&mut self, most: u32) -> u32
        requires { 0 < most }
        ensures { result < most }
    {
        self.state = self.state.wrapping_mul(1664525).wrapping_add(1013904223);
        (self.state >> 8) % most
    }
}

/// A sector of one byte is written to the disk, and put into the plain buffer.
fn put(attached: &mut Attached, plain: &mut Vec<u8>, chance: &mut Chance) -> Result<(), AllocError>
    ensures { attached.new.slots ≡ attached.old.slots }
{
    let sector = chance.below(SECTORS);
    let byte = (chance.below(255) + 1) as u8;
    write(attached, sector as u16, &[byte; SECTOR_BYTES]);
    let place = sector as usize * SECTOR_BYTES;
    if plain.len() < place + SECTOR_BYTES {
        plain.resize(place + SECTOR_BYTES, 0)?;
    }
    plain[place..place + SECTOR_BYTES].fill(byte);
    Ok(())
}

/// A sector has the bytes that the plain buffer has there, and 0 behind its end.
fn same(rt: &impl Abort, attached: &Attached, plain: &[u8], chance: &mut Chance) {
    let sector = chance.below(SECTORS);
    let mut bytes = [9; SECTOR_BYTES];
    read(attached, sector as u16, &mut bytes);
    let place = sector as usize * SECTOR_BYTES;
    for (count, byte) in bytes.iter().enumerate() {
        let wanted = plain.get(place + count).copied().unwrap_or(0);
        equal(rt, byte, &wanted, "a sector of a disk by chance");
    }
}

/// Sectors are written and read, and pages written back.
fn steps<F: Files>(
    rt: &impl Abort,
    attached: &mut Attached,
    files: &mut F,
    plain: &mut Vec<u8>,
    chance: &mut Chance,
) -> Result<(), AllocError>
    requires { AllOpen attached.old.slots (F.state files.old).opened }
    ensures { AllOpen attached.new.slots (F.state files.new).opened }
{
    for _step in 0..20 {
        match chance.below(8) {
            0 => {
                let _ = attached.flush(DISK, files);
            }
            1..=3 => same(rt, attached, plain.as_slice(), chance),
            _ => put(attached, plain, chance)?,
        }
    }
    Ok(())
}

/// Detaches the disk: where it is not written back at first, then it is.
fn detach<F: Files>(rt: &impl Abort, attached: &mut Attached, files: &mut F)
    requires { AllOpen attached.old.slots (F.state files.old).opened }
{
    let first = attached.detach(DISK, files);
    let so = first.is_ok() || attached.detach(DISK, files).is_ok();
    holds(rt, so, "a disk by chance is detached");
}

/// The image is attached, where that does not fail, and is as long as the plain buffer.
fn round<F: Files>(
    rt: &impl Abort,
    alloc: Global,
    files: &mut F,
    plain: &mut Vec<u8>,
    chance: &mut Chance,
) -> Option<()> {
    let mut attached = Attached::new(alloc).ok()?;
    match attached.attach(alloc, DISK, "d", AttachMode::Any, files) {
        Ok(length) => {
            equal(rt, &length, &(plain.len() as u64), "a disk by chance");
            steps(rt, &mut attached, files, plain, chance).ok()?;
            detach(rt, &mut attached, files);
        }
        Err(_) => {}
    }
    Some(())
}

/// The image is the plain buffer.
fn is_plain(rt: &impl Abort, files: &MemFiles, plain: &[u8]) {
    let so = files.file_bytes("d") == Some(plain);
    holds(rt, so, "the image of a disk by chance");
}

/// An image is attached and detached again and again, as far as there is memory.
fn rounds(rt: &impl Abort, alloc: Global, seed: u32) -> Option<()> {
    let mut files = with_file(alloc, 65_536, "d", &[], FAILS)?;
    let mut plain = Vec::new(alloc);
    let mut chance = Chance { state: seed };
    for _round in 0..10 {
        round(rt, alloc, &mut files, &mut plain, &mut chance)?;
        is_plain(rt, &files, plain.as_slice());
    }
    Some(())
}

#[test]
fn a_disk_by_chance_is_a_plain_buffer(rt: HostRuntime) {
    for seed in 0..20 {
        let so = rounds(&rt, rt.alloc(), seed).is_some();
        holds(&rt, so, "memory for a disk by chance");
    }
}
