// Reads and writes at a place of an open file.
ghost use Rattle.std.specs.Prelude.{◌≡◌, ◌+◌, ◌^◌, ◌≤◌, ◌<◌, length, take, drop, IsTrue, IsOk, IfOk, IfErr};
ghost use Rattle.file_traits.specs.Lists.{overwritten};
ghost use Rattle.file_traits.specs.FileCalls.{Reads, written_count};
ghost use Rattle.host_adapters.specs.Placed.{IsRead, Gives, taken_count};

use crate::retries::{RETRIES, is_tried_again};
use file_traits::WriteFault;
use std::io;
use std::io::ErrorKind;
use std::os::unix::fs::FileExt;

/// An open file that is read and written at places.
pub trait Placed {
    ghost use Rattle.std.specs.Prelude.{Bool, List, ℕ};

    /// Whether contracts can name its bytes.
    ghost tells: { Bool };

    /// Its bytes.
    ghost bytes: { Self → List ℕ };

    /// Whether its calls never fail.
    ghost works: { Bool };

    /// One call of the system, which gives some bytes from a place on.
    fn read_once(&self, place: u64, buf: &mut [u8]) -> io::Result<usize>
        ensures bound { IfOk result (λ n. n ≤ length buf.new) }
        ensures room { length buf.new ≡ length buf.old }
        ensures gives { IsTrue tells → IfOk result (λ n. Gives (bytes self.now) place n buf.new) }
        ensures works { IsTrue works → IsOk result };

    /// One call of the system, which takes some first bytes of a piece.
    fn write_once(&mut self, place: u64, piece: &[u8]) -> io::Result<usize>
        ensures bound { IfOk result (λ n. n ≤ length piece.now) }
        ensures takes { IsTrue tells
            → bytes self.new ≡ overwritten (bytes self.old) place (take (taken_count result) piece.now) }
        ensures works { IsTrue works → 0 < length piece.now → 0 < taken_count result };
}

impl<F: FileExt> Placed for &F {
    ghost use Rattle.std.specs.Prelude.{false, []};

    ghost tells = { false };

    ghost bytes = { λ _. [] };

    ghost works = { false };

    fn read_once(&self, place: u64, buf: &mut [u8]) -> io::Result<usize> {
        (**self).read_at(buf, place)
    }

    fn write_once(&mut self, place: u64, piece: &[u8]) -> io::Result<usize> {
        (**self).write_at(piece, place)
    }
}

/// Reads from a place on until the buffer is full or the file is at its end, and answers how many bytes. A buffer of
/// one byte takes one call of the system.
pub fn read_whole<F: Placed>(file: &F, place: u64, buf: &mut [u8]) -> io::Result<usize>
    ensures bound { IfOk result (λ n. n ≤ length buf.new) }
    ensures reads { IsTrue F.tells → Reads (F.bytes file.now) place result buf.new }
    ensures works { IsTrue F.works → place + length buf.old < 2 ^ 64 → IsOk result }
{
    let mut count = 0;
    'pieces: while count < buf.len() {
        let more = read_more(file, place, count, buf)?;
        if more == 0 {
            return Ok(count);
        }
        count += more;
    }
    Ok(count)
}

/// Reads on, behind so many bytes that were read.
fn read_more<F: Placed>(file: &F, place: u64, count: usize, buf: &mut [u8]) -> io::Result<usize>
    requires { count < length buf.old }
    ensures bound { IfOk result (λ more. count + more ≤ length buf.new) }
    ensures room { length buf.new ≡ length buf.old }
    ensures reads { IsTrue F.tells → IsRead (F.bytes file.now) place count buf.old
        → IfOk result (λ more. IsRead (F.bytes file.now) place (count + more) buf.new) }
    ensures none { IsTrue F.tells → IfOk result (λ more. more ≡ 0 → length (F.bytes file.now) ≤ place + count) }
    ensures works { IsTrue F.works → place + length buf.old < 2 ^ 64 → IsOk result }
{
    match place.checked_add(count as u64) {
        Some(at) => read_retrying(file, at, &mut buf[count..]),
        None => Err(io::Error::from(ErrorKind::InvalidInput)),
    }
}

/// Writes a piece at a place. Where it fails, so many first bytes of the piece were written as its fault says. It fails
/// too where the system takes none of what is left.
pub fn write_whole<F: Placed>(file: &mut F, place: u64, bytes: &[u8]) -> Result<(), WriteFault>
    ensures bound { IfErr result (λ f. f.done ≤ length bytes.now) }
    ensures writes { IsTrue F.tells → F.bytes file.new
        ≡ overwritten (F.bytes file.old) place (take (written_count result bytes.now) bytes.now) }
    ensures works { IsTrue F.works → place + length bytes.now < 2 ^ 64 → IsOk result }
{
    let mut done = 0;
    'pieces: while done < bytes.len() {
        let more = write_more(file, place, done, bytes);
        if more == 0 {
            return Err(WriteFault { done });
        }
        done += more;
    }
    Ok(())
}

/// Writes on, behind so many bytes that were written, and answers how many more were.
fn write_more<F: Placed>(file: &mut F, place: u64, done: usize, bytes: &[u8]) -> usize
    requires { done < length bytes.now }
    ensures bound { done + result ≤ length bytes.now }
    ensures writes { IsTrue F.tells
        → F.bytes file.new ≡ overwritten (F.bytes file.old) (place + done) (take result (drop done bytes.now)) }
    ensures works { IsTrue F.works → place + length bytes.now < 2 ^ 64 → 0 < result }
{
    match place.checked_add(done as u64) {
        Some(at) => write_retrying(file, at, &bytes[done..]),
        None => 0,
    }
}

/// One read, made again where a signal cut it short.
fn read_retrying<F: Placed>(file: &F, place: u64, buf: &mut [u8]) -> io::Result<usize>
    ensures bound { IfOk result (λ n. n ≤ length buf.new) }
    ensures room { length buf.new ≡ length buf.old }
    ensures gives { IsTrue F.tells → IfOk result (λ n. Gives (F.bytes file.now) place n buf.new) }
    ensures works { IsTrue F.works → IsOk result }
{
    for _ in 0..RETRIES {
        match file.read_once(place, buf) {
            Ok(count) => return Ok(count),
            Err(error) => {
                if !is_tried_again(error.kind()) {
                    return Err(error);
                }
            }
        }
    }
    file.read_once(place, buf)
}

/// One write, made again where a signal cut it short. It answers how many bytes were taken: none where it failed.
fn write_retrying<F: Placed>(file: &mut F, place: u64, piece: &[u8]) -> usize
    ensures bound { result ≤ length piece.now }
    ensures takes { IsTrue F.tells → F.bytes file.new ≡ overwritten (F.bytes file.old) place (take result piece.now) }
    ensures works { IsTrue F.works → 0 < length piece.now → 0 < result }
{
    for _ in 0..RETRIES {
        match file.write_once(place, piece) {
            Ok(count) => return count,
            Err(error) => {
                if !is_tried_again(error.kind()) {
                    return 0;
                }
            }
        }
    }
    file.write_once(place, piece).unwrap_or(0)
}
