// Calls on sockets that do not wait. One that a signal cut short is made again.
ghost use Rattle.std.specs.Prelude.{◌≡◌, ◌≤◌, length, take, drop};
ghost use Rattle.host_lines.specs.LineCalls.{received_count, LeavesRest};
ghost use Rattle.host_adapters.specs.RealLines.{IsAtMost, Means, received_as, sent_as};

use crate::retries::{RETRIES, is_tried_again};
use host_lines::{LineFault, Received};
use mio::net::{TcpListener, TcpStream};
use std::io;
use std::io::{ErrorKind, Read, Write};

/// How many bytes one call receives at most.
const PIECE: usize = 64;

/// What a call on a socket came to.
#[derive(Drop)]
pub enum Answered<T: Drop> {
    Done(T),
    /// It would have to wait.
    Waits,
    Failed,
}

/// What an answer of the system means; none where the call is to be made again.
fn meaning_of<T: Drop>(answer: io::Result<T>) -> Option<Answered<T>>
    ensures { Means answer result }
{
    match answer {
        Ok(value) => Some(Answered::Done(value)),
        Err(error) => {
            let kind = error.kind();
            if is_tried_again(kind) {
                None
            } else if kind == ErrorKind::WouldBlock {
                Some(Answered::Waits)
            } else {
                Some(Answered::Failed)
            }
        }
    }
}

/// Accepts the next connection.
pub(crate) fn accept_from(listener: &TcpListener) -> Answered<TcpStream> {
    for _ in 0..=RETRIES {
        let accepted = match listener.accept() {
            Ok((stream, _)) => Ok(stream),
            Err(error) => Err(error),
        };
        if let Some(answer) = meaning_of(accepted) {
            return answer;
        }
    }
    Answered::Failed
}

/// Reads bytes that have come into the front of `buf`; 0 at the end.
pub(crate) fn read_from(mut stream: &TcpStream, buf: &mut [u8]) -> Answered<usize>
    ensures { IsAtMost (length buf.new) result }
{
    for _ in 0..=RETRIES {
        if let Some(answer) = meaning_of(stream.read(buf)) {
            return answer;
        }
    }
    Answered::Failed
}

/// Writes first bytes of a piece, and answers how many.
pub(crate) fn write_to(mut stream: &TcpStream, bytes: &[u8]) -> Answered<usize>
    ensures { IsAtMost (length bytes.now) result }
{
    for _ in 0..=RETRIES {
        if let Some(answer) = meaning_of(stream.write(bytes)) {
            return answer;
        }
    }
    Answered::Failed
}

/// Receives bytes on a socket into the front of `buf`, at most 64. It reads into bytes of its own, and hands on those
/// that came: what the system leaves behind these, or where it fails, reaches no buffer that was lent.
pub(crate) fn receive_from(stream: &TcpStream, buf: &mut [u8]) -> Result<Received, LineFault>
    ensures bound { received_count result ≤ length buf.new }
    ensures lent { LeavesRest result buf.old buf.new }
{
    let mut piece = [0; PIECE];
    let most = buf.len().min(PIECE);
    let answer = receive_piece(stream, &mut piece[..most]);
    if let Ok(Received::Bytes(count)) = answer {
        hand_on(&piece, count, buf);
    }
    answer
}

/// Receives into a buffer of which nothing is kept but what came.
fn receive_piece(stream: &TcpStream, piece: &mut [u8]) -> Result<Received, LineFault>
    ensures { received_count result ≤ length piece.old }
{
    let most = piece.len();
    received(most, read_from(stream, piece))
}

/// Copies so many first bytes of a piece.
fn hand_on(piece: &[u8], count: usize, buf: &mut [u8])
    requires piece { count ≤ length piece.now }
    requires buf { count ≤ length buf.old }
    ensures length { length buf.new ≡ length buf.old }
    ensures rest { drop count buf.new ≡ drop count buf.old }
    ensures bytes { take count buf.new ≡ take count piece.now }
{
    buf[..count].copy_from_slice(&piece[..count]);
}

/// What a call that receives answers where its read into so many bytes came to that; a read of none into some is the
/// end.
pub(crate) fn received(most: usize, read: Answered<usize>) -> Result<Received, LineFault>
    requires { IsAtMost most read }
    ensures answer { result ≡ received_as most read }
    ensures bound { received_count result ≤ most }
{
    match read {
        Answered::Waits => Ok(Received::NoneYet),
        Answered::Failed => Err(LineFault),
        Answered::Done(0) if most > 0 => Ok(Received::HungUp),
        Answered::Done(count) => Ok(Received::Bytes(count)),
    }
}

/// What a call that sends answers where its write came to that: none was taken where it would have to wait.
pub(crate) fn sent(written: Answered<usize>) -> Result<usize, LineFault>
    ensures { result ≡ sent_as written }
{
    match written {
        Answered::Waits => Ok(0),
        Answered::Failed => Err(LineFault),
        Answered::Done(count) => Ok(count),
    }
}
