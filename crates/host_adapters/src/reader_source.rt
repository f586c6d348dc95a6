ghost use Rattle.std.specs.Prelude.{◌≡◌, ◌≤◌, length, IfOk};
ghost use Rattle.std.specs.Io.KnownBytes.{ReadConsumes};
ghost use Rattle.fault_counts.specs.Faults.{HasCause, CountsFault};
ghost use Rattle.file_traits.specs.Streams.{LeavesFree};

use crate::retries::{RETRIES, is_tried_again};
use fault_counts::raised_count;
use file_traits::{Failed, OutOfMemory, Source};
use std::alloc::Global;
use std::io;
use std::io::{BufReader, Read};
use std::marker::Model;

/// How many bytes a source reads ahead at most.
pub const READ_AHEAD: usize = 4096;

/// A source over a reader, such as standard input. It reads ahead, so that bytes can be taken one by one without a call
/// to the system for each. What it has read ahead is given to nobody else: a program makes one for its standard input.
///
/// It keeps no end and no error. After either it asks the reader again at the next read, so on a terminal whoever typed
/// the end of the input (control D) can go on typing where the program goes on reading.
#[derive(Drop)]
pub struct ReaderSource<R: Read> {
    reader: BufReader<R>,
    faults: u64,
}

impl<R: Read> Model for ReaderSource<R> {
    ghost use Rattle.std.specs.Io.Buffered.{reader_remaining};
    ghost use Rattle.host_adapters.specs.Adapters.{InputState};

    ghost Value = { InputState };

    ghost view = { λ s. record { left = reader_remaining R.remaining s.reader; faults = s.faults } };
}

impl<R: Read> ReaderSource<R> {
    /// A source of what the reader has left. It takes the memory for what it will read ahead at once; where there is
    /// none, the reader is dropped.
    pub fn new(alloc: Global, reader: R) -> Result<ReaderSource<R>, OutOfMemory>
    where
        R: Drop,
        ensures { IfOk result (λ s. s ≡ record { left = R.remaining reader; faults = 0 }) }
    {
        match BufReader::with_capacity(alloc, READ_AHEAD, reader) {
            Ok(reader) => Ok(ReaderSource { reader, faults: 0 }),
            Err(_) => Err(OutOfMemory),
        }
    }
}

impl<R: Read> Source for ReaderSource<R> {
    ghost use Rattle.std.specs.Prelude.{false, []};

    ghost tells = { false };

    ghost left = { λ _. [] };

    ghost fault_count = { λ s. s.faults };

    /// Gives bytes that were read ahead, or where there are none asks the reader once for more. A read that a signal
    /// cuts short is made again, up to 64 times in a row; any other error is a fault.
    fn read(&mut self, buf: &mut [u8]) -> Result<usize, Failed>
        ensures bound { IfOk result (λ n. n ≤ length buf.new) }
        ensures lent { LeavesFree result buf.old buf.new }
        ensures bytes { ReadConsumes self.old.left self.new.left result buf.new }
        ensures cause { HasCause self.old.faults self.new.faults result }
        ensures counts { CountsFault self.old.faults self.new.faults result }
    {
        if buf.is_empty() {
            return Ok(0);
        }
        match read_retrying(&mut self.reader, buf) {
            Ok(count) => Ok(count),
            Err(_) => {
                self.faults = raised_count(self.faults);
                Err(Failed)
            }
        }
    }

    fn faults(&self) -> u64
        ensures { result ≡ self.now.faults }
    {
        self.faults
    }
}

/// One read, made again where a signal cut it short.
fn read_retrying<R: Read>(reader: &mut R, buf: &mut [u8]) -> io::Result<usize>
    ensures bound { IfOk result (λ n. n ≤ length buf.new) }
    ensures bytes { ReadConsumes (R.remaining reader.old) (R.remaining reader.new) result buf.new }
{
    for _ in 0..RETRIES {
        match reader.read(buf) {
            Ok(count) => return Ok(count),
            Err(error) => {
                if !is_tried_again(error.kind()) {
                    return Err(error);
                }
            }
        }
    }
    reader.read(buf)
}
