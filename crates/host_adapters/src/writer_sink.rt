ghost use Rattle.std.specs.Prelude.{◌≡◌, ◌≤◌, length, IfOk};
ghost use Rattle.std.specs.Io.KnownBytes.{WriteAppends};
ghost use Rattle.fault_counts.specs.Faults.{HasCause, CountsFault};
ghost use Rattle.file_traits.specs.Streams.{WriteTakes};

use crate::retries::{RETRIES, is_tried_again};
use fault_counts::raised_count;
use file_traits::{Failed, Sink};
use std::io;
use std::io::Write;
use std::marker::Model;

/// A sink over a writer, such as standard output. Each piece goes to the writer at once, so an error is the answer of
/// the very write that met it, as long as the writer keeps no buffer of its own: the kit's standard output keeps none.
#[derive(Drop)]
pub struct WriterSink<W: Write> {
    writer: W,
    faults: u64,
}

impl<W: Write> Model for WriterSink<W> {
    ghost use Rattle.host_adapters.specs.Adapters.{OutputState};

    ghost Value = { OutputState };

    ghost view = { λ s. record { written = W.contents s.writer; faults = s.faults } };
}

impl<W: Write> WriterSink<W> {
    /// A sink that writes to the writer, behind what it holds.
    pub fn new(writer: W) -> WriterSink<W>
        ensures { result ≡ record { written = W.contents writer; faults = 0 } }
    {
        WriterSink { writer, faults: 0 }
    }
}

impl<W: Write> Sink for WriterSink<W> {
    ghost use Rattle.std.specs.Prelude.{false, []};

    ghost tells = { false };

    ghost written = { λ _. [] };

    ghost fault_count = { λ s. s.faults };

    /// Hands the piece to the writer once, and takes as many of its first bytes as the writer does. A write that a
    /// signal cuts short is made again, up to 64 times in a row; any other error is a fault, and so is a writer that
    /// takes nothing of a piece that is not empty.
    fn write(&mut self, bytes: &[u8]) -> Result<usize, Failed>
        ensures takes { WriteTakes result bytes.now }
        ensures adds { WriteAppends self.old.written self.new.written result bytes.now }
        ensures cause { HasCause self.old.faults self.new.faults result }
        ensures counts { CountsFault self.old.faults self.new.faults result }
    {
        if bytes.is_empty() {
            return Ok(0);
        }
        match write_retrying(&mut self.writer, bytes) {
            Ok(0) | Err(_) => {
                self.faults = raised_count(self.faults);
                Err(Failed)
            }
            Ok(count) => Ok(count),
        }
    }

    fn faults(&self) -> u64
        ensures { result ≡ self.now.faults }
    {
        self.faults
    }
}

/// One write, made again where a signal cut it short.
fn write_retrying<W: Write>(writer: &mut W, bytes: &[u8]) -> io::Result<usize>
    ensures bound { IfOk result (λ n. n ≤ length bytes.now) }
    ensures appends { WriteAppends (W.contents writer.old) (W.contents writer.new) result bytes.now }
{
    for _ in 0..RETRIES {
        match writer.write(bytes) {
            Ok(count) => return Ok(count),
            Err(error) => {
                if !is_tried_again(error.kind()) {
                    return Err(error);
                }
            }
        }
    }
    writer.write(bytes)
}
