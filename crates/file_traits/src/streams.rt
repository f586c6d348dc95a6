ghost use Rattle.std.specs.Prelude.{◌≡◌, ℕ, ◌≤◌, List, ◌++◌, length, Bool, IsTrue, IfOk, OnOk, OnErr};
ghost use Rattle.fault_counts.specs.Faults.{HasCause, CountsFault};
ghost use Rattle.file_traits.specs.Streams.{ReadTakes, NextByte, WriteTakes, WriteAdds, AddsPart, Puts, joined};
ghost use Rattle.file_traits.specs.Streams.{LeavesFree};

/// The answer of a call that a stream could not carry out. The stream's count of faults has risen.
#[derive(Clone, Copy, Debug, PartialEq, Eq)]
pub struct Failed;

/// Bytes to read, in order.
pub trait Source {
    /// Whether contracts can name its bytes: those of one in memory, and not those of a real one.
    ghost tells: { Bool };

    /// The bytes that are left, where it tells them.
    ghost left: { Self → List ℕ };

    /// How often a call has failed.
    ghost fault_count: { Self → ℕ };

    /// Reads the next bytes into the front of `buf`, and answers how many. Where `buf` is not empty, 0 means the end. A
    /// read that fails takes nothing, and what `buf` holds then is free.
    fn read(&mut self, buf: &mut [u8]) -> Result<usize, Failed>
        ensures bound { IfOk result (λ n. n ≤ length buf.new) }
        ensures lent { LeavesFree result buf.old buf.new }
        ensures bytes { IsTrue tells → ReadTakes (left self.old) result buf.new (left self.new) }
        ensures cause { HasCause (fault_count self.old) (fault_count self.new) result }
        ensures counts { CountsFault (fault_count self.old) (fault_count self.new) result };

    /// How often a call has failed. The count stands still at its type's end.
    fn faults(&self) -> u64
        ensures { result ≡ fault_count self.now };
}

/// A place to write bytes to, in order.
pub trait Sink {
    /// Whether contracts can name its bytes: those of one in memory, and not those of a real one.
    ghost tells: { Bool };

    /// The bytes that were written, where it tells them.
    ghost written: { Self → List ℕ };

    /// How often a call has failed.
    ghost fault_count: { Self → ℕ };

    /// Writes first bytes of the piece, and answers how many: at least one, where there is one. A write that fails
    /// writes none.
    fn write(&mut self, bytes: &[u8]) -> Result<usize, Failed>
        ensures takes { WriteTakes result bytes.now }
        ensures adds { IsTrue tells → WriteAdds (written self.old) result bytes.now (written self.new) }
        ensures cause { HasCause (fault_count self.old) (fault_count self.new) result }
        ensures counts { CountsFault (fault_count self.old) (fault_count self.new) result };

    /// How often a call has failed. The count stands still at its type's end.
    fn faults(&self) -> u64
        ensures { result ≡ fault_count self.now };
}

/// Writes all of the bytes. Where a write fails, a first part of them was written, and not all.
pub fn put_all<S: Sink>(sink: &mut S, bytes: &[u8]) -> Result<(), Failed>
    ensures all { IsTrue S.tells → OnOk result (S.written sink.new ≡ S.written sink.old ++ bytes.now) }
    ensures part { IsTrue S.tells → OnErr result (AddsPart (S.written sink.old) bytes.now (S.written sink.new)) }
    ensures counts { CountsFault (S.fault_count sink.old) (S.fault_count sink.new) result }
{
    let mut done = 0;
    while done < bytes.len() {
        let count = sink.write(&bytes[done..])?;
        done += count;
    }
    Ok(())
}

/// Writes pieces of a text, one behind another. Where a write fails, a first part of them all was written, and not all.
pub fn put_pieces<S: Sink>(sink: &mut S, pieces: &[&[u8]]) -> Result<(), Failed>
    ensures told { IsTrue S.tells → Puts (S.written sink.old) (joined pieces.now) result (S.written sink.new) }
    ensures counts { CountsFault (S.fault_count sink.old) (S.fault_count sink.new) result }
{
    for piece in pieces {
        put_all(sink, piece)?;
    }
    Ok(())
}

/// Reads one byte. `None` means the end. A read that fails takes nothing.
pub fn next_byte<C: Source>(input: &mut C) -> Result<Option<u8>, Failed>
    ensures takes { IsTrue C.tells → NextByte (C.left input.old) result (C.left input.new) }
    ensures counts { CountsFault (C.fault_count input.old) (C.fault_count input.new) result }
{
    let mut buf = [0];
    let count = input.read(&mut buf)?;
    Ok(if count == 0 { None } else { Some(buf[0]) })
}
