ghost use Rattle.std.specs.Prelude.{◌≡◌, ℕ, ◌≤◌, ◌+◌, ◌-◌, List, Bool, IsTrue, take, length, IfOk, IfErr, OnOk, OnErr};
ghost use Rattle.fault_counts.specs.Faults.{CountsFault};
ghost use Rattle.file_traits.specs.Lists.{overwritten, resized};
ghost use Rattle.file_traits.specs.FileCalls.{Reads, written_count};
ghost use Rattle.file_traits.specs.OneList.{Behind, longest_list, shown};
ghost use Rattle.file_traits.specs.Streams.{LeavesFree};

use crate::files::WriteFault;
use crate::streams::Failed;

/// One list of bytes: that of an open file, or one in memory. Places and lengths count bytes. Reads and `length` see
/// its first 67108864 bytes, and no write passes that place.
pub trait Bytes {
    /// Whether contracts can name its bytes: those of one in memory, and not those of a real file.
    ghost tells: { Bool };

    /// All its bytes, where it tells them.
    ghost content: { Self → List ℕ };

    /// Whether it may be written.
    ghost writable: { Self → Bool };

    /// How often a call on it has failed.
    ghost fault_count: { Self → ℕ };

    /// What stands behind it, which its calls leave as it is.
    ghost behind: { Self → Behind };

    /// How long it is, but no more than 67108864.
    fn length(&mut self) -> Result<u64, Failed>
        ensures length { IsTrue tells → IfOk result (λ n. n ≡ length (shown (content self.old))) }
        ensures bound { IfOk result (λ n. n ≤ longest_list) }
        ensures same { content self.new ≡ content self.old }
        ensures writable { writable self.new ≡ writable self.old }
        ensures behind { behind self.new ≡ behind self.old }
        ensures counts { CountsFault (fault_count self.old) (fault_count self.new) result };

    /// Reads bytes from a place on into the front of `buf`, and answers how many. Where `buf` is not empty, 0 means the
    /// end. Where it fails, what `buf` holds is free.
    fn read_at(&mut self, place: u64, buf: &mut [u8]) -> Result<usize, Failed>
        ensures bound { IfOk result (λ n. n ≤ length buf.new) }
        ensures lent { LeavesFree result buf.old buf.new }
        ensures end { IfOk result (λ n. n ≤ longest_list - place) }
        ensures reads { IsTrue tells → Reads (shown (content self.old)) place result buf.new }
        ensures same { content self.new ≡ content self.old }
        ensures writable { writable self.new ≡ writable self.old }
        ensures behind { behind self.new ≡ behind self.old }
        ensures counts { CountsFault (fault_count self.old) (fault_count self.new) result };

    /// Writes a piece at a place. A gap in front of it is filled with zero bytes. Where it fails, so many first bytes
    /// of the piece were written as its fault says.
    fn write_at(&mut self, place: u64, bytes: &[u8]) -> Result<(), WriteFault>
        requires end { place + length bytes.now ≤ longest_list }
        requires writable { IsTrue (writable self.old) }
        ensures bound { IfErr result (λ f. f.done ≤ length bytes.now) }
        ensures content { IsTrue tells → content self.new
            ≡ overwritten (content self.old) place (take (written_count result bytes.now) bytes.now) }
        ensures writable { writable self.new ≡ writable self.old }
        ensures behind { behind self.new ≡ behind self.old }
        ensures counts { CountsFault (fault_count self.old) (fault_count self.new) result };

    /// Cuts it to a length, or fills it up with zero bytes. Where it fails, nothing has changed.
    fn set_length(&mut self, length: u64) -> Result<(), Failed>
        requires end { length ≤ longest_list }
        requires writable { IsTrue (writable self.old) }
        ensures set { IsTrue tells → OnOk result (content self.new ≡ resized (content self.old) length) }
        ensures refused { IsTrue tells → OnErr result (content self.new ≡ content self.old) }
        ensures writable { writable self.new ≡ writable self.old }
        ensures behind { behind self.new ≡ behind self.old }
        ensures counts { CountsFault (fault_count self.old) (fault_count self.new) result };

    /// How often a call on it has failed. The count stands still at its type's end.
    fn faults(&self) -> u64
        ensures { result ≡ fault_count self.now };
}
