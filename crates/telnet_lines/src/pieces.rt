ghost use Rattle.std.specs.Prelude.{◌≡◌, ◌≤◌, ◌+◌, ◌++◌, length, take, drop};
ghost use Rattle.telnet_lines.specs.Poll.{piece_of};

use circular_buffer::HeapCircularBuffer;

/// The longest piece that is sent, in bytes.
pub(crate) const LONGEST_SENT: usize = 256;

/// Copies the first bytes of a ring, as many as fit, into the front of `out`, and answers how many.
pub(crate) fn first_bytes(ring: &HeapCircularBuffer<u8>, out: &mut [u8; LONGEST_SENT]) -> usize
    ensures count { result ≡ length (piece_of ring.now.items) }
    ensures bound { (result ≤ 256) × (result ≤ length ring.now.items) }
    ensures bytes { take result out.new ≡ piece_of ring.now.items }
{
    let (front, back) = ring.as_slices();
    let from_front = front.len().min(LONGEST_SENT);
    let from_back = back.len().min(LONGEST_SENT - from_front);
    copy_both(&front[..from_front], &back[..from_back], out);
    from_front + from_back
}

/// Copies two pieces, one behind the other, into the front of `out`.
fn copy_both(front: &[u8], back: &[u8], out: &mut [u8; LONGEST_SENT])
    requires { length front.now + length back.now ≤ 256 }
    ensures { out.new ≡ (front.now ++ back.now) ++ drop (length front.now + length back.now) out.old }
{
    out[..front.len()].copy_from_slice(front);
    out[front.len()..front.len() + back.len()].copy_from_slice(back);
}
