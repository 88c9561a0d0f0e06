// Stretches of bytes: cleared, written, copied, tested for zeros.
#![tactic(auto)]

ghost use Rattle.std.specs.Prelude.{◌≡◌, ◌+◌, ◌≤◌, length, replicate, bit_or};
ghost use Rattle.std.specs.List.{fold};
ghost use Rattle.machine.specs.Bytes.{all_zero, splice};

// Internal: zeros over so many bytes from `at` on. With a place, here and below: what a caller knows afterwards is said
// of its whole buffer, and the library's `fill` says it of the part alone.
pub fn clear(bytes: &mut [u8], at: usize, count: usize)
    requires { at + count ≤ length bytes.old }
    ensures { bytes.new ≡ splice bytes.old at (replicate count 0) }
{
    bytes[at..at + count].fill(0);
}

// Internal: a piece written over a buffer from `at` on.
pub fn put(bytes: &mut [u8], at: usize, piece: &[u8])
    requires { at + length piece.now ≤ length bytes.old }
    ensures { bytes.new ≡ splice bytes.old at piece.now }
{
    bytes[at..at + piece.len()].copy_from_slice(piece);
}

// Internal: the same of a piece of any length, byte by byte. There the library's copy is a call of memmove, and what
// links libring_tools.a needs no more for it than memset.
pub fn copy(bytes: &mut [u8], at: usize, piece: &[u8])
    requires { at + length piece.now ≤ length bytes.old }
    ensures { bytes.new ≡ splice bytes.old at piece.now }
{
    for (i, byte) in piece.iter().enumerate() {
        bytes[at + i] = *byte;
    }
}

// The bytes, or-ed.
fn ored(bytes: &[u8]) -> u8
    ensures { result ≡ fold bit_or 0 bytes.now }
{
    bytes.iter().fold(0, |any, byte| any | *byte)
}

// Internal: whether all bytes are zero: they are or-ed, and no branch hangs on a byte.
pub fn is_clear(bytes: &[u8]) -> bool
    ensures { result ≡ all_zero bytes.now }
{
    ored(bytes) == 0
}
