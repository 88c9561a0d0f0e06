// Numbers in bytes, lowest first: read and written. Document 01, "The tape": words are little-endian.
#![tactic(auto)]

ghost use Rattle.std.specs.Prelude.{◌≡◌, ℕ, ◌+◌, ◌≤◌, length};
ghost use Rattle.machine.specs.Bytes.{number, bytes as bytes_of, splice};

use span::put;

// Internal: a number of some bytes, which stands in a buffer with the lowest first.
pub trait Word: Copy {
    // How many bytes it has.
    ghost width: { ℕ };
    // The number that it is.
    ghost value: { Self → ℕ };

    // Internal: the number that stands at a place. Of a slice of its own width a caller would have to prove the cut
    // each time.
    fn read_at(bytes: &[u8], at: usize) -> Self
        requires { at + width ≤ length bytes.now }
        ensures { value result ≡ number bytes.now at width };

    // Internal: this number, written at a place.
    fn write_at(self, bytes: &mut [u8], at: usize)
        requires { at + width ≤ length bytes.old }
        ensures { bytes.new ≡ splice bytes.old at (bytes_of width (value self)) };
}

impl Word for u16 {
    ghost width = { 2 };

    ghost value = { λ n. n };

    fn read_at(bytes: &[u8], at: usize) -> u16 {
        u16::from_le_bytes(*bytes[at..at + 2].as_array().unwrap())
    }

    fn write_at(self, bytes: &mut [u8], at: usize) {
        let two = self.to_le_bytes();
        put(bytes, at, &two);
    }
}

impl Word for u32 {
    ghost width = { 4 };

    ghost value = { λ n. n };

    fn read_at(bytes: &[u8], at: usize) -> u32 {
        u32::from_le_bytes(*bytes[at..at + 4].as_array().unwrap())
    }

    fn write_at(self, bytes: &mut [u8], at: usize) {
        let four = self.to_le_bytes();
        put(bytes, at, &four);
    }
}

impl Word for u64 {
    ghost width = { 8 };

    ghost value = { λ n. n };

    fn read_at(bytes: &[u8], at: usize) -> u64 {
        u64::from_le_bytes(*bytes[at..at + 8].as_array().unwrap())
    }

    fn write_at(self, bytes: &mut [u8], at: usize) {
        let eight = self.to_le_bytes();
        put(bytes, at, &eight);
    }
}
