// Text in ASCII, put on a page of lent bytes: a number in decimal or a word as a field of a line, with the byte that
// parts or ends it. Document 01, "The tape", its last paragraph.
//
// std's `Display` and `write!` print the same digits, but no clause of theirs says that printing succeeds where there
// is room; the kit's itoa always gives them.
#![tactic(auto)]

ghost use Rattle.std.specs.Prelude.{◌≡◌, ℕ, List, [], ◌∷◌, ◌++◌, ◌+◌, length};
ghost use Rattle.machine.specs.Text.{decimal};
ghost use Rattle.text.specs.Puts.{HasRoom, Puts};

use itoa::write_digits;
use span::copy;

// Internal: a page: lent bytes, and the place where the text goes on.
#[derive(Drop)]
pub struct Page<'a> {
    pub bytes: &'a mut [u8],
    pub end: usize,
}

impl<'a> Page<'a> {
    // Internal: a page whose text begins at the start of the lent bytes.
    pub fn new(bytes: &'a mut [u8]) -> Page<'a>
        ensures same { result.bytes.ghost_name ≡ bytes.entry.ghost_name }
        ensures bytes { result.bytes.now ≡ bytes.old }
        ensures end { result.end ≡ 0 }
    {
        Page { bytes, end: 0 }
    }

    // Internal: bytes, as they are.
    pub fn put(&mut self, text: &[u8])
        requires { HasRoom self.old (length text.now) }
        ensures { Puts self.old text.now self.new }
    {
        let end = self.end + text.len();
        let bytes = &mut *self.bytes;
        copy(bytes, self.end, text);
        self.end = end;
    }

    // Internal: a value as a field of a line, and the byte behind it.
    pub fn field<F: Field>(&mut self, value: F, behind: u8)
        requires { HasRoom self.old (length (F.spelled value) + 1) }
        ensures text { Puts self.old (F.spelled value ++ (behind ∷ [])) self.new }
        ensures end { self.new.end ≡ self.old.end + (length (F.spelled value) + 1) }
    {
        value.put_on(self);
        self.put(&[behind]);
    }
}

// Internal: a value that can be a field of a line.
pub trait Field {
    // The bytes that it is spelled with.
    ghost spelled: { Self → List ℕ };

    // Internal: those bytes, put on a page.
    fn put_on(self, page: &mut Page<'_>)
        requires { HasRoom page.old (length (spelled self)) }
        ensures { Puts page.old (spelled self) page.new };
}

// A number in decimal, without leading zeros; in 64 bits it has at most 20 digits.
impl Field for u64 {
    ghost spelled = { decimal };

    fn put_on(self, page: &mut Page<'_>) {
        let mut digits = [b'0'; 20];
        let start = write_digits(self, &mut digits, 20);
        page.put(&digits[start..]);
    }
}

// Bytes, as they are.
impl Field for &[u8] {
    ghost spelled = { λ text. text.now };

    fn put_on(self, page: &mut Page<'_>) {
        page.put(self);
    }
}

// A word.
impl Field for &str {
    ghost spelled = { λ word. word.now };

    fn put_on(self, page: &mut Page<'_>) {
        page.put(self.as_bytes());
    }
}
