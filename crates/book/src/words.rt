// Words of four bytes, the lowest first, at their place in a list of bytes; this crate's alone.
// Promises: a word read is the word of the four bytes, and a word put is its four bytes, all else unchanged.
ghost use Rattle.std.specs.Prelude.{◌≡◌, ◌+◌, ◌*◌, ◌≤◌, length};
ghost use Rattle.book.specs.Words.{word_at};
ghost use Rattle.book.specs.Private.{with_word};

// Word p.
pub(crate) fn word(bytes: &[u8], p: usize) -> u32
    requires { 4 * p + 4 ≤ length bytes.now }
    ensures { result ≡ word_at bytes.now p }
{
    let at = 4 * p;
    u32::from_le_bytes([bytes[at], bytes[at + 1], bytes[at + 2], bytes[at + 3]])
}

// Makes x word p.
pub(crate) fn put_word(bytes: &mut [u8], p: usize, x: u32)
    requires { 4 * p + 4 ≤ length bytes.old }
    ensures { bytes.new ≡ with_word bytes.old p x }
{
    let at = 4 * p;
    bytes[at..at + 4].copy_from_slice(&x.to_le_bytes());
}
