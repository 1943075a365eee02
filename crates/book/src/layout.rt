// How a book is laid out: kinds, signals to a block, blocks to a book, and where a signal starts; this crate's alone.
// Promises: each number is the definition's; reading and writing take it from here.
ghost use Rattle.std.specs.Prelude.{◌≡◌, ◌^◌, ◌<◌, ◌≤◌};
ghost use Rattle.book.specs.Blocks.{kind_of, signals_in, blocks_for};
ghost use Rattle.book.specs.Part.{part_start};

use terms::SIGNAL_WORDS;

// The signals of a full signal block, and their words.
pub(crate) const PER_BLOCK: usize = 24;

pub(crate) const SECTION_WORDS: usize = SIGNAL_WORDS * PER_BLOCK;

// The bytes of a signal.
pub(crate) const PART_BYTES: usize = 4 * SIGNAL_WORDS;

// The kind as the word of the book that it is: 1 for the settings block, 2 for signal blocks.
pub(crate) fn kind_of(k: usize) -> u32
    ensures { result ≡ kind_of k }
{
    match k {
        0 => 1,
        _ => 2,
    }
}

// The signals that signal block k of a list of m holds.
pub(crate) fn signals_in(m: usize, k: usize) -> usize
    requires { (0 < k) × (k < 2 ^ 56) }
    ensures { result ≡ signals_in m k }
{
    m.saturating_sub(PER_BLOCK * (k - 1)).min(PER_BLOCK)
}

// The blocks of a book of m signals.
pub(crate) fn blocks_for(m: usize) -> usize
    requires { m < 2 ^ 32 }
    ensures { result ≡ blocks_for m }
{
    1 + m.div_ceil(PER_BLOCK)
}

// Where signal i starts in a book that has it.
pub(crate) fn part_start(i: u32) -> usize
    requires { 1 ≤ i }
    ensures { result ≡ part_start i }
{
    let j = (i - 1) as usize;
    512 * (1 + j / PER_BLOCK) + 12 + PART_BYTES * (j % PER_BLOCK)
}
