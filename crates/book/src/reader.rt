// The tests of a book's blocks, in the order of the refusals 1 to 5, and what a sound book holds; this crate's alone.
// Promises: each test decides its fact, the block found is the first without it, and the refusal is that of the rows.
ghost use Rattle.std.specs.Prelude.{◌≡◌, ◌-◌, ◌*◌, ◌<◌, ◌≤◌, Err, IfOk, IfErr, MatchOption, length};
ghost use Rattle.laws.specs.Says.{Says};
ghost use Rattle.laws.specs.Rows.{Hold};
ghost use Rattle.terms.specs.Answers.{Answers};
ghost use Rattle.book.specs.Words.{up_to, check_of};
ghost use Rattle.book.specs.Blocks.{section_size};
ghost use Rattle.book.specs.Reading.{blocks_in, in_block, signals_of, used_in, book_rows, settings_in, list_word};
ghost use Rattle.book.specs.Reading.{LengthRight, CheckRight, KindRight, CountRight, ZerosRight};

use crate::layout::{SECTION_WORDS, blocks_for, kind_of, signals_in};
use crate::words::word;
use terms::{MOST_SIGNALS, Refusal, SIGNAL_WORDS, Settings};

// A book of a right length: some blocks, whole and at most 26.
#[derive(Clone, Copy)]
pub(crate) struct Book<'a> {
    bytes: &'a [u8],
    ghost whole: { LengthRight bytes.now },
}

// A block of a book, by its number.
#[derive(Clone, Copy)]
struct Block<'a> {
    book: Book<'a>,
    number: usize,
    ghost in_book: { number < blocks_in book.bytes.now },
}

impl Block<'_> {
    // Word w of the block.
    fn word(self, w: usize) -> u32
        requires { w < 128 }
        ensures { result ≡ in_block self.entry.book.bytes.now self.entry.number w }
    {
        word(self.book.bytes, 128 * self.number + w)
    }

    // The check that the block should have, added with wrapping on purpose: 01 keeps the sum to 32 bits.
    fn check(self) -> u32
        ensures { result ≡ check_of (in_block self.entry.book.bytes.now self.entry.number) }
    {
        let mut check: u32 = 1;
        for w in 0..127 {
            check = check.wrapping_add(self.word(w));
        }
        check
    }

    // How many words of the block are its own.
    fn used(self) -> usize
        ensures { result ≡ used_in (signals_of self.entry.book.bytes.now) self.entry.number }
    {
        match self.number {
            0 => 8,
            k => 3 + SIGNAL_WORDS * signals_in(self.book.signals() as usize, k),
        }
    }

    // Whether the block has the check that it should have.
    fn has_check(self) -> bool
        ensures { Says (CheckRight self.entry.book.bytes.now self.entry.number) result }
    {
        self.word(127) == self.check()
    }

    // Whether the block has its own number and kind.
    fn has_kind(self) -> bool
        ensures { Says (KindRight self.entry.book.bytes.now self.entry.number) result }
    {
        self.word(0) as usize == self.number && self.word(1) == kind_of(self.number)
    }

    // Whether the block has a right count: the settings block that of signals and blocks, a signal block its share.
    fn has_count(self) -> bool
        ensures { Says (CountRight self.entry.book.bytes.now self.entry.number) result }
    {
        let m = self.book.signals() as usize;
        match self.number {
            0 => m <= MOST_SIGNALS && self.book.blocks() as usize == blocks_for(m),
            k => self.word(2) as usize == signals_in(m, k),
        }
    }

    // Whether the words of the block behind its own are zero, up to the check.
    fn has_zeros(self) -> bool
        ensures { Says (ZerosRight self.entry.book.bytes.now self.entry.number) result }
    {
        (self.used()..127).all(|w| self.word(w) == 0)
    }
}

impl<'a> Book<'a> {
    ghost use Rattle.book.specs.Private.{EachRight};

    // The book in these bytes, if their length is right.
    pub(crate) fn whole(bytes: &'a [u8]) -> Option<Self>
        ensures { MatchOption result (LengthRight bytes.now → ⊥) (λ book. book.bytes.now ≡ bytes.now) }
    {
        if bytes.is_empty() || bytes.len() % 512 != 0 || 26 < bytes.len() / 512 {
            return None;
        }
        Some(Self { bytes })
    }

    // The book in these bytes, if it is sound; else the refusal by 1 to 5.
    pub(crate) fn sound(bytes: &'a [u8]) -> Result<Self, Refusal>
        ensures sound { IfOk result (λ book. (book.bytes.now ≡ bytes.now) × Hold (book_rows bytes.now)) }
        ensures refused { IfErr result (λ e. Answers (book_rows bytes.now) (λ p. p ≡ signals_of bytes.now) (Err e)) }
    {
        let book = Self::whole(bytes).ok_or(Refusal::Length)?;
        book.each(Block::has_check).map_err(Refusal::Check)?;
        book.each(Block::has_kind).map_err(Refusal::Kind)?;
        book.each(Block::has_count).map_err(|_| Refusal::Count)?;
        book.each(Block::has_zeros).map_err(Refusal::Zero)?;
        Ok(book)
    }

    fn blocks(self) -> u32
        ensures { result ≡ blocks_in self.entry.bytes.now }
    {
        (self.bytes.len() / 512) as u32
    }

    // Whether the test says that each block is right, or the first of which it does not.
    fn each<F: Fn(Block<'a>) -> bool>(self, right: F) -> Result<(), u32>
        requires { F.IsAlwaysCallable right }
        ensures { EachRight self.entry (λ block says. F.post right block says) result }
    {
        for k in 0..self.blocks() {
            if !right(self.block(k as usize)) {
                return Err(k);
            }
        }
        Ok(())
    }

    fn block(self, number: usize) -> Block<'a>
        requires { number < blocks_in self.bytes.now }
        ensures { (result.book ≡ self.entry) × (result.number ≡ number) }
    {
        Block { book: self, number }
    }

    // The signal count m.
    pub(crate) fn signals(self) -> u32
        ensures { result ≡ signals_of self.entry.bytes.now }
    {
        self.block(0).word(7)
    }

    pub(crate) fn settings(self) -> Settings
        ensures { result ≡ settings_in self.entry.bytes.now }
    {
        let block = self.block(0);
        Settings {
            cycle: block.word(2),
            slot: block.word(3),
            slots: block.word(4),
            packing: block.word(5),
            payload: block.word(6),
        }
    }

    // The first words of the signals into a list, block by block.
    pub(crate) fn copy_list(self, list: &mut [u32])
        requires { length list.old ≤ section_size * (blocks_in self.bytes.now - 1) }
        ensures { list.new ≡ up_to (list_word self.entry.bytes.now) (length list.old) }
    {
        for (i, word) in list.iter_mut().enumerate() {
            *word = self
                .block(1 + i / SECTION_WORDS)
                .word(3 + i % SECTION_WORDS);
        }
    }
}
