// A book to be written: its words by given settings and a given list, and their bytes; this crate's alone.
// Promises: each word is the definition's at its place, and the room behind the book stays.
ghost use Rattle.std.specs.Prelude.{◌≡◌, ◌-◌, ◌*◌, ◌<◌, ◌≤◌, MatchOption, length, slice_index};
ghost use Rattle.terms.specs.Lists.{CountInRange, count};
ghost use Rattle.book.specs.Words.{bytes_of, bytes_over};
ghost use Rattle.book.specs.Blocks.{settings_words, signal_words, body_word, block_word, blocks_for, book_word};

use crate::layout::{SECTION_WORDS, blocks_for, kind_of, signals_in};
use crate::words::put_word;
use terms::Settings;

// The settings, and the list of a right count, that a book is to hold.
#[derive(Clone, Copy)]
pub(crate) struct NewBook<'a> {
    settings: Settings,
    list: &'a [u32],
    ghost in_range: { CountInRange list.now },
}

impl<'a> NewBook<'a> {
    // The book of the settings and the list, if the count is right.
    pub(crate) fn of(settings: Settings, list: &'a [u32]) -> Option<Self>
        ensures { MatchOption result (CountInRange list.now → ⊥)
            (λ book. (book.settings ≡ settings) × (book.list.now ≡ list.now)) }
    {
        if !terms::count_in_range(list) {
            return None;
        }
        Some(Self { settings, list })
    }

    fn signals(self) -> u32
        ensures { result ≡ count self.entry.list.now }
    {
        terms::count(self.list) as u32
    }

    pub(crate) fn blocks(self) -> u32
        ensures { result ≡ blocks_for (count self.entry.list.now) }
    {
        blocks_for(self.signals() as usize) as u32
    }

    // Word w of the settings block, behind its kind and before its check.
    #[tactic(auto, unfolding(crate::specs::Blocks::settings_words))]
    fn settings_word(self, w: usize) -> u32
        requires { 2 ≤ w }
        ensures { result ≡ slice_index (settings_words self.entry.settings (count self.entry.list.now)) (w - 2) }
    {
        let s = self.settings;
        let m = self.signals();
        word_or_zero(&[s.cycle, s.slot, s.slots, s.packing, s.payload, m], w - 2)
    }

    // Word w of signal block k, behind its kind and before its check.
    #[tactic(auto, unfolding(crate::specs::Blocks::signal_words))]
    fn signal_word(self, k: u32, w: usize) -> u32
        requires { (0 < k) × (2 ≤ w) }
        ensures { result ≡ slice_index (signal_words self.entry.list.now k) (w - 2) }
    {
        let k = k as usize;
        if w == 2 {
            return signals_in(self.signals() as usize, k) as u32;
        }
        let d = w - 3;
        if SECTION_WORDS <= d {
            return 0;
        }
        word_or_zero(self.list, SECTION_WORDS * (k - 1) + d)
    }

    // Word w of block k before its check.
    fn body_word(self, k: u32, w: usize) -> u32
        ensures { result ≡ body_word self.entry.settings self.entry.list.now k w }
    {
        match (w, k) {
            (0, _) => k,
            (1, _) => kind_of(k as usize),
            (_, 0) => self.settings_word(w),
            _ => self.signal_word(k, w),
        }
    }

    // The words of block k into its bytes. The check is added with wrapping on purpose: 01 keeps the sum to 32 bits.
    fn put_block(self, k: u32, block: &mut [u8])
        requires { length block.old ≡ 512 }
        ensures { block.new ≡ bytes_of (block_word self.entry.settings self.entry.list.now k) 128 }
    {
        let mut check: u32 = 1;
        for w in 0..127 {
            let x = self.body_word(k, w);
            put_word(block, w, x);
            check = check.wrapping_add(x);
        }
        put_word(block, 127, check);
    }

    // The first words of the room become the book's; all that lies behind stays.
    pub(crate) fn fill(self, room: &mut [u8])
        requires { 512 * blocks_for (count self.list.now) ≤ length room.old }
        ensures { room.new
            ≡ bytes_over (book_word self.entry.settings self.entry.list.now)
            (128 * blocks_for (count self.entry.list.now)) room.old }
    {
        for k in 0..self.blocks() {
            let start = 512 * k as usize;
            self.put_block(k, &mut room[start..start + 512]);
        }
    }
}

// Word i of a list, or 0 past its end.
fn word_or_zero(words: &[u32], i: usize) -> u32
    ensures { result ≡ slice_index words.now i }
{
    words.get(i).copied().unwrap_or(0)
}
