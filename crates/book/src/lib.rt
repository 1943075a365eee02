// The book of blocks: settings and a list of signals as bytes, read, written, and lent a signal at a time.
// Promises: each public routine's answer and every lent word and byte at exit are fixed by what it was given.
#![tactic(auto)]

mod layout;
mod reader;
mod words;
mod writer;

ghost use Rattle.std.specs.Prelude.{◌≡◌, ◌≢◌, unwrap_or};
ghost use Rattle.laws.specs.Given.{Given};
ghost use Rattle.book.specs.Part.{HasSignal, part_start};
ghost use Rattle.book.specs.Words.{bytes_after};
ghost use Rattle.book.specs.Outcomes.{ReadOutcome, SettingsOutcome, WriteOutcome, PartOutcome};

use layout::{PART_BYTES, part_start};
use reader::Book;
use terms::{Answer, Refusal, SIGNAL_WORDS, Settings};
use words::put_word;
use writer::NewBook;

// What reading a sound book gives beside its list: the settings, and how many signals there are.
#[derive(Clone, Copy, Debug, PartialEq, Eq)]
pub struct Reading {
    pub settings: Settings,
    pub signals: u32,
}

// The settings of a sound book, and its signals into the first words of the lent list.
pub fn read(book: &[u8], list: &mut [u32]) -> Result<Reading, Refusal>
    ensures { ReadOutcome book.now list.old result list.new }
{
    let book = Book::sound(book)?;
    let signals = book.signals();
    let count = SIGNAL_WORDS * signals as usize;
    if list.len() < count {
        return Err(Refusal::Room(count as u32));
    }
    book.copy_list(&mut list[..count]);
    Ok(Reading {
        settings: book.settings(),
        signals,
    })
}

// The settings of a sound book.
pub fn settings_of(book: &[u8]) -> Option<Settings>
    ensures { SettingsOutcome book.now result }
{
    Book::sound(book).ok().map(|book| book.settings())
}

// The book of the settings and the list into the first bytes of the lent room.
pub fn write(s: Settings, list: &[u32], room: &mut [u8]) -> Answer
    ensures { WriteOutcome s list.now room.old result room.new }
{
    let book = NewBook::of(s, list).ok_or(Refusal::Count)?;
    let blocks = book.blocks();
    let bytes = 512 * blocks;
    if room.len() < bytes as usize {
        return Err(Refusal::Room(bytes));
    }
    book.fill(room);
    Ok(blocks)
}

// The twenty bytes of signal i where they stand in a sound book; else, as 01 says, an empty part at byte 0.
pub fn part(book: &[u8], i: u32) -> &[u8]
    ensures { PartOutcome book.now book.entry.ref_ptr i result.now result.ref_ptr }
{
    match part_at(book, i) {
        Some(at) => &book[at..at + PART_BYTES],
        None => &book[0..0],
    }
}

// The byte of a sound book at which the part for signal i starts.
pub fn part_at(book: &[u8], i: u32) -> Option<usize>
    ensures given { Given (HasSignal book.now i) (λ p. p ≡ part_start i) (unwrap_or result 0) }
    ensures some { result ≢ Some 0 }
{
    let book = Book::sound(book).ok()?;
    (1..=book.signals()).contains(&i).then(|| part_start(i))
}

// Words as little-endian bytes into the first bytes of the lent room; nothing where the room is too short for all.
pub fn put_words(list: &[u32], room: &mut [u8])
    ensures { room.new ≡ bytes_after list.now room.old }
{
    if room.len() / 4 < list.len() {
        return;
    }
    for (p, word) in list.iter().enumerate() {
        put_word(room, p, *word);
    }
}
