//! Pieces of streams, as programs write them, from which documents are put together.

use crate::random::Random;
use std::alloc::{AllocError, Global};

/// How many pieces of a kind there are, of which a document is a random row.
pub const PIECES: usize = 1024;

const SMALL: &[u8; 26] = b"abcdefghijklmnopqrstuvwxyz";

const CAPITALS_AND_MARKS: &[u8; 26] = b"ABCDEF0123456789.,-_/:=()[";

/// What programs select for words: named, 256 and red-green-blue colours, and attributes.
const STYLES: [&str; 16] = [
    "0",
    "1",
    "31",
    "32",
    "33",
    "36",
    "1;31",
    "1;32",
    "1;33",
    "2",
    "4:3",
    "7",
    "38;5;208",
    "48;5;24",
    "38;2;255;0;17",
    "1;38;5;33;48;5;231",
];

/// Words of two to four bytes a character.
const FOREIGN: [&str; 8] = [
    "größe",
    "été",
    "Übung",
    "señal",
    "的一是在",
    "不了有和人",
    "🚀🎉",
    "│─└├──",
];

/// What moves rows within margins, and the ends of such: insert and delete lines, scroll up and down.
const ROW_MOVES: [u8; 4] = *b"LMST";

/// A stream that is being written.
#[derive(Drop)]
pub struct Writing {
    pub bytes: Vec<u8>,
}

impl Writing {
    /// An empty one.
    pub fn new(alloc: Global) -> Writing {
        Writing {
            bytes: Vec::new(alloc),
        }
    }

    fn put(&mut self, text: &str) -> Result<(), AllocError> {
        self.bytes.extend_from_slice(text.as_bytes())
    }

    fn put_byte(&mut self, byte: u8) -> Result<(), AllocError> {
        self.bytes.push(byte).map_err(|_| AllocError)
    }

    /// A number in decimals.
    fn put_number(&mut self, number: usize) -> Result<(), AllocError> {
        let number = number % 1000;
        if number >= 100 {
            self.put_digit(number / 100)?;
        }
        if number >= 10 {
            self.put_digit(number / 10)?;
        }
        self.put_digit(number)
    }

    /// The last digit of a number.
    fn put_digit(&mut self, number: usize) -> Result<(), AllocError> {
        self.put_byte(b'0' + (number % 10) as u8)
    }

    /// A word of two to nine letters.
    fn put_word(&mut self, random: &mut Random, letters: &[u8; 26]) -> Result<(), AllocError> {
        for _ in 0..random.between(2, 9) {
            self.put_byte(letters[random.below(26)])?;
        }
        Ok(())
    }

    /// So many words, and spaces between and after them.
    fn put_words(&mut self, random: &mut Random, count: usize) -> Result<(), AllocError> {
        for _ in 0..count {
            self.put_word(random, SMALL)?;
            if random.below(4) == 0 {
                self.put_word(random, CAPITALS_AND_MARKS)?;
            }
            self.put(" ")?;
        }
        Ok(())
    }

    /// A selection of a style (SGR).
    fn put_style(&mut self, random: &mut Random) -> Result<(), AllocError> {
        self.put("\x1B[")?;
        self.put(STYLES[random.below(16)])?;
        self.put("m")
    }

    /// A cursor position (CUP).
    fn put_position(&mut self, row: usize, column: usize) -> Result<(), AllocError> {
        self.put("\x1B[")?;
        self.put_number(row)?;
        self.put(";")?;
        self.put_number(column)?;
        self.put("H")
    }

    /// A word within a link (OSC 8).
    fn put_link(&mut self, random: &mut Random) -> Result<(), AllocError> {
        self.put("\x1B]8;;https://example.com/")?;
        self.put_word(random, SMALL)?;
        self.put("\x1B\\")?;
        self.put_words(random, 2)?;
        self.put("\x1B]8;;\x1B\\")
    }

    /// A line of a log: of a build, a test run, a search.
    pub fn put_log_line(&mut self, random: &mut Random) -> Result<(), AllocError> {
        match random.below(10) {
            0 | 1 => self.put_words(random, 11)?,
            2 => {
                for _ in 0..8 {
                    self.put(FOREIGN[random.below(8)])?;
                    self.put(" ")?;
                }
            }
            3 => self.put_link(random)?,
            4 | 5 => {
                self.put("\x1B[35m")?;
                self.put_word(random, SMALL)?;
                self.put("\x1B[m\x1B[36m:\x1B[m\x1B[32m")?;
                self.put_number(random.below(1000))?;
                self.put("\x1B[m\x1B[36m:\x1B[m    ")?;
                self.put_words(random, 3)?;
                self.put("\x1B[1;31m\x1B[K")?;
                self.put_word(random, SMALL)?;
                self.put("\x1B[m\x1B[K ")?;
                self.put_words(random, 4)?;
            }
            _ => {
                for _ in 0..random.between(1, 8) {
                    self.put_style(random)?;
                    self.put_words(random, 1)?;
                }
                self.put("\x1B[0m")?;
            }
        }
        self.put("\r\n")
    }

    /// A step of a progress bar, or a line of a log.
    pub fn put_progress(&mut self, random: &mut Random) -> Result<(), AllocError> {
        if random.below(3) == 0 {
            return self.put_log_line(random);
        }
        self.put("\r\x1B[2K\x1B[1m")?;
        self.put_word(random, SMALL)?;
        self.put("\x1B[0m [\x1B[32m")?;
        let done = random.below(31);
        for at in 0..30 {
            self.put(if at < done { "#" } else { "." })?;
        }
        self.put("\x1B[0m] ")?;
        self.put_number(done)?;
        self.put("/30 ")?;
        self.put_words(random, 2)
    }

    /// What a full-screen program draws at once: a part of a row, somewhere.
    pub fn put_part_of_frame(&mut self, random: &mut Random) -> Result<(), AllocError> {
        let row = random.between(1, 40);
        self.put_words_at(row, random)?;
        match random.below(4) {
            0 => self.put("\x1B[K"),
            1 => self.put("\x1B[?25l\x1B[m"),
            _ => self.put("\x1B[m"),
        }
    }

    /// What a full-screen program writes at once, while the cursor is hidden: parts of a row and of the rows below it,
    /// and in one of three frames of a line of status too. Then it goes to its place.
    pub fn put_frame(&mut self, random: &mut Random) -> Result<(), AllocError> {
        self.put("\x1B[?25l")?;
        let first = random.between(1, 34);
        let parts = random.between(2, 6);
        for row in first..first + parts {
            self.put_part_of_row(row, random)?;
        }
        if random.below(3) == 0 {
            self.put_part_of_row(40, random)?;
        }
        self.put_position(first, random.between(1, 100))?;
        self.put("\x1B[?25h")
    }

    /// Words of one style, somewhere in a row.
    fn put_words_at(&mut self, row: usize, random: &mut Random) -> Result<(), AllocError> {
        self.put_position(row, random.between(1, 100))?;
        self.put_style(random)?;
        match random.below(4) {
            0 => self.put(FOREIGN[random.below(8)]),
            1 => self.put_words(random, 6),
            _ => self.put_words(random, 2),
        }
    }

    /// Such words; where they end, the rest of one row in four is erased.
    fn put_part_of_row(&mut self, row: usize, random: &mut Random) -> Result<(), AllocError> {
        self.put_words_at(row, random)?;
        if random.below(4) == 0 {
            self.put("\x1B[K")?;
        }
        self.put("\x1B[m")
    }

    /// What an editor or a pager does to rows: it scrolls within margins, or inserts and deletes lines, and
    /// writes the row that came.
    pub fn put_row_move(&mut self, random: &mut Random) -> Result<(), AllocError> {
        match random.below(6) {
            0 => {
                // (down a page, above a line of status)
                self.put("\x1B[1;39r\x1B[39;1H\n")?;
            }
            1 => self.put("\x1B[1;39r\x1B[1;1H\x1BM")?,
            2 => {
                let top = random.between(1, 20);
                self.put("\x1B[")?;
                self.put_number(top)?;
                self.put(";")?;
                self.put_number(random.between(top + 1, 40))?;
                self.put("r")?;
                self.put_position(top, 1)?;
                self.put(if random.below(2) == 0 {
                    "\x1BM"
                } else {
                    "\x1B[M"
                })?;
            }
            3 => self.put("\x1B[r\x1B[1;1H\x1BM")?,
            _ => {
                self.put("\x1B[r")?;
                self.put_position(random.between(1, 40), 1)?;
                self.put("\x1B[")?;
                self.put_number(random.between(1, 3))?;
                self.put_byte(ROW_MOVES[random.below(4)])?;
            }
        }
        self.put_words(random, 2)
    }
}
