//! How many columns a character takes.
ghost use Rattle.std.specs.Prelude.{◌≡◌, ◌≤◌};
ghost use Rattle.ansi_screen.specs.Widths.{is_shown, columns, IsTable};

mod table;

use table::{GROUPS, INDEX, WORDS};

/// How many characters a group of the table has, how many a word, and how many bits of the word each of them has.
const IN_GROUP: usize = 1024;

const IN_WORD: usize = 32;

const BITS: usize = 2;

/// Whether a printed character shows anything.
#[tactic(auto, unfolding(crate::specs::Widths::is_shown, anstyle_parse::specs::Stream::Bytes::is_within))]
pub fn is_shown(c: char) -> bool
    ensures { result ≡ is_shown c }
{
    !matches!(u32::from(c), 0..=0x1F | 0x7F..=0x9F)
}

/// How many columns a character takes, by a table.
#[inline(always)]
fn looked_up(index: &[u8], groups: &[[u8; IN_GROUP / IN_WORD]], words: &[u64], c: char) -> u16
    requires { IsTable index.now groups.now words.now }
    ensures { result ≡ columns c }
{
    let number = u32::from(c) as usize;
    let group = usize::from(index[number / IN_GROUP]);
    let word = usize::from(groups[group][number % IN_GROUP / IN_WORD]);
    ((words[word] >> (number % IN_WORD * BITS)) % 4) as u16
}

/// How many columns a character takes.
#[inline]
pub(crate) fn columns(c: char) -> u16
    ensures columns { result ≡ columns c }
    ensures few { result ≤ 2 }
{
    looked_up(&INDEX, &GROUPS, &WORDS, c)
}
