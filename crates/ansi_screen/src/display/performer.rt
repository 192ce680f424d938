//! What control characters and sequences do to a display.
ghost use Rattle.std.specs.Prelude.{◌≡◌, ◌<◌, drop};
ghost use Rattle.anstyle_parse.specs.Views.Params.{groups_shown, groups_left};
ghost use Rattle.ansi_screen.specs.State.{changed, stepped};
ghost use Rattle.ansi_screen.specs.After.{first_of, second_of, is_bare, count, edited, moved, set, controlled, sequenced, executed, escaped, designated};

use super::Display;
use super::modes::first_field;
use crate::function::{Edit, Function, Move, Setting};
use anstyle_parse::{Params, ParamsIter};

/// The first field of the next group; 0, where there is no group left.
fn next_field(groups: &mut ParamsIter<'_>) -> u16
    ensures field { result ≡ first_of (groups_left groups.old) }
    ensures left { groups_left groups.new ≡ drop 1 (groups_left groups.old) }
{
    match groups.next() {
        Some(group) => first_field(group),
        None => 0,
    }
}

/// The first field of the first group; 0, where there is none.
pub(crate) fn first_of(params: &Params) -> u16
    ensures { result ≡ first_of (groups_shown params.now) }
{
    next_field(&mut params.iter())
}

/// The first fields of the first group and of the second; 0, where there is none.
fn two_fields(params: &Params) -> (u16, u16)
    ensures first { result.0 ≡ first_of (groups_shown params.now) }
    ensures second { result.1 ≡ second_of (groups_shown params.now) }
{
    let mut groups = params.iter();
    let first = next_field(&mut groups);
    let second = next_field(&mut groups);
    (first, second)
}

/// Whether no number is given. (After a number the same final bytes are other functions, such as DECSLRM.)
fn is_bare(params: &Params) -> bool
    ensures { result ≡ is_bare (groups_shown params.now) }
{
    let mut groups = params.iter();
    next_field(&mut groups) == 0 && groups.next().is_none()
}

impl Display {
    #[tactic(auto, unfolding(crate::specs::After::edited))]
    fn edit(&mut self, edit: Edit, number: u16)
        requires { self.old.display.cursor.column < self.old.display.width }
        ensures { self.new ≡ stepped (edited edit number) self.old }
    {
        let count = number.max(1);
        match edit {
            Edit::InsertCharacters => self.insert_characters(count),
            Edit::EraseInDisplay => self.erase_display(number),
            Edit::EraseInLine => self.erase_line(number),
            Edit::InsertLines => self.insert_lines(count),
            Edit::DeleteLines => self.delete_lines(count),
            Edit::DeleteCharacters => self.delete_characters(count),
            Edit::EraseCharacters => self.erase_characters(count),
        }
    }

    #[tactic(auto, unfolding(crate::specs::After::moved))]
    fn go(&mut self, to: Move, number: u16, column: u16)
        ensures { self.new ≡ changed (moved to number column) self.old }
    {
        let count = number.max(1);
        match to {
            Move::Up => self.up(count),
            Move::Down => self.down(count),
            Move::Forward => self.forward(count),
            Move::Back => self.back(count),
            Move::NextLine => {
                self.down(count);
                self.to_column(0);
            }
            Move::PrecedingLine => {
                self.up(count);
                self.to_column(0);
            }
            Move::Column => self.to_column(usize::from(count - 1)),
            Move::Line => self.to_line(count - 1),
            Move::LineForward => self.lines_forward(count),
            Move::Position => self.to_position(count - 1, column.max(1) - 1),
            Move::BackTab => self.tab_back(count),
        }
    }

    #[tactic(auto, unfolding(crate::specs::After::set))]
    fn set(&mut self, setting: Setting, params: &Params)
        ensures { self.new ≡ stepped (set setting (groups_shown params.now)) self.old }
    {
        let (first, second) = two_fields(params);
        match setting {
            Setting::Rendition => self.select_style(params),
            Setting::SetModes => self.set_modes(true, params),
            Setting::ResetModes => self.set_modes(false, params),
            Setting::Margins => self.set_margins(first, second),
            Setting::ScrollUp => self.scroll_up(first.max(1)),
            Setting::ScrollDown => self.scroll_down(first.max(1)),
            Setting::ForwardTab => self.tab_times(first.max(1)),
            Setting::ClearStops => self.clear_stops(first),
            Setting::SaveCursor => {
                if is_bare(params) {
                    self.save();
                }
            }
            Setting::RestoreCursor => {
                if is_bare(params) {
                    self.restore();
                }
            }
        }
    }

    #[tactic(auto, unfolding(crate::specs::After::controlled))]
    fn control(&mut self, function: Function, params: &Params)
        ensures { self.new ≡ stepped (controlled function (groups_shown params.now)) self.old }
    {
        match function {
            Function::Edits(edit) => {
                let (number, _) = two_fields(params);
                if edit.is_known(number) {
                    self.settle();
                    self.edit(edit, number);
                }
            }
            Function::Moves(to) => {
                let (number, column) = two_fields(params);
                self.settle();
                self.go(to, number, column);
            }
            Function::Sets(setting) => self.set(setting, params),
            Function::Nothing => {}
        }
    }

    /// A control sequence of which nothing was dropped.
    #[tactic(auto, unfolding(crate::specs::After::sequenced))]
    pub(crate) fn sequence(&mut self, params: &Params, intermediates: &[u8], final_byte: u8)
        ensures { self.new ≡ stepped (sequenced (groups_shown params.now) intermediates.now final_byte) self.old }
    {
        match intermediates {
            [] => self.control(Function::of(final_byte), params),
            [mark] => {
                if *mark == b'?' && final_byte == b'h' {
                    self.set_private_modes(true, params);
                } else if *mark == b'?' && final_byte == b'l' {
                    self.set_private_modes(false, params);
                } else if *mark == b'!' && final_byte == b'p' {
                    self.soft_reset();
                }
            }
            _ => {}
        }
    }

    /// A control.
    #[tactic(auto, unfolding(crate::specs::After::executed))]
    pub(crate) fn execute(&mut self, byte: u8)
        ensures { self.new ≡ stepped (executed byte) self.old }
    {
        match byte {
            0x08 => {
                self.settle();
                self.back(1);
            }
            b'\t' => self.tab(),
            b'\n' | 0x0B | 0x0C => {
                self.settle();
                self.index();
            }
            b'\r' => self.to_column(0),
            0x0E => self.shift(true),
            0x0F => self.shift(false),
            _ => {}
        }
    }

    /// An escape sequence without intermediates.
    #[tactic(auto, unfolding(crate::specs::After::escaped))]
    fn escape(&mut self, final_byte: u8)
        ensures { self.new ≡ stepped (escaped final_byte) self.old }
    {
        match final_byte {
            b'7' => self.save(),
            b'8' => self.restore(),
            b'D' => {
                self.settle();
                self.index();
            }
            b'E' => {
                self.to_column(0);
                self.index();
            }
            b'H' => self.set_stop(true),
            b'M' => {
                self.settle();
                self.reverse_index();
            }
            b'c' => self.reset(),
            _ => {}
        }
    }

    /// An escape sequence of which nothing was dropped.
    #[tactic(auto, unfolding(crate::specs::After::designated))]
    pub(crate) fn designate(&mut self, intermediates: &[u8], final_byte: u8)
        ensures { self.new ≡ stepped (designated intermediates.now final_byte) self.old }
    {
        match intermediates {
            [] => self.escape(final_byte),
            [mark] => self.set_charset(*mark, final_byte),
            _ => {}
        }
    }
}
