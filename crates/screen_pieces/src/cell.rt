//! Cells in plain bytes.
ghost use Rattle.std.specs.Prelude.{◌≡◌, ◌≤◌, length, take, drop, map};
ghost use Rattle.std.specs.List.{All};
ghost use Rattle.std.specs.Bool.{OnTrue, OnFalse};
ghost use Rattle.ansi_screen.specs.declared.cell.Marks.TheVariants.{Unmarked};
ghost use Rattle.screen_pieces.specs.Cells.{cell_in, part_of, marks_of, IsPlain, KeepsForLater};
ghost use Rattle.ansi_style.specs.Bytes.{color_of, kind_of};

use crate::style::StyleRecord;
use ansi_screen::{Cell, Marks, Part};
use ansi_style::bytes::{ColorBytes, StyleBytes, flag, kind_number};

/// How many cells are looked at together.
const FEW: usize = 10;

/// How many bytes of a cell are kept for later, as for two more marks: they are 0.
pub const RESERVED_CELL: usize = 8;

/// The last of the kinds of colours that have a number at most.
const NUMBERED: u8 = 3;

/// What one place of a screen shows.
#[repr(C)]
#[derive(Clone, Copy)]
pub struct CellBytes {
    /// Its code point.
    pub character: u32,
    /// The marks that stand on it, of which `mark_count` count.
    pub first_mark: u32,
    pub second_mark: u32,
    /// The number of its link (OSC 8); 0 for none.
    pub link: u32,
    pub style: StyleRecord,
    /// 0, 1 or 2.
    pub mark_count: u8,
    /// 0 where nothing was printed, 1 a whole character, 2 the left half of a wide one, 3 its right half.
    pub part: u8,
    /// 1 where autowrap went on from it to the next row, else 0.
    pub goes_on: u8,
    pub reserved: [u8; RESERVED_CELL],
}

/// The number of a part.
fn part_number(part: Part) -> u8
    ensures { part_of result ≡ part }
{
    match part {
        Part::Empty => 0,
        Part::Whole => 1,
        Part::Left => 2,
        Part::Right => 3,
    }
}

/// How many marks there are, and which.
fn mark_numbers(marks: Marks) -> (u8, u32, u32)
    ensures { marks_of result.0 result.1 result.2 ≡ marks }
{
    match marks {
        Marks::Unmarked => (0, 0, 0),
        Marks::One(first) => (1, u32::from(first), 0),
        Marks::Two(first, second) => (2, u32::from(first), u32::from(second)),
    }
}

impl CellBytes {
    /// The bytes of a cell.
    pub fn of(cell: Cell) -> CellBytes
        ensures cell { cell_in result ≡ cell }
        ensures reserved { KeepsForLater result }
    {
        let (mark_count, first_mark, second_mark) = mark_numbers(cell.marks);
        CellBytes {
            character: u32::from(cell.character),
            first_mark,
            second_mark,
            link: cell.link,
            style: StyleRecord::of(StyleBytes::of(cell.style)),
            mark_count,
            part: part_number(cell.part),
            goes_on: u8::from(cell.goes_on),
            reserved: [0; RESERVED_CELL],
        }
    }
}

/// How many marks there are.
#[inline(always)]
fn mark_count(marks: &Marks) -> u8
    ensures { result ≡ 0 → marks.now ≡ Unmarked }
{
    match *marks {
        Marks::Unmarked => 0,
        Marks::One(_) => 1,
        Marks::Two(_, _) => 2,
    }
}

/// 0 where a cell has no marks and the terminal's own background, as most have: bits, so that those of many cells are
/// soon put together.
#[inline(always)]
fn beside(cell: &Cell) -> u8
    ensures { result ≡ 0 → IsPlain (kind_of cell.now.style.foreground) cell.now }
{
    kind_number(&cell.style.background) | mark_count(&cell.marks)
}

/// The bytes of such a cell, of whose foreground these are the bytes.
#[inline(always)]
fn with_foreground(cell: &Cell, foreground: ColorBytes) -> CellBytes
    requires plain { IsPlain 3 cell.now }
    requires foreground { color_of foreground ≡ cell.now.style.foreground }
    ensures cell { cell_in result ≡ cell.now }
    ensures reserved { KeepsForLater result }
{
    CellBytes {
        character: u32::from(cell.character),
        first_mark: 0,
        second_mark: 0,
        link: cell.link,
        style: StyleRecord::of(StyleBytes::with(&cell.style, foreground, ColorBytes::own())),
        mark_count: 0,
        part: part_number(cell.part),
        goes_on: flag(cell.goes_on),
        reserved: [0; RESERVED_CELL],
    }
}

/// Writes the bytes of a cell where that is soon done: where it is such a cell, and its foreground has a number at
/// most.
#[inline(always)]
pub(crate) fn put_plain(cell: &Cell, room: &mut CellBytes) -> bool
    ensures written { OnTrue result (cell_in room.new ≡ cell.now) }
    ensures reserved { OnTrue result (KeepsForLater room.new) }
    ensures refused { OnFalse result (room.new ≡ room.old) }
{
    let kind = kind_number(&cell.style.foreground);
    if beside(cell) != 0 {
        return false;
    }
    let foreground = if kind == 0 {
        ColorBytes::own()
    } else if kind > NUMBERED {
        return false;
    } else {
        ColorBytes::by_number(&cell.style.foreground)
    };
    *room = with_foreground(cell, foreground);
    true
}

/// Writes the bytes of any cell, out of line: else LLVM puts together what this and a bare cell write.
#[cold]
#[inline(never)]
fn put_any(cell: &Cell, room: &mut CellBytes)
    ensures cell { cell_in room.new ≡ cell.now }
    ensures reserved { KeepsForLater room.new }
{
    let (mark_count, first_mark, second_mark) = mark_numbers(cell.marks);
    room.first_mark = first_mark;
    room.second_mark = second_mark;
    room.mark_count = mark_count;
    room.style = StyleRecord::of(StyleBytes::with(
        &cell.style,
        ColorBytes::of(cell.style.foreground),
        ColorBytes::of(cell.style.background),
    ));
    room.character = u32::from(cell.character);
    room.link = cell.link;
    room.part = part_number(cell.part);
    room.goes_on = flag(cell.goes_on);
    room.reserved = [0; RESERVED_CELL];
}

/// Writes the bytes of a cell.
#[inline(always)]
pub(crate) fn put_cell(cell: &Cell, room: &mut CellBytes)
    ensures cell { cell_in room.new ≡ cell.now }
    ensures reserved { KeepsForLater room.new }
{
    if !put_plain(cell, room) {
        put_any(cell, room);
    }
}

/// 0 where all cells have no marks and the terminal's own background; and a number that is at least that of each
/// foreground's kind.
#[inline(always)]
fn kinds(cells: &[Cell]) -> (u8, u8)
    ensures { result.0 ≡ 0 → All (IsPlain result.1) cells.now }
{
    let mut others = 0;
    let mut most = 0;
    for cell in cells {
        others = others | beside(cell);
        most = most | kind_number(&cell.style.foreground);
    }
    (others, most)
}

/// Writes cells in the terminal's own colours, without marks, to the front of the room.
#[inline(always)]
fn put_bare(cells: &[Cell], room: &mut [CellBytes])
    requires bare { All (IsPlain 0) cells.now }
    requires room { length cells.now ≤ length room.old }
    ensures written { map cell_in (take (length cells.now) room.new) ≡ cells.now }
    ensures reserved { All KeepsForLater (take (length cells.now) room.new) }
    ensures rest { drop (length cells.now) room.new ≡ drop (length cells.now) room.old }
{
    for (place, cell) in cells.iter().enumerate() {
        room[place] = with_foreground(cell, ColorBytes::own());
    }
}

/// Writes cells to the front of the room that have no marks, the terminal's own background, and foregrounds that have a
/// number at most.
#[inline(always)]
fn put_numbered(cells: &[Cell], room: &mut [CellBytes])
    requires plain { All (IsPlain 3) cells.now }
    requires room { length cells.now ≤ length room.old }
    ensures written { map cell_in (take (length cells.now) room.new) ≡ cells.now }
    ensures reserved { All KeepsForLater (take (length cells.now) room.new) }
    ensures rest { drop (length cells.now) room.new ≡ drop (length cells.now) room.old }
{
    for (place, cell) in cells.iter().enumerate() {
        room[place] = with_foreground(cell, ColorBytes::by_number(&cell.style.foreground));
    }
}

/// Writes any cells to the front of the room.
#[cold]
#[inline(never)]
fn put_each(cells: &[Cell], room: &mut [CellBytes])
    requires { length cells.now ≤ length room.old }
    ensures written { map cell_in (take (length cells.now) room.new) ≡ cells.now }
    ensures reserved { All KeepsForLater (take (length cells.now) room.new) }
    ensures rest { drop (length cells.now) room.new ≡ drop (length cells.now) room.old }
{
    for (place, cell) in cells.iter().enumerate() {
        put_cell(cell, &mut room[place]);
    }
}

/// The same, of a few that are looked at together.
#[inline(always)]
fn put_few(cells: &[Cell], room: &mut [CellBytes])
    requires { length cells.now ≤ length room.old }
    ensures written { map cell_in (take (length cells.now) room.new) ≡ cells.now }
    ensures reserved { All KeepsForLater (take (length cells.now) room.new) }
    ensures rest { drop (length cells.now) room.new ≡ drop (length cells.now) room.old }
{
    let (others, most) = kinds(cells);
    if others != 0 || most > NUMBERED {
        put_each(cells, room);
    } else if most == 0 {
        put_bare(cells, room);
    } else {
        put_numbered(cells, room);
    }
}

/// Writes the cells to the front of the room.
pub(crate) fn put_cells(cells: &[Cell], room: &mut [CellBytes])
    requires { length cells.now ≤ length room.old }
    ensures written { map cell_in (take (length cells.now) room.new) ≡ cells.now }
    ensures reserved { All KeepsForLater (take (length cells.now) room.new) }
    ensures rest { drop (length cells.now) room.new ≡ drop (length cells.now) room.old }
{
    let mut done = 0;
    'tens: while FEW <= cells.len() - done {
        put_few(&cells[done..done + FEW], &mut room[done..done + FEW]);
        done += FEW;
    }
    put_each(&cells[done..], &mut room[done..cells.len()]);
}
