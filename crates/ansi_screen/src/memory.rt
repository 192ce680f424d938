//! Memory for rows, to which nothing is written before they are used.
ghost use Rattle.std.specs.Prelude.{◌≡◌, ◌≤◌, [], length, replicate, IfOk};
ghost use Rattle.std.specs.Vec.{vec_capacity};
ghost use Rattle.ansi_style.specs.Style.{plain};
ghost use Rattle.ansi_screen.specs.Cells.{blank};

use crate::cell::Cell;
use crate::row::Row;
use ansi_style::Style;
use std::alloc::{AllocError, Global};
use std::marker::Model;

/// Memory for the cells of a row.
#[derive(Drop)]
pub(crate) struct RowMemory {
    cells: Vec<Cell>,
    width: usize,
}

impl Model for RowMemory {
    ghost use Rattle.std.specs.Prelude.{◌≡◌, ◌≤◌, ℕ, []};
    ghost use Rattle.std.specs.Vec.{vec_capacity};

    // How many cells it has room for.
    ghost Value = { ℕ };

    ghost view = { λ memory. memory.width };

    ghost invariant = { λ memory. (memory.cells.items ≡ []) × (memory.width ≤ vec_capacity memory.cells) };
}

impl RowMemory {
    /// For so many cells. `Err` means that memory is wanting.
    fn new(alloc: Global, width: usize) -> Result<RowMemory, AllocError>
        ensures { IfOk result (λ memory. memory ≡ width) }
    {
        let cells = Vec::with_capacity(alloc, width)?;
        Ok(RowMemory { cells, width })
    }

    /// A blank row in this memory.
    pub(crate) fn into_row(self) -> Row
        ensures { result ≡ replicate self (blank plain) }
    {
        let RowMemory { mut cells, width } = self;
        // (it has room for them)
        let _ = cells.resize(width, Cell::blank(Style::default()));
        Row::of_blanks(cells, width)
    }
}

/// For so many rows, each of so many cells.
pub(crate) fn memory_for_rows(
    alloc: Global,
    width: usize,
    count: usize,
) -> Result<Vec<RowMemory>, AllocError>
    ensures { IfOk result (λ memory. memory.items ≡ replicate count width) }
{
    let mut memory = Vec::with_capacity(alloc, count)?;
    for _row in 0..count {
        memory.push(RowMemory::new(alloc, width)?)?;
    }
    Ok(memory)
}

/// Blank rows in this memory, in a list that has room for them.
pub(crate) fn into_rows(mut memory: Vec<RowMemory>, width: usize, mut rows: Vec<Row>) -> Vec<Row>
    requires none { rows.items ≡ [] }
    requires widths { memory.items ≡ replicate (length memory.items) width }
    requires room { length memory.items ≤ vec_capacity rows }
    ensures { result.items ≡ replicate (length memory.items) (replicate width (blank plain)) }
{
    while let Some(cells) = memory.pop() {
        let _ = rows.push(cells.into_row());
    }
    rows
}
