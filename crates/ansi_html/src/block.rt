//! The element of a block of lines, as each writer of HTML in blocks writes it.
ghost use Rattle.anstyle_parse.specs.Io.Output.{Adds};
ghost use Rattle.ansi_html.specs.Blocks.{block_begin, block_end};

use anstyle_parse::io::{Output, Sink};

/// The lines that a block has.
pub const LINES_A_BLOCK: u64 = 500;

/// Begins the element of a block: a browser may lay out blocks one by one.
#[inline(never)]
pub fn put_block_begin<W: Sink>(output: &mut Output<W>)
    ensures { Adds W.Sink block_begin output.old output.new }
{
    output.put(b"<span data-lines=\"500\">");
}

/// Ends it.
#[inline(never)]
pub fn put_block_end<W: Sink>(output: &mut Output<W>)
    ensures { Adds W.Sink block_end output.old output.new }
{
    output.put(b"</span>");
}
