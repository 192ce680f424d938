//! The names of files, as a page shows them: in its headings, and as its title.
ghost use Rattle.std.specs.Prelude.{◌≡◌, ◌++◌, map, option_copied, string_bytes, IfOk};
ghost use Rattle.anstyle_parse.specs.Stream.Texts.{text_calls};
ghost use Rattle.ansi2html.specs.Names.{title_by, title_of, visible};

use crate::form::TITLE;
use anstyle_parse::PerformText;
use anstyle_parse::io::{CallWriter, FromWrite, Output, WritingPerformer};
use command_line::file_name;
use safe_text::SafeWriter;
use safe_text::laws::whole;
use std::alloc::{AllocError, Global};

/// The title of the page of these files, where none is given: of one file the last part of its name. It takes memory.
pub fn title_of(alloc: Global, files: &[String]) -> Result<String, AllocError>
    ensures { IfOk result (λ title. string_bytes title ≡ title_of (map string_bytes files.now)) }
{
    match files {
        [file] => title_by(alloc, file_name(file.as_str())),
        _ => title_by(alloc, None),
    }
}

/// The title by this part of a name, if there is one.
fn title_by(alloc: Global, name: Option<&str>) -> Result<String, AllocError>
    ensures { IfOk result (λ title. string_bytes title ≡ title_by (option_copied name.entry)) }
{
    match name {
        Some(name) => visible(alloc, name),
        None => String::from_str(alloc, TITLE),
    }
}

/// A name in which nothing is hidden, turns the order of text round or drives a terminal: what would is written visibly,
/// as safe text has it. It takes memory.
#[tactic(auto, unfolding(crate::specs::Names::visible))]
pub fn visible(alloc: Global, name: &str) -> Result<String, AllocError>
    ensures { IfOk result (λ text. string_bytes text ≡ visible name.now) }
{
    whole();
    let text = written_by::<SafeWriter<_>>(alloc, name)?;
    String::from_utf8(text).map_err(|_| AllocError)
}

/// What a writer of this type writes where all of a text is printed.
fn written_by<P: CallWriter<FromWrite<Vec<u8>>>>(
    alloc: Global,
    text: &str,
) -> Result<Vec<u8>, AllocError>
    ensures { IfOk result (λ written. written.items
        ≡ P.text (text_calls text.now) ++ P.ending (text_calls text.now)) }
{
    let mut writer = P::over(Output::new(FromWrite::new(Vec::new(alloc))));
    writer.print_text(text);
    let (sink, answer) = writer.into_output().finish();
    match answer {
        Ok(()) => Ok(sink.into_inner()),
        Err(_) => Err(AllocError),
    }
}
