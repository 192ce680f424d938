//! Laws of streams without hidden text. Each is the contract of a function that does nothing.
ghost use Rattle.std.specs.Prelude.{◌≡◌, List};
ghost use Rattle.anstyle_parse.specs.Stream.Call.{Call};
ghost use Rattle.anstyle_parse.specs.Laws.Lawful.{AreMade};
ghost use Rattle.ansi_style.specs.declared.style.Style.{Style};
ghost use Rattle.without_hidden.specs.Hidden.{without_hidden};

/// The calls without hidden text are those of a stream too: some bytes make them. So all that is said of the calls of a
/// stream holds of them, as by `grammar` of `ansi_html::convert` that no markup comes in.
pub fn stream()
    ensures { (style : Style) (calls : List Call) → AreMade calls → AreMade (without_hidden style calls) }
{}

/// Nothing is left to leave out.
pub fn twice()
    ensures { (style : Style) (calls : List Call)
        → without_hidden style (without_hidden style calls) ≡ without_hidden style calls }
{}
