//! Parts of texts that canonical texts and checkpoints share.
ghost use Rattle.std.specs.Prelude.{◌≡◌, [], if◌then◌else◌};
ghost use Rattle.anstyle_parse.specs.Stream.Arguments.{after_marker};
ghost use Rattle.anstyle_parse.specs.Stream.Canon.{leading_marker};

/// The marker at the head, if one stands there, and what is after it.
#[tactic(auto, unfolding(crate::specs::Stream::Bytes::is_marker, crate::specs::Stream::Bytes::is_within))]
pub(super) fn split_marker(intermediates: &[u8]) -> (&[u8], &[u8])
    ensures marker { result.0.now ≡ leading_marker intermediates.now }
    ensures others { result.1.now ≡ after_marker intermediates.now }
{
    match intermediates {
        [b'<'..=b'?', ..] => intermediates.split_at(1),
        _ => intermediates.split_at(0),
    }
}

/// The text, where the condition holds, and else none.
pub(super) fn text_if(condition: bool, text: &'static [u8]) -> &'static [u8]
    ensures { result.now ≡ (if condition then text.now else []) }
{
    if condition { text } else { b"" }
}
