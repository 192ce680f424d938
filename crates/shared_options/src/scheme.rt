//! The pages that colours are for.
ghost use Rattle.std.specs.Prelude.{◌≡◌, map, string_bytes};
ghost use Rattle.shared_options.specs.Scheme.{scheme_after, scheme_of};

use ansi_html::Scheme;

/// The pages that the colours are for: by the last of `--light` and `--dark`, and else both.
pub fn scheme_of(words: &[String]) -> Scheme
    ensures { result ≡ scheme_of (map string_bytes words.now) }
{
    let mut scheme = Scheme::Both;
    for word in words {
        scheme = scheme_after(scheme, word.as_str());
    }
    scheme
}

/// The same after one word more.
fn scheme_after(scheme: Scheme, word: &str) -> Scheme
    ensures { result ≡ scheme_after scheme word.now }
{
    if word == "--light" {
        Scheme::Light
    } else if word == "--dark" {
        Scheme::Dark
    } else {
        scheme
    }
}
