ghost use Rattle.bye_lex.specs.Kept as spec;
ghost use Rattle.std.specs.Prelude.{◌≡◌};

use bye_terms::Text;

/// How many bytes a text is in UTF-8.
pub fn size(text: &Text) -> usize
    ensures { result ≡ spec.size text.now }
{
    text.as_str().len()
}
