ghost use Rattle.std.specs.Prelude.{◌≡◌, IfOk};
ghost use Rattle.std.specs.Option.{option_map};
ghost use Rattle.bye_terms.specs.Reading.{iri_at};

use crate::cursor::Cursor;
use crate::iri::Iri;
use crate::memory::Memory;
use crate::text::Text;
use std::alloc::Global;

/// Reads an absolute IRI that stands between `<` and `>` at the front, and leaves the rest.
/// Where none stands there, or memory is refused, what is left of the text is open.
#[tactic(auto, unfolding(crate::specs::Reading::iri_at))]
pub fn raw_iri(alloc: Global, rest: &mut Cursor<'_>) -> Result<Option<Iri>, Memory>
    ensures { IfOk result (λ o. option_map (λ iri. (iri, rest.new)) o ≡ iri_at rest.old) }
{
    if !rest.take('<') {
        return Ok(None);
    }
    let Some(text) = rest.until('>') else {
        return Ok(None);
    };
    Ok(Iri::from_text(Text::copy_of(alloc, text)?))
}
