// Tags of a name that is known.
ghost use Rattle.std.specs.Prelude.{◌≡◌, ◌<◌, ◌++◌, ◌∷◌, length, IfSome};

use crate::tokens::{behind_name, byte_at, two_at};

/// What stands behind the end tag of this name, where the text begins with it, without white space in it.
#[inline(always)]
#[tactic(auto, using(crate::proofs::EndTags::end_whole))]
pub fn own_end<'a>(text: &'a [u8], name: &[u8]) -> Option<&'a [u8]>
    ensures whole { IfSome result (λ r. text.now ≡ 60 ∷ 47 ∷ name.now ++ 62 ∷ r.now) }
    ensures shorter { IfSome result (λ r. length r.now < length text.now) }
{
    let rest = two_at(text, b'<', b'/')?;
    name_end(rest, name)
}

// What stands behind this name and a `>`, where the text begins with them.
#[inline(always)]
#[tactic(auto, using(crate::proofs::EndTags::named_whole))]
fn name_end<'a>(text: &'a [u8], name: &[u8]) -> Option<&'a [u8]>
    ensures whole { IfSome result (λ r. text.now ≡ name.now ++ 62 ∷ r.now) }
    ensures shorter { IfSome result (λ r. length r.now < length text.now) }
{
    let rest = behind_name(text, name)?;
    byte_at(rest, b'>')
}

/// What stands behind the start tag of this name, where the text begins with it, without white space in it.
#[inline(always)]
#[tactic(auto, using(crate::proofs::EndTags::start_whole))]
pub fn own_start<'a>(text: &'a [u8], name: &[u8]) -> Option<&'a [u8]>
    ensures whole { IfSome result (λ r. text.now ≡ 60 ∷ name.now ++ 62 ∷ r.now) }
    ensures shorter { IfSome result (λ r. length r.now < length text.now) }
{
    let rest = byte_at(text, b'<')?;
    name_end(rest, name)
}
