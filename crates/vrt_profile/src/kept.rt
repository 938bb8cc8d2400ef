// Texts that a document keeps.
ghost use Rattle.std.specs.Prelude.{Ok, Result, IfOk, IsUtf8};
ghost use Rattle.vrt_profile.specs.Means.{kept_text, text_in};
ghost use Rattle.vrt_markup.specs.Kept.{Gives};
ghost use Rattle.vrt_markup.specs.Views.{plain_text};

use outside::Text;
use std::alloc::Global;
use std::str;
use vrt_markup::{VrtFault, Words};

// The text of these bytes.
#[tactic(auto, using(crate::proofs::KeptTexts::is_text, crate::proofs::KeptTexts::is_no_text))]
fn kept_text(alloc: Global, bytes: &[u8]) -> Result<Result<Text, VrtFault>, VrtFault>
    ensures text { Gives (λ x. x) result (Ok (kept_text bytes.now)) }
{
    match str::from_utf8(bytes) {
        Ok(text) => match Text::new(alloc, text) {
            Ok(text) => Ok(Ok(text)),
            Err(_) => Err(VrtFault::Memory),
        },
        Err(_) => Ok(Err(VrtFault::Unsupported)),
    }
}

/// The text in an element that holds text alone.
pub fn text_by(alloc: Global, words: &Words) -> Result<Result<Text, VrtFault>, VrtFault>
    ensures text { Gives (λ x. x) result (Ok (text_in (plain_text words.now.text) words.now.child)) }
    ensures utf8 { IfOk result (λ r. IfOk r IsUtf8) }
{
    match kept_text(alloc, words.text.as_slice()) {
        Ok(Ok(text)) => match words.child {
            None => {
                text_rules(&text);
                Ok(Ok(text))
            }
            Some(place) => Ok(Err(VrtFault::UnknownElement(place))),
        },
        Ok(Err(fault)) => Ok(Err(fault)),
        Err(error) => Err(error),
    }
}

/// A text is UTF-8.
pub fn text_rules(text: &Text)
    ensures utf8 { IsUtf8 text.now }
{
    // This call is made for the proof: a text is UTF-8.
    let _text = text.as_str();
}
