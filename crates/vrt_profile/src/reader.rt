// Documents read: the document that the bytes mean.
ghost use Rattle.std.specs.Prelude.{◌<◌, ◌-◌, Result, Ok, Err};
ghost use Rattle.lists_and_answers.specs.Answers as answers;
ghost use Rattle.vrt_markup.specs.Faults.{IsMemory};
ghost use Rattle.vrt_markup.specs.Kept.{Gives};
ghost use Rattle.vrt_profile.specs.Document.{document_of};
ghost use Rattle.vrt_profile.specs.Seen.{markup_means};

use crate::dataset::root_element;
use crate::document::Document;
use std::alloc::Global;
use vrt_markup::{VrtFault, end_at, root_at, utf8_of};

// The document of a text that is UTF-8.
#[tactic(auto, unfolding(vrt_markup::specs::Tree::markup_of), using(vrt_markup::proofs::Outside::fails_bind))]
fn markup(alloc: Global, bytes: &[u8]) -> Result<Document, VrtFault>
    ensures document { Gives (λ d. d) result (markup_means bytes.now) }
{
    let total = bytes.len();
    match root_at(alloc, total, bytes) {
        Err(fault) => Err(fault),
        Ok(root) => match root_element(alloc, total, root.place, root.tag, root.rest) {
            Err(error) => Err(error),
            Ok((document, rest)) => match end_at(alloc, total, rest) {
                Err(fault) => Err(fault),
                Ok(_) => document,
            },
        },
    }
}

/// Reads a VRT document: the markup of XML 1.0 without what a mosaic doesn't use. The first fault of
/// the markup counts, wherever it stands; else the first of what the elements mean, in their order:
/// `BadText` with the byte where no item begins or none that may stand there; `UnknownElement` with
/// the byte of an element that isn't known there; `MissingPart` where an attribute or an element is
/// missing; `BadNumber` where a number isn't of its form or its range; `Unsupported`; `Limit` where a
/// limit is passed or elements stand deeper than 64. `Memory` comes where memory is refused.
#[tactic(auto, using(crate::proofs::Answered::gives_answer, crate::proofs::Answered::utf8_fault))]
pub fn read(alloc: Global, bytes: &[u8]) -> Result<Document, VrtFault>
    ensures document { answers.Gives IsMemory (λ d. d) result (document_of bytes.now) }
{
    match utf8_of(bytes) {
        Err(fault) => Err(fault),
        Ok(text) => markup(alloc, text),
    }
}
