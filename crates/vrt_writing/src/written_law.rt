// What is read of pieces of a written document.
ghost use Rattle.std.specs.Prelude.{◌≡◌, ℕ, ℤ, ◌<◌, ◌^◌, unsigned_abs, ◌∷◌, ◌++◌, List, length, Ok, Some, None};
ghost use Rattle.std.specs.Fmt.{decimal};
ghost use Rattle.geotransform.specs.Decimal.{places_of};
ghost use Rattle.vrt_profile.specs.Fields.{whole_text};
ghost use Rattle.vrt_markup.specs.Items.{plain_len, item_at, close_tag, Pair, pair_at};
ghost use Rattle.vrt_markup.specs.Forest.{decoded, nodes, text_of, child_of};
ghost use Rattle.vrt_writing.specs.Spelled.{escaped, micro_text, part_text, spelled};
ghost use Rattle.vrt_profile.specs.Values.{DocumentValue, IsDocument, scale_limit};
ghost use Rattle.vrt_profile.specs.Document.{document_of};
ghost use Rattle.vrt_writing.specs.Reread.{IsTagName, IsValue, words_forest};

/// A text that is written with entities is plain text up to the next tag, and is read as the text.
#[tactic(auto, using(crate::proofs::Reread::decoded_again, crate::proofs::Reread::plain_again))]
pub fn written_text_reads_back()
    ensures plain { (t r : List ℕ) → plain_len 60 (escaped t ++ 60 ∷ r) ≡ length (escaped t) }
    ensures same { (t : List ℕ) → decoded (escaped t) ≡ t }
{}

/// A written end tag is read as the end tag of its name.
#[tactic(auto, using(crate::proofs::Reread::end_again))]
pub fn written_end_reads_back()
    ensures same { (name r : List ℕ) → IsTagName name → item_at (60 ∷ 47 ∷ name ++ 62 ∷ r) ≡ close_tag name r }
{}

/// What is written behind the start tag of an element that holds a text is read as that text, and
/// nothing else stands in the element.
#[tactic(auto, using(crate::proofs::Reread::words_again, crate::proofs::Reread::words_text, crate::proofs::Reread::words_child))]
pub fn written_words_read_back()
    ensures element { (total depth : ℕ) (name t r : List ℕ) → IsTagName name →
        nodes total depth name (escaped t ++ (60 ∷ 47 ∷ name ++ 62 ∷ r)) ≡ Ok (words_forest t, r) }
    ensures text { (t : List ℕ) → text_of (words_forest t) ≡ t }
    ensures child { (t : List ℕ) → child_of (words_forest t) ≡ None }
{}

/// A number of millionths, one of parts of 10^12, and a whole number are read again from their texts.
#[tactic(auto, using(crate::proofs::Places::micro_again, crate::proofs::Places::part_again, crate::proofs::Places::count_again))]
pub fn written_numbers_read_back()
    ensures micro { (v : ℤ) → unsigned_abs v < 10 ^ 18 → places_of 6 (micro_text v) ≡ Some v }
    ensures part { (v : ℤ) → unsigned_abs v < scale_limit → places_of 12 (part_text v) ≡ Some v }
    ensures whole { (n : ℕ) → n < 10 ^ 9 → whole_text (decimal n) ≡ Some n }
{}

/// A written attribute is read as the attribute.
#[tactic(auto, using(crate::proofs::Tags::pair_again))]
pub fn written_pair_reads_back()
    ensures same { (p : Pair) → (r : List ℕ) → IsTagName p.name → IsValue p.value →
        pair_at (32 ∷ p.name ++ (61 ∷ 34 ∷ p.value ++ 34 ∷ r)) ≡ Some (p, r) }
{}

/// The text that is written of a document is read as that document.
#[tactic(auto, using(crate::proofs::Documents::document_again))]
pub fn written_document_reads_back()
    ensures same { (d : DocumentValue) → IsDocument d → document_of (spelled d) ≡ Ok d }
{}
