// What is known of the texts of a document.
ghost use Rattle.std.specs.Prelude.{◌≡◌, List, ℕ, Ok, IsUtf8};
ghost use Rattle.vrt_markup.specs.Forest.{text_of};
ghost use Rattle.vrt_markup.specs.Tree.{Tree, tree_of};
ghost use Rattle.vrt_writing.specs.Texts.{AreTexts};

/// Where a document is read at all, the text of each of its elements is UTF-8, so none is refused for that.
#[tactic(auto, using(crate::proofs::Texts::root_text, crate::proofs::Texts::inner_texts))]
pub fn read_texts_are_utf8()
    ensures root { (bytes : List ℕ) (t : Tree) → tree_of bytes ≡ Ok t → IsUtf8 (text_of t.inside) }
    ensures inner { (bytes : List ℕ) (t : Tree) → tree_of bytes ≡ Ok t → AreTexts t.inside }
{}
