// VRT documents written, and the laws that what is written is read again.
#![tactic(auto)]

mod lines;
pub mod spelling;
pub mod text_law;
mod writing;
pub mod written_law;

pub use spelling::write;
pub use text_law::read_texts_are_utf8;
pub use written_law::{
    written_document_reads_back, written_end_reads_back, written_numbers_read_back,
    written_pair_reads_back, written_text_reads_back, written_words_read_back,
};
