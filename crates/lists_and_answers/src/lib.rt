// The list type that every public record holds, texts as bytes, and the words in which contracts state answers.
#![tactic(auto)]

mod items;
mod texts;

pub use items::Items;
pub use texts::{is_white, push_all, same_letters, token_at};
