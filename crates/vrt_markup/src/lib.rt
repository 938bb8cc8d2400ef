// The markup of a document: its items, the tree that they make, and what an element holds.
#![tactic(auto)]

mod attributes;
mod children;
mod ends;
pub mod fault;
mod hash;
mod items;
mod past;
mod root;
mod tag;
mod text;
mod tokens;

pub use attributes::{attribute, attribute_front};
pub use children::{Level, Parts, Seen, children_of};
pub use fault::VrtFault;
pub use hash::text_hash;
pub use items::{Item, item_at};
pub use past::past_element;
pub use root::{Root, end_at, root_at, utf8_of};
pub use tag::Tag;
pub use text::{Plain, Words, is_all_white, text_element};
pub use tokens::{is_equal, trim_front};
