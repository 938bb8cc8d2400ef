// The datasets of a catalog.
use crate::Head;
use crate::driver::Content;
use std::marker::Model;

// A dataset: its head, its content, and the length in bytes of the file that has its name.
#[derive(Drop)]
pub struct Dataset {
    pub head: Head,
    pub content: Content,
    pub length: u64,
}

impl Model for Dataset {
    ghost use Rattle.catalog.specs.Walk.{IsDataset};
    ghost use Rattle.catalog.specs.Drivers.{Dataset as Known};

    ghost Value = { Known };

    ghost view = { λ d. record { head = d.head; content = d.content; length = d.length } };

    ghost invariant = { λ d. IsDataset (record { head = d.head; content = d.content; length = d.length }) };
}
