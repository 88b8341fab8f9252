//! What the book lists. The book exists in the proofs alone: no list of entries is ever made.
use group_history::{Change, Child, Node, Ref};
use std::collections::LinkedList;

/// Contents that drew the stamps from `first` on, and by which seat.
#[derive(Drop)]
pub struct DraftEntry {
    pub by: Option<u64>,
    pub first: u64,
    pub contents: LinkedList<Node<Child>>,
}

/// A move of the head to a commit by a change, and by which seat.
#[derive(Drop)]
pub struct MoveEntry {
    pub by: Option<u64>,
    pub to: Ref,
    pub change: Change,
}

/// The move that opens the book, by no seat, and for how many seats the book is opened.
#[derive(Drop)]
pub struct OpeningEntry {
    pub to: Ref,
    pub seats: u64,
}

/// An entry of the book.
#[derive(Drop)]
pub enum Entry {
    Draft(DraftEntry),
    Move(MoveEntry),
    Opening(OpeningEntry),
}

/// How many entries a seat had added before a step, and after it.
#[derive(Drop)]
pub struct Answer {
    pub before: u64,
    pub after: u64,
}
