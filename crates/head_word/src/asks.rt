//! What a step asks the book for. Nothing of it is made when the program runs.
use crate::entry::{Answer, Entry};
use group_history::{Change, Node, Ref};
use logbook::Plain;

/// A look by a seat, or by none. It adds nothing, and asks as a draft of no nodes would.
#[derive(Drop)]
pub struct LookAsk {
    pub by: Option<u64>,
}

/// A draft to be added, whose nodes are numbered from `from` on among themselves.
#[derive(Drop)]
pub struct Wanted<'a> {
    pub by: Option<u64>,
    pub first: u64,
    pub from: u64,
    pub nodes: &'a [Node<Ref>],
}

/// The move that opens the book, to be added.
#[derive(Drop)]
pub struct OpeningMove {
    pub seats: u64,
    pub to: Ref,
}

/// A move to be added.
#[derive(Drop)]
pub struct Proposed<'a> {
    pub by: Option<u64>,
    pub to: Ref,
    pub change: &'a Change,
}

/// What a seat asks for.
pub struct Asks;

impl Plain<LookAsk, Entry, Answer> for Asks {
    ghost use Rattle.std.specs.Prelude.{None, []};
    ghost use Rattle.head_word.specs.Books.{drafted};

    ghost ask = { λ w. drafted w.by 0 [] };

    ghost state = { λ w. None };
}

impl<'a> Plain<Wanted<'a>, Entry, Answer> for Asks {
    ghost use Rattle.std.specs.Prelude.{None};
    ghost use Rattle.head_word.specs.Books.{drafted, drafted_from};

    ghost ask = { λ w. drafted w.by w.first (drafted_from w.from w.nodes.now) };

    ghost state = { λ w. None };
}

impl Plain<OpeningMove, Entry, Answer> for Asks {
    ghost use Rattle.std.specs.Prelude.{None};
    ghost use Rattle.head_word.specs.Books.{opened};

    ghost ask = { λ w. opened w.seats w.to };

    ghost state = { λ w. None };
}

impl<'a> Plain<Proposed<'a>, Entry, Answer> for Asks {
    ghost use Rattle.std.specs.Prelude.{None};
    ghost use Rattle.head_word.specs.Books.{moved};

    ghost ask = { λ w. moved w.by w.to w.change.now };

    ghost state = { λ w. None };
}

/// A look that trades nothing, as its update has run already.
pub struct Idle;

impl Plain<LookAsk, Entry, Answer> for Idle {
    ghost use Rattle.std.specs.Prelude.{Some, []};
    ghost use Rattle.head_word.specs.Books.{drafted};
    ghost use Rattle.head_word.specs.Inside.Steps.{tallied};

    ghost ask = { λ w. drafted w.by 0 [] };

    ghost state = { λ w. Some (tallied 0 0) };
}
