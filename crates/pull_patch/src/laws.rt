//! What is proved of the definition of reading itself.
ghost use Rattle.pull_patch.specs.Laws.{UnknownFieldsDontCount, OnlyNumbersAreNotWhole};
ghost use Rattle.pull_patch.specs.Worked.{WorkedBodies, WorkedWrites};

/// A field that no rule speaks of changes nothing, whatever it holds, in a response and in an operation.
pub fn unknown_fields_law()
    ensures { UnknownFieldsDontCount }
{}

/// NotWhole is told only where some number of the body isn't whole.
pub fn whole_numbers_law()
    ensures { OnlyNumbersAreNotWhole }
{}

/// The definition of reading at bodies that are written out.
pub fn worked_bodies()
    ensures { WorkedBodies }
{}

/// The same of lists of writes, and what these make of a map.
pub fn worked_writes()
    ensures { WorkedWrites }
{}
