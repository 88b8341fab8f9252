//! What is proved of the definition itself. The function does nothing: its contract is the laws.
ghost use Rattle.row_changes.specs.Laws.{ChangesLaws};

/// Of two lists of rows there is one list of changes, and laid over the old rows it gives the new ones.
pub fn changes_laws()
    ensures { ChangesLaws }
{}
