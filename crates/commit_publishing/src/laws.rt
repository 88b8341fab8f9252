//! What is proved of the definitions themselves. The function does nothing: its contract is the laws.
ghost use Rattle.commit_publishing.specs.Laws.{PlacingLaws};

/// Laws of drafts that were placed: what each reference and each node becomes, and that a draft spells
/// there what it spelled under its own numbers.
pub fn placing_laws()
    ensures { PlacingLaws }
{}
