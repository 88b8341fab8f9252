//! What is proved of the definitions themselves. The functions do nothing: their contracts are the laws.
ghost use Rattle.group_history.specs.Meaning.{Meanings};
ghost use Rattle.logbook.specs.Pages.{Book};
ghost use Rattle.linearized.specs.Examples.{AnsweredExamples};
ghost use Rattle.linearized.specs.Laws.{ChangeLaws, IsAtOnce};

/// Where the caller's record grew in a call by the call's own change at most, the call's point is the record
/// before it.
pub fn at_once()
    ensures { (means : Meanings) → IsAtOnce means }
{}

/// Laws of points and of the changes that replies stand for, for mutators of any meaning.
pub fn change_laws()
    ensures { (means : Meanings) → ChangeLaws means }
{}

/// Worked examples, at any book: what is answered rightly, and what is not.
pub fn answered_examples()
    ensures { (book : Book) → AnsweredExamples book }
{}
