//! What is proved of the definitions themselves. The functions do nothing: their contracts are the laws.
ghost use Rattle.group_history.specs.Examples.{WorkedExamples};
ghost use Rattle.group_history.specs.Laws.{RecordLaws};
ghost use Rattle.group_history.specs.Meaning.{Meanings};

/// Laws of the record, for mutators of any meaning: ids and cookies rise, the view follows the meanings,
/// refusals leave the state, replays keep the order, beginnings are legal, ids fit.
pub fn record_laws()
    ensures { (means : Meanings) → RecordLaws means }
{}

/// Worked examples, computed by the definitions alone.
pub fn worked_examples()
    ensures { WorkedExamples }
{}
