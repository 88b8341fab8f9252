//! The words of the language.
ghost use Rattle.std.specs.Prelude.{◌≡◌};
ghost use Rattle.rule_mutators.specs.Reading as spec;

use crate::language::{One, Two};

/// The word of an expression.
#[derive(Clone, Copy)]
pub(crate) enum Word {
    Arg,
    Lit,
    Field,
    Or,
    Cat,
    One(One),
    Two(Two),
}

/// The word of a step.
#[derive(Clone, Copy)]
pub(crate) enum StepWord {
    Put,
    Del,
    Merge,
    Need,
    If,
}

/// The word of an expression that a text is.
pub(crate) fn word_of(text: &str) -> Option<Word>
    ensures { result ≡ spec.rule_word_of text.now }
{
    if let Some(word) = one_word(text) {
        return Some(word);
    }
    if let Some(word) = two_word(text) {
        return Some(word);
    }
    other_word(text)
}

#[tactic(auto, unfolding(crate::specs::Reading::one_word))]
fn one_word(text: &str) -> Option<Word>
    ensures { result ≡ spec.one_word text.now }
{
    match text {
        "get" => Some(Word::One(One::Get)),
        "has" => Some(Word::One(One::Has)),
        "not" => Some(Word::One(One::Not)),
        _ => None,
    }
}

#[tactic(auto, unfolding(crate::specs::Reading::two_word))]
fn two_word(text: &str) -> Option<Word>
    ensures { result ≡ spec.two_word text.now }
{
    match text {
        "same" => Some(Word::Two(Two::Same)),
        "add" => Some(Word::Two(Two::Add)),
        "sub" => Some(Word::Two(Two::Sub)),
        "below" => Some(Word::Two(Two::Below)),
        "and" => Some(Word::Two(Two::And)),
        _ => None,
    }
}

#[tactic(auto, unfolding(crate::specs::Reading::other_word))]
fn other_word(text: &str) -> Option<Word>
    ensures { result ≡ spec.other_word text.now }
{
    match text {
        "arg" => Some(Word::Arg),
        "lit" => Some(Word::Lit),
        "field" => Some(Word::Field),
        "or" => Some(Word::Or),
        "cat" => Some(Word::Cat),
        _ => None,
    }
}

/// The word of a step that a text is.
#[tactic(auto, unfolding(crate::specs::Reading::step_word_of))]
pub(crate) fn step_word_of(text: &str) -> Option<StepWord>
    ensures { result ≡ spec.step_word_of text.now }
{
    match text {
        "put" => Some(StepWord::Put),
        "del" => Some(StepWord::Del),
        "merge" => Some(StepWord::Merge),
        "need" => Some(StepWord::Need),
        "if" => Some(StepWord::If),
        _ => None,
    }
}
