//! The language of rules: what was read, as a tree.
//!
//! A rule is a list of steps, done in order. Its expressions have values at the arguments and at the map as it is then.
//! `specs/Rules.antt` has the same language without the memory that it lies in, and `specs/Views.antt` says which rule
//! a tree is.
use group_history::Text;
use serde_json::Value;
use std::alloc::Global;

/// A word before one expression.
#[derive(Clone, Copy)]
pub(crate) enum One {
    Get,
    Has,
    Not,
}

/// A word before two expressions that both have values.
#[derive(Clone, Copy)]
pub(crate) enum Two {
    Same,
    Add,
    Sub,
    Below,
    And,
}

/// Which of the arguments.
#[derive(Drop)]
pub(crate) enum Which {
    At(u64),
    Named(Text),
}

pub(crate) enum Expr {
    Literal(Value),
    Argument(Which),
    One(One, Box<Expr>),
    Field(Box<Expr>, Text),
    Or(Box<(Expr, Expr)>),
    Two(Two, Box<(Expr, Expr)>),
    Cat(Vec<Expr>),
    Object(Vec<(Text, Expr)>),
}

impl Drop for Expr {
    fn drop(self) {
        match self {
            Expr::Literal(value) => drop(value),
            Expr::Argument(which) => drop(which),
            Expr::One(_, e) => drop(e),
            Expr::Field(e, name) => {
                drop(e);
                drop(name);
            }
            Expr::Or(both) => drop(both),
            Expr::Two(_, both) => drop(both),
            Expr::Cat(all) => drop(all),
            Expr::Object(fields) => drop(fields),
        }
    }
}

pub(crate) enum RuleStep {
    Put(Expr, Expr),
    Del(Expr),
    Merge(Expr, Expr),
    /// Refuses with the code where the expression is false.
    Need(Expr, u32),
    If(Expr, Vec<RuleStep>, Vec<RuleStep>),
}

impl Drop for RuleStep {
    fn drop(self) {
        match self {
            RuleStep::Put(key, e) => {
                drop(key);
                drop(e);
            }
            RuleStep::Del(key) => drop(key),
            RuleStep::Merge(key, e) => {
                drop(key);
                drop(e);
            }
            RuleStep::Need(e, _) => drop(e),
            RuleStep::If(e, yes, other) => {
                drop(e);
                drop(yes);
                drop(other);
            }
        }
    }
}

/// Rules by name, as they were read.
#[derive(Drop)]
pub struct Rules {
    pub(crate) rules: Vec<(Text, Vec<RuleStep>)>,
}

impl Rules {
    ghost use Rattle.std.specs.Prelude.{◌≡◌, [], option_map};
    ghost use Rattle.rule_mutators.specs.Meaning.{steps_named};
    ghost use Rattle.rule_mutators.specs.Views.{all_steps, rules_of};

    /// No rules: every name is that of a mutator of scripts, or unknown.
    pub fn none(alloc: Global) -> Rules
        ensures { rules_of result ≡ [] }
    {
        Rules {
            rules: Vec::new(alloc),
        }
    }

    /// The steps of the rule of this name.
    pub(crate) fn steps_of(&self, name: &str) -> Option<&Vec<RuleStep>>
        ensures { option_map (λ steps. all_steps steps.now.items) result ≡ steps_named name.now (rules_of self.now) }
    {
        for rule in &self.rules {
            if name == rule.0.as_str() {
                return Some(&rule.1);
            }
        }
        None
    }
}
