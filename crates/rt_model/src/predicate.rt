ghost use Rattle.std.specs.Prelude.{◌≡◌};
ghost use Rattle.rt_model.specs.Condition.{tree_of};

use crate::{ColumnAt, Comparison, Literal};
use rt_lists::{Copied, Items};
use std::alloc::{AllocError, Global};
use std::marker::Model;

/// A condition on a row: what stands behind WHERE. Contracts see it as a tree.
#[derive(Drop)]
#[cycle(predicate)]
pub struct Predicate {
    condition: Condition,
}

/// What a predicate asks. A predicate of one part of OR or AND is that part.
#[derive(Drop)]
#[cycle(predicate)]
pub enum Condition {
    /// The column's value compares so with the literal.
    Compare(ColumnAt, Comparison, Literal),
    /// The column's value lies between the two, both of which are included.
    Between(ColumnAt, Literal, Literal),
    /// IN: the column's value equals one of the literals.
    OneOf(ColumnAt, Items<Literal>),
    /// NOT IN: the column's value equals none of the literals.
    NoneOf(ColumnAt, Items<Literal>),
    Not(Box<Predicate>),
    And(Vec<Predicate>),
    Or(Vec<Predicate>),
}

impl Model for Predicate {
    ghost use Rattle.rt_model.specs.Tree.{Tree, nodes};
    ghost use Rattle.rt_model.specs.Marks.{tree_code};

    ghost Value = { Tree };

    ghost coded = { tree_code };

    ghost use Rattle.rt_model.specs.Condition.{tree_of};

    ghost view = { λ a. tree_of a.condition };

    ghost size = { nodes };

    ghost use Rattle.rt_model.specs.Falls.{falls};

    ghost size_decreases = { λ a h. falls a.condition };
}

impl Predicate {
    /// The predicate that asks this.
    pub fn of(condition: Condition) -> Self
        ensures { result ≡ tree_of condition }
    {
        Predicate { condition }
    }

    /// What it asks.
    pub fn condition(&self) -> &Condition
        ensures { tree_of result.now ≡ self.now }
    {
        &self.condition
    }
}

impl Copied for Predicate {
    fn copied(&self, alloc: Global) -> Result<Self, AllocError> {
        match &self.condition {
            Condition::Compare(column, comparison, literal) => Ok(Predicate::of(Condition::Compare(
                column.copied(alloc)?,
                *comparison,
                literal.copied(alloc)?,
            ))),
            Condition::Between(column, low, high) => Ok(Predicate::of(Condition::Between(
                column.copied(alloc)?,
                low.copied(alloc)?,
                high.copied(alloc)?,
            ))),
            Condition::OneOf(column, literals) => Ok(Predicate::of(Condition::OneOf(
                column.copied(alloc)?,
                literals.copied(alloc)?,
            ))),
            Condition::NoneOf(column, literals) => Ok(Predicate::of(Condition::NoneOf(
                column.copied(alloc)?,
                literals.copied(alloc)?,
            ))),
            Condition::Not(part) => {
                Ok(Predicate::of(Condition::Not(Box::new(alloc, part.copied(alloc)?)?)))
            }
            Condition::And(parts) => {
                let mut copies = Vec::new(alloc);
                for part in parts {
                    copies.push(part.copied(alloc)?)?;
                }
                Ok(Predicate::of(Condition::And(copies)))
            }
            Condition::Or(parts) => {
                let mut copies = Vec::new(alloc);
                for part in parts {
                    copies.push(part.copied(alloc)?)?;
                }
                Ok(Predicate::of(Condition::Or(copies)))
            }
        }
    }
}
