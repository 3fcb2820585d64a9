use crate::call::Call;
use crate::nesting::Nesting;
use crate::parts::{ItemAt, Parts};
use crate::test::Test;

/// Where an item or a key is read.
#[derive(Clone, Copy, Debug, PartialEq, Eq)]
pub(crate) enum Side {
    Select,
    Order,
}

/// What comes next in a query's text.
#[derive(Drop)]
pub(crate) enum Stage {
    Select,
    /// An item or a key.
    Wanted(Side),
    Call(Side, Call),
    AfterItem,
    /// The table's name.
    Table,
    AfterTable,
    /// A term, behind so many NOTs.
    Term(Nesting, u32),
    /// More of a test, before which so many NOTs stand.
    Test(Nesting, u32, Test),
    AfterTerm(Nesting),
    GroupBy,
    Group,
    AfterGroup,
    OrderBy,
    AfterKey(ItemAt),
    AfterDirection,
    Limit,
    AfterLimit,
    /// Nothing.
    End,
}

/// How far a query has been read.
#[derive(Drop)]
pub(crate) struct State {
    pub(crate) stage: Stage,
    pub(crate) parts: Parts,
}
