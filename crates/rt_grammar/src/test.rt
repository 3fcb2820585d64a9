use rt_lists::Items;
use rt_model::{ColumnAt, Comparison, Literal, Predicate};

/// How far a test of a column has been read; the column's name is.
#[derive(Drop)]
pub(crate) enum Test {
    /// An operator, BETWEEN, IN or NOT comes.
    Operator(ColumnAt),
    /// IN comes, behind NOT.
    AfterNot(ColumnAt),
    /// The parenthesis of a list comes; NOT was read before IN, or it wasn't.
    List(ColumnAt, bool),
    Literal(Asked),
    /// Digits come, behind a minus.
    Digits(Asked),
    /// AND comes, behind the lower end of BETWEEN.
    Upper(ColumnAt, Literal),
    /// A comma or a parenthesis comes, behind a literal of a list.
    AfterLiteral(ColumnAt, bool, Items<Literal>),
}

/// What a literal is read for.
#[derive(Drop)]
pub(crate) enum Asked {
    Compare(ColumnAt, Comparison),
    Lower(ColumnAt),
    Upper(ColumnAt, Literal),
    Among(ColumnAt, bool, Items<Literal>),
}

/// A test after one more token.
#[derive(Drop)]
pub(crate) enum Tested {
    More(Test),
    Whole(Predicate),
}
