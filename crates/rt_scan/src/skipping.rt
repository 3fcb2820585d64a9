//! Which segments no row of which can meet a query's predicate, by the least and the greatest values of their columns.
ghost use Rattle.std.specs.Prelude.{◌≡◌, ◌<◌, slice_get};
ghost use Rattle.rt_segment.specs.Column.{count_in, values_in};
ghost use Rattle.rt_scan.specs.Skips.{against_if, can_be_one, can_compare, can_lie, can_match, can_pass, is_above, reaches, skips_of, standing_in, standing_of};

use crate::standing::Standing;
use rt_filter::{accepted, number_against, text_against, truth_against};
use rt_lists::Text;
use rt_model::{Comparison, Condition, Literal, Predicate, Query};
use rt_seek::Comparable;
use rt_segment::{Dictionary, Sealed, SegmentColumn};
use std::cmp::Ordering;

/// Whether no row of a segment can meet a query's predicate, by the least and the greatest values of its columns.
///
/// Only a segment of format 2 is skipped: one of no rows always, another where the predicate rules out every value from
/// the least to the greatest. A comparison, BETWEEN and IN are ruled out by the values of their column, AND by a part, and
/// OR by all its parts. NOT, NOT IN, a column that the segment lacks and a literal of another kind rule nothing out.
pub fn skips(query: &Query, sealed: &Sealed) -> bool
    ensures { result ≡ skips_of query.now.filter sealed.now }
{
    sealed.format() == 2 && (sealed.rows() == 0 || !can_pass(sealed.columns(), &query.filter))
}

fn can_pass(columns: &[SegmentColumn], filter: &Option<Predicate>) -> bool
    ensures { result ≡ can_pass columns.now filter.now }
{
    match filter {
        None => true,
        Some(predicate) => can_match(columns, predicate),
    }
}

// Whether a row can meet a predicate.
#[tactic(auto, using(rt_model::proofs::Trees::and_falls, rt_model::proofs::Trees::or_falls))]
fn can_match(columns: &[SegmentColumn], predicate: &Predicate) -> bool
    ensures { result ≡ can_match columns.now predicate.now }
{
    match predicate.condition() {
        Condition::Compare(column, comparison, literal) => {
            can_compare(*comparison, standing_of(columns, &column.name, literal))
        }
        Condition::Between(column, low, high) => can_lie(
            standing_of(columns, &column.name, low),
            standing_of(columns, &column.name, high),
            is_above(low, high),
        ),
        Condition::OneOf(column, literals) => {
            can_be_one(columns, &column.name, literals.as_slice())
        }
        Condition::NoneOf(_, _) => true,
        Condition::Not(_) => true,
        Condition::And(parts) => {
            for part in parts {
                if !can_match(columns, part) {
                    return false;
                }
            }
            true
        }
        Condition::Or(parts) => {
            for part in parts {
                if can_match(columns, part) {
                    return true;
                }
            }
            false
        }
    }
}

// Whether a value of the column of a name can equal one of the literals.
fn can_be_one(columns: &[SegmentColumn], name: &Text, literals: &[Literal]) -> bool
    ensures { result ≡ can_be_one columns.now name.now literals.now }
{
    for literal in literals {
        if can_compare(Comparison::Equal, standing_of(columns, name, literal)) {
            return true;
        }
    }
    false
}

fn can_compare(comparison: Comparison, standing: Option<Standing>) -> bool
    ensures { result ≡ can_compare comparison standing }
{
    match standing {
        None => true,
        Some(standing) => reaches(comparison, standing),
    }
}

fn reaches(comparison: Comparison, standing: Standing) -> bool
    ensures { result ≡ reaches comparison standing }
{
    match comparison {
        Comparison::Equal => standing.least.is_le() && standing.greatest.is_ge(),
        Comparison::NotEqual => !(standing.least.is_eq() && standing.greatest.is_eq()),
        Comparison::Less => standing.least.is_lt(),
        Comparison::AtMost => standing.least.is_le(),
        Comparison::Greater => standing.greatest.is_gt(),
        Comparison::AtLeast => standing.greatest.is_ge(),
    }
}

fn can_lie(low: Option<Standing>, high: Option<Standing>, above: bool) -> bool
    ensures { result ≡ can_lie low high above }
{
    match (low, high) {
        (Some(low), Some(high)) => !above && low.greatest.is_ge() && high.least.is_le(),
        _other => true,
    }
}

// Whether the first literal is greater than the second.
fn is_above(low: &Literal, high: &Literal) -> bool
    ensures { result ≡ is_above low.now high.now }
{
    match low {
        Literal::Int(low) => accepted(Comparison::Greater, number_against(*low, high)),
        Literal::Text(low) => accepted(Comparison::Greater, text_against(low, high)),
        Literal::Bool(low) => accepted(Comparison::Greater, truth_against(*low, high)),
    }
}

// How the values of the column of a name stand to a literal; none where there is no such column.
fn standing_of(columns: &[SegmentColumn], name: &Text, literal: &Literal) -> Option<Standing>
    ensures { result ≡ standing_of columns.now name.now literal.now }
{
    for column in columns {
        if column.name().as_bytes() == name.as_bytes() {
            return standing_in(column.dictionary(), literal);
        }
    }
    None
}

fn standing_in(dictionary: &Dictionary, literal: &Literal) -> Option<Standing>
    ensures { result ≡ standing_in dictionary.now literal.now }
{
    let count = dictionary.len();
    match (
        against_at(dictionary, 0, literal),
        against_at(dictionary, count.saturating_sub(1), literal),
    ) {
        (Some(least), Some(greatest)) => Some(Standing { least, greatest }),
        _other => None,
    }
}

// How the value of an id, where there is one, stands to a literal.
fn against_at(dictionary: &Dictionary, id: u32, literal: &Literal) -> Option<Ordering>
    ensures { result ≡ against_if (slice_get (values_in dictionary.now) id) literal.now }
{
    if id < dictionary.len() {
        against_value(dictionary, id, literal)
    } else {
        None
    }
}

fn against_value(dictionary: &Dictionary, id: u32, literal: &Literal) -> Option<Ordering>
    requires { id < count_in dictionary.now }
    ensures { result ≡ against_if (slice_get (values_in dictionary.now) id) literal.now }
{
    match dictionary {
        Dictionary::Int(dict) => dict.value(id).against(literal),
        Dictionary::Long(dict) => dict.value(id).against(literal),
        Dictionary::Text(dict) => dict.value(id).against(literal),
        Dictionary::Bool(dict) => dict.value(id).against(literal),
        Dictionary::Time(dict) => dict.value(id).against(literal),
    }
}
