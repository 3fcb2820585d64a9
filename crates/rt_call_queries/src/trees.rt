use rt_call_words::Answer;
use rt_model::{Aggregate, ColumnAt, Comparison, Condition, Item, Literal, Predicate, Query};
use std::alloc::Global;

/// Adds the parts of a query: its items, its filter as a tree, its groups, its order and its limit. Texts are in
/// hexadecimal.
pub(crate) fn write_query(alloc: Global, query: &Query, answer: &mut Answer) {
    answer.add("ok");
    for item in query.items.as_slice() {
        write_item(alloc, item, answer);
    }
    answer.add(" where");
    if let Some(filter) = &query.filter {
        write_predicate(alloc, filter, answer);
    }
    answer.add(" by");
    for column in query.groups.as_slice() {
        write_column(alloc, column, answer);
    }
    answer.add(" order");
    for key in query.order.as_slice() {
        write_item(alloc, &key.item, answer);
        answer.add(if key.descending { " down" } else { " up" });
    }
    answer.add(" limit ");
    answer.count(query.limit);
}

fn write_column(alloc: Global, column: &ColumnAt, answer: &mut Answer) {
    answer.add(" ");
    answer.count(column.place);
    answer.add(".");
    answer.bytes(alloc, column.name.as_bytes());
}

fn write_item(alloc: Global, item: &Item, answer: &mut Answer) {
    match item {
        Item::Column(column) => write_named(alloc, " column", column, answer),
        Item::Aggregate(aggregate) => write_aggregate(alloc, aggregate, answer),
    }
}

fn write_aggregate(alloc: Global, aggregate: &Aggregate, answer: &mut Answer) {
    match aggregate {
        Aggregate::Count => answer.add(" COUNT"),
        Aggregate::Sum(column) => write_named(alloc, " SUM", column, answer),
        Aggregate::Min(column) => write_named(alloc, " MIN", column, answer),
        Aggregate::Max(column) => write_named(alloc, " MAX", column, answer),
    }
}

fn write_named(alloc: Global, word: &str, column: &ColumnAt, answer: &mut Answer) {
    answer.add(word);
    write_column(alloc, column, answer);
}

fn write_literal(alloc: Global, literal: &Literal, answer: &mut Answer) {
    match literal {
        Literal::Int(number) => {
            answer.add(" ");
            answer.long(*number);
        }
        Literal::Bool(truth) => {
            answer.add(" ");
            answer.truth(*truth);
        }
        Literal::Text(text) => {
            answer.add(" text ");
            answer.bytes(alloc, text.as_bytes());
        }
    }
}

fn write_literals(alloc: Global, literals: &[Literal], answer: &mut Answer) {
    for literal in literals {
        write_literal(alloc, literal, answer);
    }
}

fn form_of(comparison: Comparison) -> &'static str {
    match comparison {
        Comparison::Equal => " (=",
        Comparison::NotEqual => " (!",
        Comparison::Less => " (<",
        Comparison::AtMost => " (l",
        Comparison::Greater => " (>",
        Comparison::AtLeast => " (g",
    }
}

#[tactic(auto, using(rt_model::proofs::Trees::and_falls, rt_model::proofs::Trees::or_falls))]
fn write_predicate(alloc: Global, predicate: &Predicate, answer: &mut Answer) {
    match predicate.condition() {
        Condition::Compare(column, comparison, literal) => {
            write_named(alloc, form_of(*comparison), column, answer);
            write_literal(alloc, literal, answer);
        }
        Condition::Between(column, low, high) => {
            write_named(alloc, " (B", column, answer);
            write_literal(alloc, low, answer);
            write_literal(alloc, high, answer);
        }
        Condition::OneOf(column, literals) => {
            write_named(alloc, " (I", column, answer);
            write_literals(alloc, literals.as_slice(), answer);
        }
        Condition::NoneOf(column, literals) => {
            write_named(alloc, " (N", column, answer);
            write_literals(alloc, literals.as_slice(), answer);
        }
        Condition::Not(part) => {
            answer.add(" (NOT");
            write_predicate(alloc, part, answer);
        }
        Condition::And(parts) => {
            answer.add(" (AND");
            for part in parts {
                write_predicate(alloc, part, answer);
            }
        }
        Condition::Or(parts) => {
            answer.add(" (OR");
            for part in parts {
                write_predicate(alloc, part, answer);
            }
        }
    }
    answer.add(")");
}
