ghost use Rattle.std.specs.Prelude.{◌↔◌, ◌<◌, ◌^◌, All, IsTrue, length};

use rt_call_words::{Answer, Stop, Words};
use rt_postings::{DocSet, Postings};
use std::alloc::Global;

/// `postings CARDINALITY IDS`: the rows of each id, with `; ` between them.
pub fn postings(alloc: Global, words: &mut Words, answer: &mut Answer) -> Result<(), Stop> {
    let cardinality = words.count();
    let ids = words.counts(alloc);
    words.ended()?;
    if ids.len() >= 4_294_967_296 || !are_below(ids.as_slice(), cardinality) {
        return Err(Stop::Refused);
    }
    write_postings(alloc, ids.as_slice(), cardinality, answer)
}

#[tactic(auto, using(rt_postings::proofs::Sorting::length_postings))]
fn write_postings(
    alloc: Global,
    ids: &[u32],
    cardinality: u32,
    answer: &mut Answer,
) -> Result<(), Stop>
    requires few { length ids.now < 2 ^ 32 }
    requires below { All (λ id. id < cardinality) ids.now }
{
    let postings = Postings::build(alloc, ids, cardinality)?;
    for id in 0..cardinality {
        if id > 0 {
            answer.add("; ");
        }
        answer.counts(postings.docs(id));
    }
    Ok(())
}

// Whether each id is below the cardinality.
fn are_below(ids: &[u32], cardinality: u32) -> bool
    ensures { IsTrue result ↔ All (λ id. id < cardinality) ids.now }
{
    ids.iter().all(|id| *id < cardinality)
}

/// `docset ROWS`, a tab and calls with `; ` between them: each call's answer, and of one that changes the set its rows.
pub fn docset(alloc: Global, words: &mut Words, answer: &mut Answer) -> Result<(), Stop> {
    let rows = words.count_until('\t');
    let calls = words.rest();
    words.ended()?;
    let mut set = DocSet::empty(alloc, rows)?;
    for (place, call) in calls.split("; ").enumerate() {
        answer.part(place, "; ");
        call_set(alloc, &mut set, &mut Words::of(call), answer)?;
    }
    Ok(())
}

fn call_set(
    alloc: Global,
    set: &mut DocSet,
    words: &mut Words,
    answer: &mut Answer,
) -> Result<(), Stop> {
    match words.word() {
        "has" => has(set, words, answer),
        "next" => next(set, words, answer),
        "not" => {
            words.ended()?;
            set.not();
            write_rows(alloc, set, answer)
        }
        name => {
            change(alloc, set, name, words)?;
            write_rows(alloc, set, answer)
        }
    }
}

fn has(set: &DocSet, words: &mut Words, answer: &mut Answer) -> Result<(), Stop> {
    let row = words.count();
    words.ended()?;
    answer.truth(set.has(row));
    Ok(())
}

fn next(set: &DocSet, words: &mut Words, answer: &mut Answer) -> Result<(), Stop> {
    let row = words.count();
    words.ended()?;
    match set.next_from(row) {
        Some(row) => answer.count(row),
        None => answer.add("none"),
    }
    Ok(())
}

// `add ROW`, `and ROWS`, `or ROWS`
fn change(alloc: Global, set: &mut DocSet, name: &str, words: &mut Words) -> Result<(), Stop> {
    let rows = words.counts(alloc);
    words.ended()?;
    if name == "add" {
        return add(set, rows.as_slice());
    }
    let mut other = DocSet::empty(alloc, set.rows())?;
    add(&mut other, rows.as_slice())?;
    match name {
        "and" => and(set, &other),
        "or" => or(set, &other),
        _ => Err(Stop::BadLine),
    }
}

fn add(set: &mut DocSet, rows: &[u32]) -> Result<(), Stop> {
    for row in rows {
        if *row >= set.rows() {
            return Err(Stop::Refused);
        }
        set.add(*row);
    }
    Ok(())
}

fn and(set: &mut DocSet, other: &DocSet) -> Result<(), Stop> {
    if set.rows() != other.rows() {
        return Err(Stop::Refused);
    }
    set.and(other);
    Ok(())
}

fn or(set: &mut DocSet, other: &DocSet) -> Result<(), Stop> {
    if set.rows() != other.rows() {
        return Err(Stop::Refused);
    }
    set.or(other);
    Ok(())
}

fn write_rows(alloc: Global, set: &DocSet, answer: &mut Answer) -> Result<(), Stop> {
    let mut rows = Vec::new(alloc);
    let mut from = 0u32;
    for _ in 0..set.rows() {
        let Some(row) = set.next_from(from) else {
            break;
        };
        rows.push(row)?;
        from = row.saturating_add(1);
    }
    answer.counts(rows.as_slice());
    Ok(())
}
