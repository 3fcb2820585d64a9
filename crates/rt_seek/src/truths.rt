//! Which values of a sorted dictionary pass a test, by their ids.
ghost use Rattle.std.specs.Prelude.{◌≡◌, map, not, length, false, IfOk};
ghost use Rattle.std.specs.List.{range_with_len};
ghost use Rattle.rt_postings.specs.DocSet.{either};
ghost use Rattle.rt_seek.specs.Keys.{key_accepted, compares_keys, equals_one, key_passes, lies_between_by, is_between, is_within, same_key};

use crate::column_test::ColumnTest;
use crate::comparable::Comparable;
use crate::key_test::key_passes;
use rt_dict::{Dict, Edge};
use rt_model::{Comparison, Literal};
use std::alloc::{AllocError, Global};

/// Whether each value of a dictionary passes a test. Fails only where memory is refused.
#[tactic(auto, using(crate::proofs::Sets::map_map))]
pub(crate) fn truths_of<K: Comparable>(
    alloc: Global,
    dict: &Dict<K>,
    test: &ColumnTest<'_>,
) -> Result<Vec<bool>, AllocError>
    ensures { IfOk result (λ truths. truths.items ≡ map (key_passes K.against test.now) dict.now) }
{
    match test {
        ColumnTest::Compare(comparison, literal) => {
            truths_compared(alloc, dict, *comparison, literal)
        }
        ColumnTest::Between(low, high) => truths_between(alloc, dict, low, high),
        ColumnTest::OneOf(literals) => truths_one_of(alloc, dict, literals),
        ColumnTest::NoneOf(literals) => {
            let truths = truths_one_of(alloc, dict, literals)?;
            Ok(turned_round(truths))
        }
    }
}

// Which values compare so with a literal. A literal that is no key is compared with each value.
fn truths_compared<K: Comparable>(
    alloc: Global,
    dict: &Dict<K>,
    comparison: Comparison,
    literal: &Literal,
) -> Result<Vec<bool>, AllocError>
    ensures { IfOk result (λ truths. truths.items ≡ map (λ v. key_accepted K.against comparison v literal.now) dict.now) }
{
    match K::key_of(alloc, literal)? {
        None => truths_one_by_one(alloc, dict, &ColumnTest::Compare(comparison, literal)),
        Some(key) => truths_beside(alloc, dict, comparison, key),
    }
}

// Which values compare so with a key: those of a range of ids, or all but those.
#[tactic(auto, using(crate::proofs::Sets::map_map))]
fn truths_beside<K: Comparable>(
    alloc: Global,
    dict: &Dict<K>,
    comparison: Comparison,
    key: K,
) -> Result<Vec<bool>, AllocError>
    ensures { IfOk result (λ truths. truths.items ≡ map (λ v. compares_keys K.below comparison v key) dict.now) }
{
    match comparison {
        Comparison::Equal => {
            let copy = key.copy(alloc)?;
            truths_within(alloc, dict, &Edge::At(copy), &Edge::At(key))
        }
        Comparison::NotEqual => {
            let copy = key.copy(alloc)?;
            let truths = truths_within(alloc, dict, &Edge::At(copy), &Edge::At(key))?;
            Ok(turned_round(truths))
        }
        Comparison::Less => truths_within(alloc, dict, &Edge::Open, &Edge::Past(key)),
        Comparison::AtMost => truths_within(alloc, dict, &Edge::Open, &Edge::At(key)),
        Comparison::Greater => truths_within(alloc, dict, &Edge::Past(key), &Edge::Open),
        Comparison::AtLeast => truths_within(alloc, dict, &Edge::At(key), &Edge::Open),
    }
}

// Which values lie between two literals.
fn truths_between<'a, K: Comparable>(
    alloc: Global,
    dict: &Dict<K>,
    low: &'a Literal,
    high: &'a Literal,
) -> Result<Vec<bool>, AllocError>
    ensures { IfOk result (λ truths. truths.items ≡ map (λ v. lies_between_by K.against v low.now high.now) dict.now) }
{
    let from = K::key_of(alloc, low)?;
    let to = K::key_of(alloc, high)?;
    match from {
        Some(from) => match to {
            Some(to) => truths_within(alloc, dict, &Edge::At(from), &Edge::At(to)),
            None => truths_one_by_one(alloc, dict, &ColumnTest::Between(low, high)),
        },
        None => truths_one_by_one(alloc, dict, &ColumnTest::Between(low, high)),
    }
}

// Which values equal one of the literals.
fn truths_one_of<K: Comparable>(
    alloc: Global,
    dict: &Dict<K>,
    literals: &[Literal],
) -> Result<Vec<bool>, AllocError>
    ensures { IfOk result (λ truths. truths.items ≡ map (λ v. equals_one K.against v literals.now) dict.now) }
{
    let mut truths = vec![in alloc; false; dict.len() as usize]?;
    for literal in literals {
        match K::key_of(alloc, literal)? {
            Some(key) => mark_key(dict, &key, &mut truths),
            None => return truths_one_by_one(alloc, dict, &ColumnTest::OneOf(literals)),
        }
    }
    Ok(truths)
}

// Marks the value that a key is, if there is one.
fn mark_key<K: Comparable>(dict: &Dict<K>, key: &K, truths: &mut [bool])
    requires { length truths.old ≡ length dict.now }
    ensures { truths.new ≡ either truths.old (map (λ v. same_key K.below v key.now) dict.now) }
{
    if let Some(id) = dict.id_of(key) {
        truths[id as usize] = true;
    }
}

// Which values lie within two edges.
fn truths_within<K: Comparable>(
    alloc: Global,
    dict: &Dict<K>,
    low: &Edge<K>,
    high: &Edge<K>,
) -> Result<Vec<bool>, AllocError>
    ensures { IfOk result (λ truths. truths.items ≡ map (is_within K.below low.now high.now) dict.now) }
{
    let (start, end) = dict.range_ids(low, high);
    truths_of_range(alloc, dict.len(), start, end)
}

// Which of so many ids lie in a range.
#[tactic(auto, using(crate::proofs::Sets::map_range_more))]
fn truths_of_range(alloc: Global, count: u32, start: u32, end: u32) -> Result<Vec<bool>, AllocError>
    ensures { IfOk result (λ truths. truths.items ≡ map (is_between start end) (range_with_len 0 count)) }
{
    let mut truths = Vec::with_capacity(alloc, count as usize)?;
    for id in 0..count {
        truths.push(is_between(start, end, id))?;
    }
    Ok(truths)
}

fn is_between(start: u32, end: u32, id: u32) -> bool
    ensures { result ≡ is_between start end id }
{
    start <= id && id < end
}

// Which values pass a test, one by one.
#[tactic(auto, using(crate::proofs::Sets::map_take_more))]
fn truths_one_by_one<K: Comparable>(
    alloc: Global,
    dict: &Dict<K>,
    test: &ColumnTest<'_>,
) -> Result<Vec<bool>, AllocError>
    ensures { IfOk result (λ truths. truths.items ≡ map (key_passes K.against test.now) dict.now) }
{
    let count = dict.len();
    let mut truths = Vec::with_capacity(alloc, count as usize)?;
    for id in 0..count {
        truths.push(key_passes(test, dict.value(id)))?;
    }
    Ok(truths)
}

/// Whether each of some keys passes a test. Fails only where memory is refused.
#[tactic(auto, using(crate::proofs::Sets::map_take_more))]
pub(crate) fn truths_of_keys<K: Comparable>(
    alloc: Global,
    keys: &[K],
    test: &ColumnTest<'_>,
) -> Result<Vec<bool>, AllocError>
    ensures { IfOk result (λ truths. truths.items ≡ map (key_passes K.against test.now) keys.now) }
{
    let mut truths = Vec::with_capacity(alloc, keys.len())?;
    for key in keys {
        truths.push(key_passes(test, key))?;
    }
    Ok(truths)
}

// The truths, each turned round.
fn turned_round(truths: Vec<bool>) -> Vec<bool>
    ensures { result.items ≡ map not truths.items }
{
    let mut turned = truths;
    turn_round(&mut turned);
    turned
}

// Turns each truth round.
fn turn_round(truths: &mut [bool])
    ensures { truths.new ≡ map not truths.old }
{
    for truth in truths.iter_mut() {
        *truth = !*truth;
    }
}
