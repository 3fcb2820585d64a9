ghost use Rattle.std.specs.Prelude.{◌≡◌, ◌+◌, [], ◌∷◌, map, IfOk};
ghost use Rattle.std.specs.List.{range_with_len};
ghost use Rattle.rt_front.specs.Rules.{keeper_view, front_view, hand};
ghost use Rattle.rt_front.specs.Histories.{history, known};

use crate::chronicle::Chronicle;
use crate::front::Front;
use crate::keeper::{Chair, Desk, Keeper};
use crate::rule::{Guest, Law, View};
use atomic_table::Table;
use std::alloc::{AllocError, Global};
use std::marker::Model;

/// A chronicle that has no front yet. A caller takes from it the name of the history that it will found, before it
/// knows how many fronts there will be. Contracts see it as that name.
#[derive(Drop)]
pub struct Blank<T> {
    chronicle: Chronicle<T>,
    keeper: Keeper<T>,
}

impl<T> Model for Blank<T> {
    ghost use Rattle.std.specs.Prelude.{◌≡◌, []};
    ghost use Rattle.atomic_table.specs.Seated.{TableId};

    ghost Value = { TableId };

    ghost use Rattle.rt_front.specs.Histories.{history};

    ghost view = { λ b. b.chronicle };

    ghost invariant = { λ b. b.keeper ≡ history b.chronicle [] 0 };
}

impl<T> Blank<T> {
    /// A name that no other history has.
    pub fn new(alloc: Global) -> Result<Blank<T>, AllocError> {
        let (table, seat) = Table::<T, View<T>, (), Law, Global>::of_words(alloc, &[0], &())?;
        Ok(Blank {
            chronicle: Chronicle { table },
            keeper: Keeper { seat, count: 0 },
        })
    }
}

/// Founds an empty history: its chronicle, its keeper, and this many fronts, of which each has its place as its one
/// number.
pub fn found<T: Drop>(
    alloc: Global,
    blank: Blank<T>,
    fronts: u32,
) -> Result<(Chronicle<T>, Keeper<T>, Vec<Front<T>>), AllocError>
    ensures chronicle { IfOk result (λ r. r.0 ≡ blank) }
    ensures keeper { IfOk result (λ r. r.1 ≡ history blank [] fronts) }
    ensures fronts { IfOk result (λ r. r.2.items ≡ map (λ k. known blank [] (k ∷ [])) (range_with_len 0 fronts)) }
{
    let Blank {
        chronicle,
        mut keeper,
    } = blank;
    let mut made = Vec::with_capacity(alloc, fronts as usize)?;
    for number in 0..fronts {
        made.push_reserved(new_front(&chronicle, &mut keeper, number));
    }
    Ok((chronicle, keeper, made))
}

/// A front of an empty history, with the next number.
fn new_front<T>(chronicle: &Chronicle<T>, keeper: &mut Keeper<T>, number: u32) -> Front<T>
    requires { keeper.old ≡ history chronicle.now [] number }
    ensures keeper { keeper.new ≡ history chronicle.now [] (number + 1) }
    ensures front { result ≡ known chronicle.now [] (number ∷ []) }
{
    let seat = hand_out(&chronicle.table.shared, &mut keeper.seat);
    Front {
        seat: Some(seat),
        number: u64::from(number),
        told: 0,
    }
}

/// Hands out a chair with the next number.
fn hand_out<T>(table: &Desk<T>, keeper: &mut Chair<T>) -> Chair<T>
    requires table { (table.now.table_id.words ≡ 1) × (keeper.old.table_id ≡ table.now.table_id) }
    requires keeper { keeper.old.me ≡ (keeper_view keeper.old.me.0.made keeper.old.me.0.own.seen, []) }
    ensures keeper { (keeper.new.table_id ≡ keeper.old.table_id)
        × (keeper.new.me ≡ (keeper_view (keeper.old.me.0.made + 1) keeper.old.me.0.own.seen, [])) }
    ensures guest { (result.table_id ≡ keeper.old.table_id)
        × (result.me ≡ (front_view (hand keeper.old.me.0.own.seen (keeper.old.me.0.made ∷ [])), [])) }
{
    table.split_seat::<Guest>(keeper)
}
