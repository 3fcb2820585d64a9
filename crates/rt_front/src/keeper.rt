ghost use Rattle.std.specs.Prelude.{◌≡◌, ◌+◌, ◌-◌, ◌^◌, ◌<◌, [], ◌∷◌, ◌++◌, length, All};
ghost use Rattle.rt_front.specs.Rules.{keeper_view, front_view, hand, IsSeat};
ghost use Rattle.rt_front.specs.Histories.{History, history, known, entry, first_of, mine, AreBelow};
ghost use Rattle.rt_lists.specs.Members.{IsFront as IsPrefix};

use crate::chronicle::Chronicle;
use crate::front::Front;
use crate::rule::{Adds, Guest, Law, Shows, View};
use atomic_table::{Seat, Shared};
use std::marker::Model;

pub(crate) type Desk<T> = Shared<T, View<T>, (), Law>;

pub(crate) type Chair<T> = Seat<T, View<T>>;

/// The right to add to a history, for the value in which the entries are stored. Contracts see it as the history:
/// its chronicle, its entries, and the number of fronts with which it was founded.
#[derive(Drop)]
pub struct Keeper<T> {
    pub(crate) seat: Chair<T>,
    pub(crate) count: u64,
}

impl<T> Model for Keeper<T> {
    ghost use Rattle.std.specs.Prelude.{◌≡◌, [], length};
    ghost use Rattle.rt_front.specs.Histories.{History, history};

    ghost Value = { History T };

    ghost use Rattle.rt_front.specs.Rules.{keeper_view};

    ghost view = { λ k. history k.seat.table_id k.seat.me.0.own.seen k.seat.me.0.made };

    ghost invariant = { λ k. (k.count ≡ length k.seat.me.0.own.seen) × (k.seat.me.1 ≡ [])
        × (k.seat.me.0 ≡ keeper_view k.seat.me.0.made k.seat.me.0.own.seen) };
}

impl<T> Keeper<T> {
    /// Adds an entry for a front, which has then seen the whole history.
    pub fn advance(&mut self, chronicle: &Chronicle<T>, front: &mut Front<T>, what: &T)
        requires chronicle { (self.old.chronicle ≡ chronicle.now) × (front.old.chronicle ≡ chronicle.now) }
        requires room { length self.old.log < 2 ^ 64 - 1 }
        ensures keeper { self.new ≡ history self.old.chronicle
            (self.old.log ++ entry (first_of front.old.numbers) (length front.old.seen) what.now ∷ []) self.old.made }
        ensures front { front.new ≡ known front.old.chronicle self.new.log front.old.numbers }
        ensures mine { mine front.new.numbers front.new.seen ≡ mine front.old.numbers front.old.seen
            ++ entry (first_of front.old.numbers) (length front.old.seen) what.now ∷ [] }
        ensures begins { IsPrefix front.old.seen self.old.log }
        ensures made { All (λ e. e.front < self.old.made) self.new.log }
        ensures below { AreBelow self.old.made front.old.numbers }
    {
        let Some(seat) = front.seat.take() else {
            unreachable!()
        };
        let count = self.count;
        front.seat = Some(add_for(&chronicle.table.shared, &mut self.seat, seat, count, what));
        self.count = count + 1;
        front.told = count + 1;
    }

    /// Tells a front the whole history.
    pub fn tell(&mut self, chronicle: &Chronicle<T>, front: &mut Front<T>)
        requires chronicle { (self.old.chronicle ≡ chronicle.now) × (front.old.chronicle ≡ chronicle.now) }
        ensures keeper { self.new ≡ self.old }
        ensures front { front.new ≡ known front.old.chronicle self.old.log front.old.numbers }
        ensures mine { mine front.new.numbers front.new.seen ≡ mine front.old.numbers front.old.seen }
        ensures begins { IsPrefix front.old.seen self.old.log }
        ensures made { All (λ e. e.front < self.old.made) self.old.log }
        ensures below { AreBelow self.old.made front.old.numbers }
    {
        let Some(seat) = front.seat.take() else {
            unreachable!()
        };
        front.seat = Some(show(&chronicle.table.shared, &mut self.seat, seat));
        front.told = self.count;
    }
}

/// Adds an entry for the front on a chair.
fn add_for<T>(
    table: &Desk<T>,
    keeper: &mut Chair<T>,
    guest: Chair<T>,
    count: u64,
    what: &T,
) -> Chair<T>
    requires table { (table.now.table_id.words ≡ 1) × (keeper.old.table_id ≡ table.now.table_id)
        × (guest.table_id ≡ table.now.table_id) }
    requires keeper { (keeper.old.me ≡ (keeper_view keeper.old.me.0.made keeper.old.me.0.own.seen, []))
        × (count ≡ length keeper.old.me.0.own.seen) × (count < 2 ^ 64 - 1) }
    requires guest { IsSeat guest }
    ensures keeper { (keeper.new.table_id ≡ keeper.old.table_id)
        × (keeper.new.me ≡ (
          keeper_view keeper.old.me.0.made
              (keeper.old.me.0.own.seen
              ++ entry (first_of guest.me.0.own.numbers) (length guest.me.0.own.seen) what.now ∷ []),
          [],
        )) }
    ensures guest { (result.table_id ≡ guest.table_id)
        × (result.me ≡ (front_view (hand keeper.new.me.0.own.seen guest.me.0.own.numbers), [])) }
    ensures mine { mine guest.me.0.own.numbers keeper.old.me.0.own.seen
        ≡ mine guest.me.0.own.numbers guest.me.0.own.seen }
    ensures begins { IsPrefix guest.me.0.own.seen keeper.old.me.0.own.seen }
    ensures made { All (λ e. e.front < keeper.old.me.0.made) keeper.new.me.0.own.seen }
    ensures below { AreBelow keeper.old.me.0.made guest.me.0.own.numbers }
{
    table.join_seat::<Guest>(keeper, guest);
    table.compare_exchange_with::<Adds>(keeper, 0, count, count + 1, what);
    table.split_seat::<Guest>(keeper)
}

/// Shows the whole history to the front on a chair.
fn show<T>(table: &Desk<T>, keeper: &mut Chair<T>, guest: Chair<T>) -> Chair<T>
    requires table { (table.now.table_id.words ≡ 1) × (keeper.old.table_id ≡ table.now.table_id)
        × (guest.table_id ≡ table.now.table_id) }
    requires keeper { keeper.old.me ≡ (keeper_view keeper.old.me.0.made keeper.old.me.0.own.seen, []) }
    requires guest { IsSeat guest }
    ensures keeper { (keeper.new.table_id ≡ keeper.old.table_id) × (keeper.new.me ≡ keeper.old.me) }
    ensures guest { (result.table_id ≡ guest.table_id)
        × (result.me ≡ (front_view (hand keeper.old.me.0.own.seen guest.me.0.own.numbers), [])) }
    ensures mine { mine guest.me.0.own.numbers keeper.old.me.0.own.seen
        ≡ mine guest.me.0.own.numbers guest.me.0.own.seen }
    ensures begins { IsPrefix guest.me.0.own.seen keeper.old.me.0.own.seen }
    ensures made { All (λ e. e.front < keeper.old.me.0.made) keeper.old.me.0.own.seen }
    ensures below { AreBelow keeper.old.me.0.made guest.me.0.own.numbers }
{
    table.join_seat::<Guest>(keeper, guest);
    table.load::<Shows>(keeper, 0);
    table.split_seat::<Guest>(keeper)
}
