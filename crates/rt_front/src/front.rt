ghost use Rattle.std.specs.Prelude.{◌≡◌, ◌≤◌, [], ◌++◌, length};
ghost use Rattle.rt_front.specs.Rules.{front_view, hand, longer, IsSeat};
ghost use Rattle.rt_front.specs.Histories.{known, first_of, mine, ShareNone};
ghost use Rattle.rt_lists.specs.Members.{IsFront as IsPrefix};

use crate::chronicle::Chronicle;
use crate::keeper::{Chair, Desk};
use crate::rule::{Folds, Guest, Looks};
use std::marker::Model;

/// What a caller has seen of a history, and the numbers under which its entries stand. Contracts see it as the
/// chronicle, the entries seen and the numbers; what is the caller's own is `mine` of the two.
#[derive(Drop)]
pub struct Front<T> {
    /// There at all times, but inside a call that moves it.
    pub(crate) seat: Option<Chair<T>>,
    pub(crate) number: u64,
    pub(crate) told: u64,
}

impl<T> Model for Front<T> {
    ghost use Rattle.rt_front.specs.Histories.{Known};

    ghost Value = { Known T };

    ghost use Rattle.rt_front.specs.Rules.{known_by, IsFront};

    ghost view = { λ f. known_by f.seat };

    ghost invariant = { λ f. IsFront f.seat f.number f.told };
}

impl<T> Front<T> {
    /// Its first number, under which its entries are added.
    pub fn number(&self) -> u64
        ensures { result ≡ first_of self.now.numbers }
    {
        self.number
    }

    /// How many entries it has seen.
    pub fn told(&self) -> u64
        ensures { result ≡ length self.now.seen }
    {
        self.told
    }

    /// A length that the history has in this call, with nothing more seen of it.
    pub fn look(&mut self, chronicle: &Chronicle<T>) -> u64
        requires { self.old.chronicle ≡ chronicle.now }
        ensures same { self.new ≡ self.old }
        ensures found { length self.old.seen ≤ result }
    {
        let Some(seat) = &mut self.seat else {
            unreachable!()
        };
        look_from(&chronicle.table.shared, seat)
    }

    /// Takes in another front: the longer of what the two have seen, and the numbers of both, of which none stands in
    /// both.
    #[tactic(auto, using(crate::proofs::Numbers::first_left, crate::proofs::Numbers::has_none_left, crate::proofs::Numbers::length_longer))]
    pub fn meet(&mut self, chronicle: &Chronicle<T>, other: Front<T>)
        requires { (self.old.chronicle ≡ chronicle.now) × (other.chronicle ≡ chronicle.now) }
        ensures both { self.new
            ≡ known self.old.chronicle (longer self.old.seen other.seen) (self.old.numbers ++ other.numbers) }
        ensures begins { IsPrefix self.old.seen self.new.seen × IsPrefix other.seen self.new.seen }
        ensures mine { (mine self.old.numbers self.new.seen ≡ mine self.old.numbers self.old.seen)
            × (mine other.numbers self.new.seen ≡ mine other.numbers other.seen) }
        ensures apart { ShareNone self.old.numbers other.numbers }
    {
        let Front {
            seat: other_seat,
            number: _,
            told: other_told,
        } = other;
        let Some(other_seat) = other_seat else {
            unreachable!()
        };
        let Some(seat) = self.seat.take() else {
            unreachable!()
        };
        self.seat = Some(fold(&chronicle.table.shared, seat, other_seat));
        self.told = self.told.max(other_told);
    }
}

/// Looks how long the history is.
fn look_from<T>(table: &Desk<T>, seat: &mut Chair<T>) -> u64
    requires table { (table.now.table_id.words ≡ 1) × (seat.old.table_id ≡ table.now.table_id) }
    ensures same { (seat.new.table_id ≡ seat.old.table_id) × (seat.new.me ≡ seat.old.me) }
    ensures found { length seat.old.me.0.own.seen ≤ result }
{
    table.load::<Looks>(seat, 0)
}

/// Takes in the front on another chair.
fn fold<T>(table: &Desk<T>, mut seat: Chair<T>, other: Chair<T>) -> Chair<T>
    requires table { (table.now.table_id.words ≡ 1) × (seat.table_id ≡ table.now.table_id)
        × (other.table_id ≡ table.now.table_id) }
    requires seat { IsSeat seat }
    requires other { IsSeat other }
    ensures seat { (result.table_id ≡ seat.table_id)
        × (result.me ≡ (
          front_view (hand (longer seat.me.0.own.seen other.me.0.own.seen)
              (seat.me.0.own.numbers ++ other.me.0.own.numbers)),
          [],
        )) }
    ensures begins { IsPrefix seat.me.0.own.seen result.me.0.own.seen
        × IsPrefix other.me.0.own.seen result.me.0.own.seen }
    ensures mine { (mine seat.me.0.own.numbers result.me.0.own.seen
        ≡ mine seat.me.0.own.numbers seat.me.0.own.seen)
        × (mine other.me.0.own.numbers result.me.0.own.seen
        ≡ mine other.me.0.own.numbers other.me.0.own.seen) }
    ensures apart { ShareNone seat.me.0.own.numbers other.me.0.own.numbers }
{
    table.join_seat::<Guest>(&mut seat, other);
    table.load::<Folds>(&mut seat, 0);
    seat
}
