ghost use Rattle.std.specs.Prelude.{◌≡◌, ◌<◌, ◌-◌, ◌^◌, [], ◌∷◌, ◌++◌, length, IfOk, Some};
ghost use Rattle.rt_front.specs.Histories.{history, known};
ghost use Rattle.rt_ground.specs.Histories.{whats};
ghost use Rattle.rt_lists.specs.Members.{IsFront};

use rt_broker::PieceGiven;
use rt_front::{Blank, Chronicle, Front, Keeper, found};
use std::alloc::{AllocError, Global};
use std::marker::Model;

/// The history of what a server was asked by the broker and gave. Contracts see the history.
#[derive(Drop)]
pub struct PieceKeeper {
    chronicle: Chronicle<PieceGiven>,
    keeper: Keeper<PieceGiven>,
}

impl Model for PieceKeeper {
    ghost use Rattle.std.specs.Prelude.{◌≡◌};
    ghost use Rattle.rt_broker.specs.declared.piece_given.PieceGiven.{PieceGiven as Given};
    ghost use Rattle.rt_front.specs.Histories.{History};

    ghost Value = { History Given };

    ghost view = { λ p. p.keeper };

    ghost invariant = { λ p. p.keeper.chronicle ≡ p.chronicle };
}

impl PieceKeeper {
    /// An empty history, and the front of the broker. Fails only where memory is refused.
    pub fn found(
        alloc: Global,
        blank: Blank<PieceGiven>,
    ) -> Result<(PieceKeeper, Front<PieceGiven>), AllocError>
        ensures keeper { IfOk result (λ r. r.0 ≡ history blank [] 1) }
        ensures front { IfOk result (λ r. r.1 ≡ known blank [] (0 ∷ [])) }
    {
        let (chronicle, keeper, fronts) = found(alloc, blank, 1)?;
        match only(fronts) {
            Some(front) => Ok((PieceKeeper { chronicle, keeper }, front)),
            None => Err(AllocError),
        }
    }

    /// Notes what was given, and shows the broker's front all that was.
    pub(crate) fn note(&mut self, front: &mut Front<PieceGiven>, given: &PieceGiven)
        requires chronicle { front.old.chronicle ≡ self.old.chronicle }
        requires room { length self.old.log < 2 ^ 64 - 1 }
        ensures chronicle { self.new.chronicle ≡ self.old.chronicle }
        ensures given { whats self.new.log ≡ whats self.old.log ++ given.now ∷ [] }
        ensures front { front.new ≡ known front.old.chronicle self.new.log front.old.numbers }
        ensures begins { IsFront front.old.seen self.old.log }
    {
        self.keeper.advance(&self.chronicle, front, given);
    }

    /// Shows a front all that was given.
    pub fn tell(&mut self, front: &mut Front<PieceGiven>)
        requires { front.old.chronicle ≡ self.old.chronicle }
        ensures same { self.new ≡ self.old }
        ensures front { front.new ≡ known front.old.chronicle self.old.log front.old.numbers }
        ensures begins { IsFront front.old.seen self.old.log }
    {
        self.keeper.tell(&self.chronicle, front);
    }
}

// The one item.
fn only<T: Drop>(items: Vec<T>) -> Option<T>
    ensures { (x : T) → items.items ≡ x ∷ [] → result ≡ Some x }
{
    let mut items = items;
    items.pop()
}
