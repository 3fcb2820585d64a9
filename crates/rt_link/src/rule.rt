use crate::envelope::Envelope;
use crossbeam_queue::protocol::{Join, Lesson, Outcome, Protocol, Split};
use crossbeam_queue::{Pass, RuledArrayQueue};
use std::alloc::Global;
use std::collections::LinkedList;

/// An envelope in the queue, with its sender's number.
#[derive(Drop)]
pub struct Sent {
    pub sender: u32,
    pub envelope: Envelope,
}

/// All that was accepted of a sender. No value of it is made.
pub struct Account {
    pub from: u64,
    pub accepted: LinkedList<Envelope>,
}

/// What a pass of the queue knows. The owner's knows how many senders were made, what it took, and the accounts of the
/// senders that it gathered; a sender's knows its own account. No value of it is made.
pub struct Knows {
    pub owns: bool,
    pub made: u64,
    pub taken: LinkedList<Sent>,
    pub gathered: LinkedList<Account>,
    pub sends: bool,
    pub mine: Account,
}

pub(crate) type Line = RuledArrayQueue<Sent, Knows, Delivery, Global>;

pub(crate) type Ticket = Pass<Sent, Knows>;

/// What was taken, followed by what is queued, is of each sender what was accepted of it.
pub struct Delivery;

impl Protocol<Sent, Knows> for Delivery {
    ghost use Rattle.std.specs.Prelude.{[]};
    ghost use Rattle.rt_link.specs.Delivery.{Delivers, owner};

    ghost holds = { Delivers };

    ghost first = { owner 0 [] [] };
}

/// The owner makes the next sender.
pub struct Makes;

impl Split<Knows> for Makes {
    ghost use Rattle.rt_link.specs.Delivery.{maker, next_sender};

    ghost left = { maker };

    ghost right = { next_sender };
}

/// The owner takes in a sender that has ended.
pub struct Gathers;

impl Join<Knows> for Gathers {
    ghost use Rattle.rt_link.specs.Delivery.{gatherer, idle};

    ghost both = { gatherer };

    ghost spent = { idle };
}

/// A sender's envelope is accepted.
pub struct Posts;

impl Outcome<Sent, Knows> for Posts {
    ghost use Rattle.rt_link.specs.Delivery.{Accepts};

    ghost then = { Accepts };
}

impl Lesson<Sent, Knows> for Posts {
    ghost use Rattle.std.specs.Prelude.{⊤};

    ghost fact = { λ v items. ⊤ };
}

/// The owner takes an envelope, or learns what it has taken where there is none.
pub struct Takes;

impl Outcome<Sent, Knows> for Takes {
    ghost use Rattle.rt_link.specs.Delivery.{TakesOne};

    ghost then = { TakesOne };
}

impl Lesson<Sent, Knows> for Takes {
    ghost use Rattle.rt_link.specs.Delivery.{AddsUp};

    ghost fact = { λ v items. AddsUp v.made v.taken v.gathered items };
}
