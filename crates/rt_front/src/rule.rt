use crate::entry::Entry;
use atomic_table::{Join, Play, Split, TableRule};
use std::collections::LinkedList;

/// A beginning of the history, and the numbers of which no entry stands behind it. No value of it is made.
pub struct Hand<T> {
    pub seen: LinkedList<Entry<T>>,
    pub numbers: LinkedList<u64>,
}

/// What a seat knows. The keeper's own hand is the whole history; its other hand is that of the front which is its
/// guest. A front has a second hand only while it takes in another front. No value of it is made.
pub struct View<T> {
    pub keeps: bool,
    /// How many numbers were made; known to the keeper alone.
    pub made: u64,
    pub own: Hand<T>,
    pub other: Hand<T>,
}

/// The one word is the length of the history, and every hand is right.
pub struct Law;

impl<T> TableRule<T, View<T>, ()> for Law {
    ghost use Rattle.rt_front.specs.Rules.{Kept, beginner};

    ghost holds = { λ _. Kept };

    ghost first = { λ _. beginner };
}

/// A front becomes the guest of a keeper, or of another front, and the keeper hands a guest out again.
pub struct Guest;

impl<T> Join<View<T>> for Guest {
    ghost use Rattle.rt_front.specs.Rules.{hosting, spent_view};

    ghost both = { hosting };

    ghost spent = { spent_view };
}

impl<T> Split<View<T>> for Guest {
    ghost use Rattle.rt_front.specs.Rules.{alone, handed_out};

    ghost left = { alone };

    ghost right = { handed_out };
}

/// The keeper adds an entry for its guest.
pub struct Adds;

impl<T> Play<T, View<T>> for Adds {
    ghost use Rattle.rt_front.specs.Rules.{Advances};

    ghost then = { Advances };
}

/// The keeper shows its guest the whole history.
pub struct Shows;

impl<T> Play<T, View<T>> for Shows {
    ghost use Rattle.rt_front.specs.Rules.{ShowsAll};

    ghost then = { ShowsAll };
}

/// A front looks how long the history is.
pub struct Looks;

impl<T> Play<T, View<T>> for Looks {
    ghost use Rattle.rt_front.specs.Rules.{SeesLength};

    ghost then = { SeesLength };
}

/// A front makes its two hands one.
pub struct Folds;

impl<T> Play<T, View<T>> for Folds {
    ghost use Rattle.rt_front.specs.Rules.{OneHand};

    ghost then = { OneHand };
}
