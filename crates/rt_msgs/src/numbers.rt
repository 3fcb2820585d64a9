ghost use Rattle.std.specs.Prelude.{◌≡◌, ◌+◌, ◌^◌, ◌<◌, ℕ};
ghost use Rattle.std.specs.List.{AllPairs};
ghost use Rattle.rt_model.specs.declared.request.RequestNumber.{RequestNumber};
ghost use Rattle.rt_msgs.specs.Numbered.{Numbered, number_at, drawn};

use rt_base::Instance;
use rt_model::RequestNumber;
use std::marker::Model;

/// The numbers of the requests that an instance makes in one incarnation, drawn one after the other from 0.
#[derive(Drop)]
pub struct Numbers {
    instance: Instance,
    incarnation: u64,
    made: u64,
}

impl Model for Numbers {
    ghost use Rattle.rt_msgs.specs.Numbered.{Numbered};

    ghost Value = { Numbered };

    ghost view = { λ a. record { instance = a.instance; incarnation = a.incarnation; made = a.made } };
}

impl Numbers {
    /// The numbers of an incarnation that has made no request yet.
    pub fn make(instance: Instance, incarnation: u64) -> Self
        ensures { result ≡ record { instance = instance; incarnation = incarnation; made = 0 } }
    {
        Numbers {
            instance,
            incarnation,
            made: 0,
        }
    }

    /// The next number, which is drawn once. Takes no memory, and needs fewer than 2^63 numbers drawn before it.
    pub fn next(&mut self) -> RequestNumber
        requires { self.old.made < 2 ^ 63 }
        ensures number { result ≡ number_at self.old self.old.made }
        ensures drawn { self.new ≡ record self.old { made = self.old.made + 1 } }
    {
        let number = RequestNumber {
            instance: self.instance,
            incarnation: self.incarnation,
            count: self.made,
        };
        self.made += 1;
        number
    }

    /// The number that `next` would draw.
    pub fn upcoming(&self) -> RequestNumber
        ensures { result ≡ number_at self.now self.now.made }
    {
        RequestNumber {
            instance: self.instance,
            incarnation: self.incarnation,
            count: self.made,
        }
    }

    /// How many numbers were drawn.
    pub fn made(&self) -> u64
        ensures { result ≡ self.now.made }
    {
        self.made
    }
}

/// Two numbers are one only where they were drawn by one instance, in one incarnation, at one count; so the numbers
/// that are drawn of one incarnation differ, however many there are.
pub fn numbers_differ()
    ensures apart { (n m : Numbered) (i j : ℕ) → number_at n i ≡ number_at m j
        → (n.instance ≡ m.instance) × (n.incarnation ≡ m.incarnation) × (i ≡ j) }
    ensures drawn { (n : Numbered) (count : ℕ) → AllPairs (λ a b. a ≡ b → ⊥) (drawn n count) }
{}
