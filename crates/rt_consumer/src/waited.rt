ghost use Rattle.std.specs.Prelude.{◌≡◌};
ghost use Rattle.rt_consumer.specs.Consumer.{number_of};

use rt_model::RequestNumber;

/// The request whose answer a replica waits for.
#[derive(Clone, Copy, Debug, PartialEq, Eq)]
pub enum Waited {
    /// The request of its state or stage.
    Step(RequestNumber),
    /// The request for more time.
    Extend(RequestNumber),
}

impl Waited {
    /// The request's number.
    pub fn number(self) -> RequestNumber
        ensures { result ≡ number_of self }
    {
        match self {
            Waited::Step(number) => number,
            Waited::Extend(number) => number,
        }
    }
}
