ghost use Rattle.std.specs.Prelude.{◌≡◌};
ghost use Rattle.rt_script.specs.Command.{asking_of, command_of, further_of, node_of, outside_of, replica_of};

/// The first word of a line whose further words have a grammar of their own.
#[derive(Clone, Copy, Debug, PartialEq, Eq)]
pub enum Command {
    Tick,
    Lead,
    Fault,
    Show,
    Consume,
    Force,
    Stop,
    Build,
    Report,
    Extend,
    Transit,
    Download,
    Deliver,
    Job,
    Reply,
    Crash,
    Restart,
    See,
    Repair,
    Retain,
    Route,
    Piece,
    Answer,
    Fill,
    Exchange,
    Settle,
    ForceStatus,
    Peer,
    Rehearse,
}

impl Command {
    /// The command that a word is, if it is one.
    pub(crate) fn of(word: &[u8]) -> Option<Command>
        ensures { result ≡ command_of word.now }
    {
        if let Some(command) = outside(word) {
            return Some(command);
        }
        if let Some(command) = replica(word) {
            return Some(command);
        }
        if let Some(command) = node(word) {
            return Some(command);
        }
        if let Some(command) = asking(word) {
            return Some(command);
        }
        further(word)
    }
}

// What lies outside the nodes.
fn outside(word: &[u8]) -> Option<Command>
    ensures { result ≡ outside_of word.now }
{
    if word == b"tick".as_slice() {
        Some(Command::Tick)
    } else if word == b"lead".as_slice() {
        Some(Command::Lead)
    } else if word == b"fault".as_slice() {
        Some(Command::Fault)
    } else if word == b"show".as_slice() {
        Some(Command::Show)
    } else if word == b"fill".as_slice() {
        Some(Command::Fill)
    } else if word == b"settle".as_slice() {
        Some(Command::Settle)
    } else {
        None
    }
}

// What names a replica.
fn replica(word: &[u8]) -> Option<Command>
    ensures { result ≡ replica_of word.now }
{
    if word == b"consume".as_slice() {
        Some(Command::Consume)
    } else if word == b"force".as_slice() {
        Some(Command::Force)
    } else if word == b"stop".as_slice() {
        Some(Command::Stop)
    } else if word == b"build".as_slice() {
        Some(Command::Build)
    } else if word == b"report".as_slice() {
        Some(Command::Report)
    } else if word == b"extend".as_slice() {
        Some(Command::Extend)
    } else if word == b"transit".as_slice() {
        Some(Command::Transit)
    } else if word == b"download".as_slice() {
        Some(Command::Download)
    } else if word == b"exchange".as_slice() {
        Some(Command::Exchange)
    } else {
        None
    }
}

// What a node does beside its replicas.
fn node(word: &[u8]) -> Option<Command>
    ensures { result ≡ node_of word.now }
{
    if word == b"deliver".as_slice() {
        Some(Command::Deliver)
    } else if word == b"job".as_slice() {
        Some(Command::Job)
    } else if word == b"reply".as_slice() {
        Some(Command::Reply)
    } else if word == b"crash".as_slice() {
        Some(Command::Crash)
    } else if word == b"restart".as_slice() {
        Some(Command::Restart)
    } else if word == b"see".as_slice() {
        Some(Command::See)
    } else if word == b"repair".as_slice() {
        Some(Command::Repair)
    } else if word == b"retain".as_slice() {
        Some(Command::Retain)
    } else {
        None
    }
}

// What the broker does.
fn asking(word: &[u8]) -> Option<Command>
    ensures { result ≡ asking_of word.now }
{
    if word == b"route".as_slice() {
        Some(Command::Route)
    } else if word == b"piece".as_slice() {
        Some(Command::Piece)
    } else if word == b"answer".as_slice() {
        Some(Command::Answer)
    } else {
        None
    }
}

// What stands beside the events.
fn further(word: &[u8]) -> Option<Command>
    ensures { result ≡ further_of word.now }
{
    if word == b"forceStatus".as_slice() {
        Some(Command::ForceStatus)
    } else if word == b"peer".as_slice() {
        Some(Command::Peer)
    } else if word == b"rehearse".as_slice() {
        Some(Command::Rehearse)
    } else {
        None
    }
}
