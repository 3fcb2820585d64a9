ghost use Rattle.std.specs.Prelude.{◌≡◌, Some, None, IfSome, IfNone};
ghost use Rattle.rt_lines.specs.Header.{Says};
ghost use Rattle.rt_live_input.specs.Input.{calm};
ghost use Rattle.rt_live_input.specs.ChaosWords.{
  chaos_at,
  chaos_said,
  crash_of,
  crash_within,
  leaders_of,
  next_crash,
  server_crash,
};

use rt_base::Instance;
use rt_base::limits::LAST_NUMBER;
use rt_lines::{LineReason, PlayFault, after_prefix, next_field, number_up_to, part_at};
use rt_model::Setup;

/// How the nodes of a cluster are disturbed.
#[derive(Clone, Copy, Debug, PartialEq, Eq)]
pub struct Chaos {
    /// Each node doesn't post its message of this number, nor of a multiple of it; 0 is no message.
    pub drop: u64,
    /// Each node posts its message of this number, and of each multiple of it, twice; 0 is no message.
    pub repeat: u64,
    /// The server that crashes, where one does.
    pub crash: Option<Crash>,
    /// So many controllers believe that they lead, from the first on.
    pub leaders: u32,
}

/// A server crashes at the beginning of its own turn of this number, counted from 0.
#[derive(Clone, Copy, Debug, PartialEq, Eq)]
pub struct Crash {
    pub instance: Instance,
    pub turn: u64,
}

impl Chaos {
    /// Nothing is disturbed, and one controller leads.
    pub fn none() -> Chaos
        ensures { result ≡ calm }
    {
        Chaos {
            drop: 0,
            repeat: 0,
            crash: None,
            leaders: 1,
        }
    }
}

/// What a line of this number says behind `chaos `.
pub(crate) fn read_chaos(setup: &Setup, number: u64, text: &[u8]) -> Result<Chaos, PlayFault>
    ensures { Says (chaos_at setup.now number text.now) result }
{
    let Some(chaos) = chaos_said(setup.controllers, text) else {
        return Err(PlayFault::Refused {
            line: number,
            reason: LineReason::BadLine,
        });
    };
    if !crash_within(setup.servers, chaos.crash) {
        return Err(PlayFault::Refused {
            line: number,
            reason: LineReason::NoSuchNode,
        });
    }
    Ok(chaos)
}

// Whether the server that crashes, where one does, is below their number.
fn crash_within(servers: u32, crash: Option<Crash>) -> bool
    ensures { result ≡ crash_within servers crash }
{
    match crash {
        Some(crash) => crash.instance.0 < servers,
        None => true,
    }
}

// `drop=D repeat=E crash=C leaders=N`, in a cluster of so many controllers
fn chaos_said(controllers: u32, text: &[u8]) -> Option<Chaos>
    ensures { result ≡ chaos_said controllers text.now }
{
    let (drop, text) = next_field(b"drop=".as_slice(), text)?;
    let (repeat, text) = next_field(b"repeat=".as_slice(), text)?;
    let (crash, text) = next_crash(text)?;
    let leaders = leaders_said(controllers, text)?;
    if drop == 1 {
        return None;
    }
    Some(Chaos {
        drop,
        repeat,
        crash,
        leaders,
    })
}

// `crash=C` and a space
fn next_crash(text: &[u8]) -> Option<(Option<Crash>, &[u8])>
    ensures some { IfSome result (λ found. next_crash text.now ≡ Some (found.0, found.1.now)) }
    ensures none { IfNone result (next_crash text.now ≡ None) }
{
    let (word, text) = part_at(text, b' ')?;
    let crash = crash_said(after_prefix(word, b"crash=".as_slice())?)?;
    Some((crash, text))
}

// `sK@T`, or `-` where no server crashes
fn crash_said(word: &[u8]) -> Option<Option<Crash>>
    ensures { result ≡ crash_of word.now }
{
    if word == b"-".as_slice() {
        return Some(None);
    }
    let crash = server_crash(word)?;
    Some(Some(crash))
}

// `sK@T`
fn server_crash(word: &[u8]) -> Option<Crash>
    ensures { result ≡ server_crash word.now }
{
    let text = after_prefix(word, b"s".as_slice())?;
    let (server, turn) = part_at(text, b'@')?;
    let server = number_up_to(u64::from(LAST_NUMBER), server)?;
    let turn = number_up_to(u64::MAX, turn)?;
    Some(Crash {
        instance: Instance(server as u32),
        turn,
    })
}

// `leaders=N`, one at least and at most all
fn leaders_said(controllers: u32, text: &[u8]) -> Option<u32>
    ensures { result ≡ leaders_of controllers text.now }
{
    let word = after_prefix(text, b"leaders=".as_slice())?;
    match number_up_to(u64::from(controllers), word) {
        Some(0) => None,
        Some(number) => Some(number as u32),
        None => None,
    }
}
