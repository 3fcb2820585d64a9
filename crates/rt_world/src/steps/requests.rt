//! What a replica asks of the controller.
ghost use Rattle.std.specs.Prelude.{◌≡◌, IfOk};
ghost use Rattle.rt_state.specs.Requests.{report_due, extend_due, Reports, Extends, sends};
ghost use Rattle.rt_state.specs.Applying.{Applies};
ghost use Rattle.rt_state.specs.IsSafeWorld.{IsSafeWorld};

use rt_base::{Instance, Partition, Sequence};
use rt_events::{Outcome, Refusal};
use rt_lists::Copied;
use rt_model::{Request, Sent};
use rt_state::State;
use std::alloc::{AllocError, Global};

/// A replica sends the request that is due.
#[tactic(auto, using(rt_state::proofs::NeedsServers::report_needs, rt_state::proofs::Going::server_asks))]
pub(crate) fn report(
    state: &mut State,
    alloc: Global,
    instance: Instance,
    partition: Partition,
    sequence: Sequence,
) -> Result<Outcome, Refusal>
    requires { IsSafeWorld state.old }
    ensures { Applies state.old (report_due state.old instance partition sequence) (Reports state.old instance partition sequence) state.new result }
{
    let cost = state.report_due(instance, partition, sequence)?;
    let node = state.servers.at_mut(instance.0 as usize);
    let request = node.ask(alloc, partition, sequence)?;
    let outcome = send(state, alloc, request)?;
    state.counts.spend(cost);
    Ok(outcome)
}

/// A committing replica asks for more time.
#[tactic(auto, using(rt_state::proofs::NeedsServers::extend_needs, rt_state::proofs::Going::server_asks))]
pub(crate) fn extend(
    state: &mut State,
    alloc: Global,
    instance: Instance,
    partition: Partition,
    sequence: Sequence,
    millis: u64,
) -> Result<Outcome, Refusal>
    requires { IsSafeWorld state.old }
    ensures { Applies state.old (extend_due state.old instance partition sequence) (Extends state.old instance partition sequence millis) state.new result }
{
    let cost = state.extend_due(instance, partition, sequence)?;
    let node = state.servers.at_mut(instance.0 as usize);
    let request = node.ask_for(partition, sequence, millis)?;
    let outcome = send(state, alloc, request)?;
    state.counts.spend(cost);
    Ok(outcome)
}

// Keeps a request among the messages, and tells it with its number.
fn send(state: &mut State, alloc: Global, request: Request) -> Result<Outcome, AllocError>
    ensures { IfOk result (λ outcome. (state.new, outcome) ≡ sends state.old request) }
{
    let told = request.copied(alloc)?;
    let message = state.sent.len() as u64;
    match state.sent.push(Sent::Request(request)) {
        Ok(()) => Ok(Outcome::Sent {
            message,
            request: told,
        }),
        Err(refused) => {
            drop(told);
            Err(refused)
        }
    }
}
