//! A message is taken: a request by a controller, a reply by the server that asked.
ghost use Rattle.std.specs.Prelude.{◌≡◌, ◌<◌, ◌^◌, true, length, slice_get, is_some, IfOk, OnOk, Some};
ghost use Rattle.rt_nodes.specs.declared.controller_node.ControllerNode.{ControllerNode as AControllerNode};
ghost use Rattle.rt_state.specs.declared.cost.Cost.{Cost as ACost};
ghost use Rattle.rt_state.specs.Finding.{request_at};
ghost use Rattle.rt_state.specs.Messages.{deliver_due, reply_due, handed, tells, Delivers, Replies, answers};
ghost use Rattle.rt_state.specs.Applying.{Applies};
ghost use Rattle.rt_state.specs.IsSafeWorld.{IsSafeWorld};

use rt_base::ControllerId;
use rt_controller::Handled;
use rt_events::{Outcome, Refusal};
use rt_lists::Copied;
use rt_model::{Reply, Sent};
use rt_state::State;
use std::alloc::{AllocError, Global};

/// A controller takes a request, and answers it or starts a job.
#[tactic(auto, using(rt_state::proofs::NeedsNodes::deliver_needs, rt_state::proofs::Leading::request_delivered))]
pub(crate) fn deliver(
    state: &mut State,
    alloc: Global,
    message: u64,
    controller: ControllerId,
) -> Result<Outcome, Refusal>
    requires { IsSafeWorld state.old }
    ensures { Applies state.old (deliver_due state.old message controller) (Delivers state.old message controller) state.new result }
{
    let cost = state.deliver_due(message, controller)?;
    let handled = hand_over(state, alloc, message, controller)?;
    let outcome = tell(state, alloc, handled)?;
    state.counts.spend(cost);
    Ok(outcome)
}

// Sends the reply to a request, or tells the job that was started for it.
fn tell(state: &mut State, alloc: Global, handled: Handled) -> Result<Outcome, AllocError>
    ensures told { IfOk result (λ outcome. (state.new, outcome) ≡ tells state.old handled) }
    ensures counts { OnOk result (state.new.counts ≡ state.old.counts) }
{
    match handled {
        Handled::Reply(reply) => match keep_reply(state, alloc, &reply) {
            Ok(message) => Ok(Outcome::Replied { message, reply }),
            Err(refused) => {
                drop(reply);
                Err(refused)
            }
        },
        Handled::Job(job) => Ok(Outcome::Started { job }),
    }
}

// Hands a request to a controller.
#[tactic(auto, using(rt_state::proofs::Leading::request_handed))]
fn hand_over(
    state: &mut State,
    alloc: Global,
    message: u64,
    controller: ControllerId,
) -> Result<Handled, AllocError>
    requires request { is_some (request_at state.old message) ≡ true }
    requires there { controller.0 < length state.old.controllers }
    requires few { (n : AControllerNode) → slice_get state.old.controllers controller.0 ≡ Some n → n.controller.started < 2 ^ 63 }
    ensures handed { IfOk result (λ what. (cost : ACost) → Delivers state.old message controller cost (handed state.new cost what)) }
    ensures counts { OnOk result (state.new.counts ≡ state.old.counts) }
{
    let Some(Sent::Request(request)) = state.sent.get(message as usize) else {
        unreachable!()
    };
    let node = state.controllers.at_mut(controller.0 as usize);
    node.controller.on_request(
        alloc,
        request,
        state.moment,
        &mut state.store,
        &mut state.deep,
    )
}

/// Keeps a copy of a reply among the messages, and gives its number.
pub(crate) fn keep_reply(state: &mut State, alloc: Global, reply: &Reply) -> Result<u64, AllocError>
    ensures { IfOk result (λ message. (state.new, (message, reply.now)) ≡ answers state.old reply.now) }
{
    let kept = reply.copied(alloc)?;
    let message = state.sent.len() as u64;
    state.sent.push(Sent::Reply(kept))?;
    Ok(message)
}

/// A server takes the reply to a request of its own.
#[tactic(auto, using(rt_state::proofs::NeedsNodes::reply_needs, rt_state::proofs::Taking::reply_taken, rt_state::proofs::Going::server_does))]
pub(crate) fn reply(state: &mut State, alloc: Global, message: u64) -> Result<Outcome, Refusal>
    requires { IsSafeWorld state.old }
    ensures { Applies state.old (reply_due state.old message) (Replies state.old message) state.new result }
{
    let cost = state.reply_due(message)?;
    let Some(Sent::Reply(reply)) = state.sent.get(message as usize) else {
        unreachable!()
    };
    let reply = reply.copied(alloc)?;
    let node = state.servers.at_mut(reply.number.instance.0 as usize);
    let outcome = node.take_reply(reply);
    state.counts.spend(cost);
    Ok(outcome)
}
