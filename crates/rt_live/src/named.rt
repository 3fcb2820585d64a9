//! A run of a cluster whose nodes have their names.
ghost use Rattle.std.specs.Prelude.{◌≡◌, ◌<◌, ◌^◌, IfOk, length, string_bytes};
ghost use Rattle.rt_live.specs.Run.{HasRun, HasRunBy};
ghost use Rattle.rt_live_input.specs.Input.{IsInput};
ghost use Rattle.rt_live_join.specs.Left.{fronts_by};
ghost use Rattle.rt_live_links.specs.Linked.{AreLinked};
ghost use Rattle.rt_live_names.specs.Fronts.{callers_of};
ghost use Rattle.rt_live_names.specs.Whole.{lengths_in};
ghost use Rattle.rt_live_nodes.specs.Founding.{inbox_size, names_of};
ghost use Rattle.rt_model.specs.Setup.{IsSetup};
ghost use Rattle.rt_store.specs.Contents.{starting_of};

use crate::ran::Ran;
use crate::telling::tell;
use rt_base::{Clock, Gate, Offset};
use rt_broker::PieceGiven;
use rt_front::Blank;
use rt_ground::{Blanks, Naming};
use rt_live_input::Input;
use rt_live_join::join_all;
use rt_live_links::Links;
use rt_live_names::{Cluster, Ends};
use rt_live_nodes::{Founded, found_cluster};
use rt_live_turns::run_all;
use rt_model::Setup;
use std::alloc::{AllocError, Global};
use std::sync::Wait;
use std::thread::Threads;

/// Runs the nodes of these names over an input: founds them, has them take their turns until they have ended, joins them,
/// and tells what they came to. Fails only where memory is refused.
pub(crate) fn run_named<
    R: Threads + Wait + Copy + Send + Sync,
    J: Naming + Send + Sync,
    K: Cluster + Send + Sync,
    C: Clock + Sync,
    G: Gate + Sync,
>(
    rt: R,
    alloc: Global,
    blanks: Blanks,
    asked: Vec<Blank<PieceGiven>>,
    links: Links,
    input: Input,
    setup: &Setup,
    lengths: &[Offset],
    journal: bool,
    clock: &C,
    gate: &G,
) -> Result<Ran<R, J>, AllocError>
    requires fits { IsInput input }
    requires few { length input.rows < 2 ^ 63 }
    requires setup { setup.now ≡ input.setup }
    requires lengths { lengths.now ≡ lengths_in input.setup.partitions input.rows }
    requires ground { (blanks ≡ J.names) × (starting_of input.setup ≡ J.starting)
        × (J.callers ≡ callers_of input.setup) }
    requires names { K.names ≡ names_of input links asked.items }
    requires asked { length asked.items ≡ input.setup.servers }
    requires servers { (length links.servers.items ≡ input.setup.servers)
        × AreLinked inbox_size links.controllers.items links.servers.items }
    requires controllers { (length links.controllers.items ≡ input.setup.controllers)
        × AreLinked inbox_size links.servers.items links.controllers.items }
    ensures { IfOk result (λ ran. HasRun input journal ran.ends.items (fronts_by ran.caller)
        (string_bytes ran.text)) }
{
    let queries = input.queries.len();
    let founded = run_founded::<R, J, K, C, G>(
        rt, alloc, blanks, asked, links, input, journal, clock, gate,
    )?;
    tell_founded::<R, J, K>(&rt, alloc, founded, setup, lengths, queries, journal)
}

// Founds the nodes, and has them take their turns until they have ended.
fn run_founded<
    R: Threads + Wait + Copy + Send + Sync,
    J: Naming + Send + Sync,
    K: Cluster + Send + Sync,
    C: Clock + Sync,
    G: Gate + Sync,
>(
    rt: R,
    alloc: Global,
    blanks: Blanks,
    asked: Vec<Blank<PieceGiven>>,
    links: Links,
    input: Input,
    journal: bool,
    clock: &C,
    gate: &G,
) -> Result<Founded<R, J, K>, AllocError>
    requires fits { IsInput input }
    requires ground { (blanks ≡ J.names) × (starting_of input.setup ≡ J.starting)
        × (J.callers ≡ callers_of input.setup) }
    requires names { K.names ≡ names_of input links asked.items }
    requires asked { length asked.items ≡ input.setup.servers }
    requires servers { (length links.servers.items ≡ input.setup.servers)
        × AreLinked inbox_size links.controllers.items links.servers.items }
    requires controllers { (length links.controllers.items ≡ input.setup.controllers)
        × AreLinked inbox_size links.servers.items links.controllers.items }
{
    let mut founded = found_cluster::<R, J, K>(rt, alloc, blanks, asked, links, input, journal)?;
    let ends = Ends::new();
    run_all(&rt, alloc, clock, gate, &ends, &mut founded.nodes);
    if ends.is_refused() {
        drop(founded);
        return Err(AllocError);
    }
    Ok(founded)
}

// Joins the nodes that have ended, and tells what they came to.
fn tell_founded<R: Wait + Copy, J: Naming, K: Cluster>(
    rt: &R,
    alloc: Global,
    founded: Founded<R, J, K>,
    setup: &Setup,
    lengths: &[Offset],
    queries: usize,
    journal: bool,
) -> Result<Ran<R, J>, AllocError>
    requires setup { (setup.now ≡ K.names.setup) × IsSetup setup.now }
    requires lengths { lengths.now ≡ lengths_in K.names.setup.partitions K.names.rows }
    requires queries { queries ≡ length K.names.queries }
    requires ground { (starting_of K.names.setup ≡ J.starting) × (J.callers ≡ callers_of K.names.setup) }
    requires few { length K.names.rows < 2 ^ 63 }
    ensures { IfOk result (λ ran. HasRunBy K.names journal ran.ends.items (fronts_by ran.caller)
        (string_bytes ran.text)) }
{
    let Founded { ground, nodes } = founded;
    match join_all::<R, J, K>(rt, alloc, &ground, setup, nodes, journal) {
        Ok(joined) => {
            let told = tell::<R, J, K>(
                rt,
                alloc,
                &ground,
                setup.partitions,
                lengths,
                queries,
                journal,
                joined,
            );
            drop(ground);
            told
        }
        Err(refused) => {
            drop(ground);
            Err(refused)
        }
    }
}
