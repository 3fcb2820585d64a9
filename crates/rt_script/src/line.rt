ghost use Rattle.std.specs.Prelude.{◌≡◌, IfOk, IfSome, option_map};
ghost use Rattle.rt_schema.specs.Schema.{IsSchema};
ghost use Rattle.rt_script.specs.Line.{FitsLine, ask_line, hybrid_line, latest_line, line_by, line_of, plain_of, query_line};
ghost use Rattle.rt_script.specs.QueryTexts.{text_of};

use crate::broker_lines::{answer, piece, route};
use crate::command::Command;
use crate::further_lines::{bare, force_status, offline, peer, rehearse};
use crate::macro_lines::{exchange, fill, settle};
use crate::message_lines::{deliver, job_line, reply};
use crate::node_lines::{crash, repair, restart, retain, see};
use crate::outside_lines::{fault, lead, produce, show, tick};
use crate::query_text::read_query;
use crate::replica_lines::{build, consume, download, extend, force, report, stop, transit};
use crate::{Further, QueryText};
use rt_base::{ControllerId, Instance, Partition, Sequence};
use rt_events::Event;
use rt_lines::part_at;
use rt_lists::Text;
use rt_model::Query;
use rt_schema::Schema;
use std::alloc::{AllocError, Global};

/// What a line says behind the header.
#[derive(Drop)]
pub enum Line {
    /// It is an event.
    Event(Event),
    /// It stands for several events.
    Macro(Macro),
    /// It asks for a query by a text that is none, which is refused by this number.
    NoQuery(u32),
    /// It stands beside the events.
    Further(Further),
}

/// A line that stands for several events, by the worlds that they go through.
#[derive(Drop)]
pub enum Macro {
    /// So many numbered messages come to a partition.
    Fill {
        partition: Partition,
        count: u64,
    },
    /// The broker is asked a query, and makes what it takes to answer it.
    Query {
        query: Query,
    },
    /// A replica's request goes to a controller, and its answer back.
    Exchange {
        instance: Instance,
        partition: Partition,
        sequence: Sequence,
        controller: ControllerId,
    },
    /// The nodes do what they have to do, in at most so many rounds.
    Settle {
        rounds: u64,
    },
}

/// What a line says in the script of a table, or none where the line is outside the grammar.
pub fn read_line(
    alloc: Global,
    schema: &Schema,
    table: &Text,
    line: &[u8],
) -> Result<Option<Line>, AllocError>
    requires { IsSchema schema.now }
    ensures line { IfOk result (λ said. said ≡ line_of schema.now table.now line.now) }
    ensures fits { IfOk result (λ said. IfSome said (FitsLine schema.now)) }
{
    match part_at(line, b' ') {
        Some((word, text)) => read_words(alloc, schema, table, word, text),
        None => Ok(bare(line).map(Line::Further)),
    }
}

// What a line says by its first word and what follows the space behind it.
fn read_words(
    alloc: Global,
    schema: &Schema,
    table: &Text,
    word: &[u8],
    text: &[u8],
) -> Result<Option<Line>, AllocError>
    requires { IsSchema schema.now }
    ensures line { IfOk result (λ said. said ≡ line_by schema.now table.now word.now text.now) }
    ensures fits { IfOk result (λ said. IfSome said (FitsLine schema.now)) }
{
    if word == b"produce".as_slice() {
        return Ok(produce(alloc, text)?.map(Line::Event));
    }
    if word == b"ask".as_slice() {
        return ask(alloc, schema, table, text);
    }
    if word == b"query".as_slice() {
        return query(alloc, schema, table, text);
    }
    if word == b"latest".as_slice() {
        return latest(alloc, schema, table, text);
    }
    if word == b"hybrid".as_slice() {
        return hybrid(alloc, schema, table, text);
    }
    if word == b"offline".as_slice() {
        return Ok(offline(alloc, text)?.map(Line::Further));
    }
    match Command::of(word) {
        Some(command) => Ok(plain(command, text)),
        None => Ok(None),
    }
}

// What is asked of the broker, to be answered piece by piece.
fn ask(
    alloc: Global,
    schema: &Schema,
    table: &Text,
    text: &[u8],
) -> Result<Option<Line>, AllocError>
    requires { IsSchema schema.now }
    ensures line { IfOk result (λ line. line ≡ option_map ask_line (text_of schema.now table.now text.now)) }
    ensures fits { IfOk result (λ line. IfSome line (FitsLine schema.now)) }
{
    match read_query(alloc, schema, table, text)? {
        Some(QueryText::Query(query)) => Ok(Some(Line::Event(Event::Ask { query }))),
        Some(QueryText::Refused(number)) => Ok(Some(Line::NoQuery(number))),
        None => Ok(None),
    }
}

// What is asked of the broker, to be answered at once.
fn query(
    alloc: Global,
    schema: &Schema,
    table: &Text,
    text: &[u8],
) -> Result<Option<Line>, AllocError>
    requires { IsSchema schema.now }
    ensures line { IfOk result (λ line. line ≡ option_map query_line (text_of schema.now table.now text.now)) }
    ensures fits { IfOk result (λ line. IfSome line (FitsLine schema.now)) }
{
    match read_query(alloc, schema, table, text)? {
        Some(QueryText::Query(query)) => Ok(Some(Line::Macro(Macro::Query { query }))),
        Some(QueryText::Refused(number)) => Ok(Some(Line::NoQuery(number))),
        None => Ok(None),
    }
}

// What is asked of the latest row of each key.
fn latest(
    alloc: Global,
    schema: &Schema,
    table: &Text,
    text: &[u8],
) -> Result<Option<Line>, AllocError>
    requires { IsSchema schema.now }
    ensures line { IfOk result (λ line. line ≡ option_map latest_line (text_of schema.now table.now text.now)) }
    ensures fits { IfOk result (λ line. IfSome line (FitsLine schema.now)) }
{
    match read_query(alloc, schema, table, text)? {
        Some(asked) => Ok(Some(Line::Further(Further::Latest { asked }))),
        None => Ok(None),
    }
}

// What is asked of offline and realtime rows.
fn hybrid(
    alloc: Global,
    schema: &Schema,
    table: &Text,
    text: &[u8],
) -> Result<Option<Line>, AllocError>
    requires { IsSchema schema.now }
    ensures line { IfOk result (λ line. line ≡ option_map hybrid_line (text_of schema.now table.now text.now)) }
    ensures fits { IfOk result (λ line. IfSome line (FitsLine schema.now)) }
{
    match read_query(alloc, schema, table, text)? {
        Some(asked) => Ok(Some(Line::Further(Further::Hybrid { asked }))),
        None => Ok(None),
    }
}

// What a line says whose words have a grammar of their own.
fn plain(command: Command, text: &[u8]) -> Option<Line>
    ensures { result ≡ plain_of command text.now }
{
    match command {
        Command::Tick => tick(text).map(Line::Event),
        Command::Lead => lead(text).map(Line::Event),
        Command::Fault => fault(text).map(Line::Event),
        Command::Show => show(text).map(Line::Event),
        Command::Consume => consume(text).map(Line::Event),
        Command::Force => force(text).map(Line::Event),
        Command::Stop => stop(text).map(Line::Event),
        Command::Build => build(text).map(Line::Event),
        Command::Report => report(text).map(Line::Event),
        Command::Extend => extend(text).map(Line::Event),
        Command::Transit => transit(text).map(Line::Event),
        Command::Download => download(text).map(Line::Event),
        Command::Deliver => deliver(text).map(Line::Event),
        Command::Job => job_line(text).map(Line::Event),
        Command::Reply => reply(text).map(Line::Event),
        Command::Crash => crash(text).map(Line::Event),
        Command::Restart => restart(text).map(Line::Event),
        Command::See => see(text).map(Line::Event),
        Command::Repair => repair(text).map(Line::Event),
        Command::Retain => retain(text).map(Line::Event),
        Command::Route => route(text).map(Line::Event),
        Command::Piece => piece(text).map(Line::Event),
        Command::Answer => answer(text).map(Line::Event),
        Command::Fill => fill(text).map(Line::Macro),
        Command::Exchange => exchange(text).map(Line::Macro),
        Command::Settle => settle(text).map(Line::Macro),
        Command::ForceStatus => force_status(text).map(Line::Further),
        Command::Peer => peer(text).map(Line::Further),
        Command::Rehearse => rehearse(text).map(Line::Further),
    }
}
