ghost use Rattle.std.specs.Prelude.{◌≡◌, Some, None, IfSome, IfNone};
ghost use Rattle.rt_lines.specs.Cluster.{
  cluster_fault,
  cluster_of,
  end_of,
  format_of,
  next_field,
  options_of,
};

use crate::parts::{after_prefix, field, part_at};
use rt_base::Which;
use rt_base::limits::{
    LAST_MOMENT, MOST_CONTROLLERS, MOST_PARTITIONS, MOST_REPLICATION, MOST_SERVERS,
};

/// What a cluster line says.
#[derive(Clone, Copy)]
pub(crate) struct Cluster {
    pub(crate) servers: u64,
    pub(crate) controllers: u64,
    pub(crate) partitions: u64,
    pub(crate) start: u64,
    pub(crate) grace: u64,
    pub(crate) options: Options,
}

/// What a cluster line may leave out.
#[derive(Clone, Copy)]
pub(crate) struct Options {
    pub(crate) retention: Option<u64>,
    pub(crate) format: u8,
}

/// The cluster of a line, or none where the line is outside the grammar.
pub(crate) fn read_cluster(line: &[u8]) -> Option<Cluster>
    ensures { result ≡ cluster_of line.now }
{
    let text = after_prefix(line, b"cluster ".as_slice())?;
    let (servers, text) = next_field(b"servers=".as_slice(), text)?;
    let (controllers, text) = next_field(b"controllers=".as_slice(), text)?;
    let (partitions, text) = next_field(b"partitions=".as_slice(), text)?;
    let (start, text) = next_field(b"start=".as_slice(), text)?;
    let (grace, options) = read_end(text)?;
    Some(Cluster {
        servers,
        controllers,
        partitions,
        start,
        grace,
        options,
    })
}

/// The first limit that a cluster goes beyond, with a table of this replication.
pub(crate) fn beyond(cluster: Cluster, replication: u32) -> Option<Which>
    ensures { result ≡ cluster_fault cluster replication }
{
    if cluster.servers < 1 || cluster.servers > u64::from(MOST_SERVERS) {
        return Some(Which::Servers);
    }
    if cluster.controllers < 1 || cluster.controllers > u64::from(MOST_CONTROLLERS) {
        return Some(Which::Controllers);
    }
    if cluster.partitions < 1 || cluster.partitions > u64::from(MOST_PARTITIONS) {
        return Some(Which::Partitions);
    }
    if replication > MOST_REPLICATION || u64::from(replication) > cluster.servers {
        return Some(Which::Replication);
    }
    if cluster.start > LAST_MOMENT {
        return Some(Which::Moment);
    }
    None
}

// The grace, and the options behind it.
fn read_end(text: &[u8]) -> Option<(u64, Options)>
    ensures { result ≡ end_of text.now }
{
    match part_at(text, b' ') {
        Some((word, text)) => {
            let grace = field(b"grace=".as_slice(), word)?;
            let options = read_options(text)?;
            Some((grace, options))
        }
        None => {
            let grace = field(b"grace=".as_slice(), text)?;
            Some((
                grace,
                Options {
                    retention: None,
                    format: 2,
                },
            ))
        }
    }
}

fn read_options(text: &[u8]) -> Option<Options>
    ensures { result ≡ options_of text.now }
{
    match part_at(text, b' ') {
        Some((retention, format)) => {
            let retention = field(b"retention=".as_slice(), retention)?;
            let format = file_format(format)?;
            Some(Options {
                retention: Some(retention),
                format,
            })
        }
        None => match field(b"retention=".as_slice(), text) {
            Some(retention) => Some(Options {
                retention: Some(retention),
                format: 2,
            }),
            None => {
                let format = file_format(text)?;
                Some(Options {
                    retention: None,
                    format,
                })
            }
        },
    }
}

fn file_format(word: &[u8]) -> Option<u8>
    ensures { result ≡ format_of word.now }
{
    let format = field(b"format=".as_slice(), word)?;
    match format {
        1 => Some(1),
        2 => Some(2),
        _ => None,
    }
}

/// The number of a text's first word `KEY=N`, and the words behind it.
pub fn next_field<'a>(key: &[u8], text: &'a [u8]) -> Option<(u64, &'a [u8])>
    ensures some { IfSome result (λ field. next_field key.now text.now ≡ Some (field.0, field.1.now)) }
    ensures none { IfNone result (next_field key.now text.now ≡ None) }
{
    let (word, text) = part_at(text, b' ')?;
    let number = field(key, word)?;
    Some((number, text))
}
