ghost use Rattle.std.specs.Prelude.{◌≡◌, IfOk, OnOk, option_map, string_bytes};
ghost use Rattle.std.specs.String.{string_cmp};
ghost use Rattle.std.specs.BTreeMap.{IsOrdered};
ghost use Rattle.serde_json.specs.Data.{Data, put, string};
ghost use Rattle.serde_json.specs.Find.{get_member};
ghost use Rattle.serde_json.specs.View.{view, members_view};
ghost use Rattle.rt_ideal.specs.Text.{state_text, with_entry_text, members_in, segment_text, instance_text, mode_text};

use rt_base::{Instance, Partition, Sequence};
use rt_lists::Text;
use rt_model::{IdealEntry, IdealState, Mode};
use serde_json::{Map, Value};
use std::alloc::{AllocError, Global};

/// The state as compact JSON: an object with a key `P/Q` for each segment, whose value is an object with a key
/// `sK` for each instance and the value `CONSUMING`, `ONLINE` or `OFFLINE`. Keys ascend as texts.
pub fn text(alloc: Global, state: &IdealState) -> Result<Text, AllocError>
    ensures { IfOk result (λ text. text ≡ state_text state.now.entries) }
{
    let mut segments = Map::new(alloc);
    for entry in state.entries.as_slice() {
        write_entry(alloc, &mut segments, entry)?;
    }
    Ok(Text::of(Value::Object(segments).to_string(alloc)?))
}

/// Puts an entry into its segment's object.
fn write_entry(
    alloc: Global,
    segments: &mut Map<String, Value>,
    entry: &IdealEntry,
) -> Result<(), AllocError>
    requires ordered { IsOrdered string_cmp segments.old }
    ensures ordered { IsOrdered string_cmp segments.new }
    ensures written { OnOk result
        (members_view segments.new.entries ≡ with_entry_text (members_view segments.old.entries) entry.now) }
{
    let segment = segment_key(alloc, entry.partition, entry.sequence)?;
    let name = instance_key(alloc, entry.instance)?;
    let mode = mode_value(alloc, entry.mode)?;
    let mut instances = take_members(alloc, segments, segment.as_str());
    instances.insert(name, mode)?;
    segments.insert(segment, Value::Object(instances))?;
    Ok(())
}

/// Takes out the members of a segment's object; there are none where there is no object.
fn take_members(
    alloc: Global,
    segments: &mut Map<String, Value>,
    segment: &str,
) -> Map<String, Value>
    requires { IsOrdered string_cmp segments.old }
    ensures ordered { IsOrdered string_cmp segments.new }
    ensures members { members_view result.entries
        ≡ members_in (get_member segment.now (members_view segments.old.entries)) }
    ensures rest { (d : Data) → put segment.now d (members_view segments.new.entries)
        ≡ put segment.now d (members_view segments.old.entries) }
{
    let found = segments.remove(segment);
    members_of(alloc, found)
}

/// The members of a value that may be an object.
fn members_of(alloc: Global, value: Option<Value>) -> Map<String, Value>
    ensures { members_view result.entries ≡ members_in (option_map view value) }
{
    match value {
        Some(Value::Object(members)) => members,
        _ => Map::new(alloc),
    }
}

/// The key of a segment.
fn segment_key(
    alloc: Global,
    partition: Partition,
    sequence: Sequence,
) -> Result<String, AllocError>
    ensures { IfOk result (λ key. string_bytes key ≡ segment_text partition sequence) }
{
    let partition = partition.0;
    let sequence = sequence.0;
    format!(in alloc; "{partition}/{sequence}")
}

/// The key of an instance.
fn instance_key(alloc: Global, instance: Instance) -> Result<String, AllocError>
    ensures { IfOk result (λ key. string_bytes key ≡ instance_text instance) }
{
    let instance = instance.0;
    format!(in alloc; "s{instance}")
}

/// The value of a mode.
fn mode_value(alloc: Global, mode: Mode) -> Result<Value, AllocError>
    ensures { IfOk result (λ value. view value ≡ string (mode_text mode)) }
{
    let name = match mode {
        Mode::Consuming => "CONSUMING",
        Mode::Online => "ONLINE",
        Mode::Offline => "OFFLINE",
    };
    Ok(Value::String(String::from_str(alloc, name)?))
}
