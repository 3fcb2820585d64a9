//! The dictionary of a column, and its least and greatest value.
ghost use Rattle.std.specs.Prelude.{◌≡◌, ◌++◌, All, OnOk};
ghost use Rattle.std.specs.List.{flat_map};
ghost use Rattle.rt_segment.specs.Column.{AreShort};
ghost use Rattle.rt_segment.specs.Spelling.{dictionary_bytes, values_spelled, extremes_spelled};

use crate::dictionary::Dictionary;
use crate::stored::Stored;
use rt_dict::Dict;
use std::alloc::AllocError;

/// Writes the values, and their extremes where the file has them.
pub(crate) fn write_dictionary(
    dictionary: &Dictionary,
    extremes: bool,
    out: &mut Vec<u8>,
) -> Result<(), AllocError>
    requires { AreShort dictionary.now }
    ensures { OnOk result (out.new.items ≡ out.old.items ++ dictionary_bytes extremes dictionary.now) }
{
    match dictionary {
        Dictionary::Int(dict) => write_of(dict, extremes, out),
        Dictionary::Long(dict) => write_of(dict, extremes, out),
        Dictionary::Text(dict) => write_of(dict, extremes, out),
        Dictionary::Bool(dict) => write_of(dict, extremes, out),
        Dictionary::Time(dict) => write_of(dict, extremes, out),
    }
}

fn write_of<K: Stored>(dict: &Dict<K>, extremes: bool, out: &mut Vec<u8>) -> Result<(), AllocError>
    requires { All K.short dict.now }
    ensures { OnOk result (out.new.items ≡ out.old.items ++ values_spelled K.spelled extremes dict.now) }
{
    write_values(dict, out)?;
    if extremes {
        write_extremes(dict, out)?;
    }
    Ok(())
}

fn write_values<K: Stored>(dict: &Dict<K>, out: &mut Vec<u8>) -> Result<(), AllocError>
    requires { All K.short dict.now }
    ensures { OnOk result (out.new.items ≡ out.old.items ++ flat_map K.spelled dict.now) }
{
    for id in 0..dict.len() {
        dict.value(id).write(out)?;
    }
    Ok(())
}

// The first and the last value once more.
fn write_extremes<K: Stored>(dict: &Dict<K>, out: &mut Vec<u8>) -> Result<(), AllocError>
    requires { All K.short dict.now }
    ensures { OnOk result (out.new.items ≡ out.old.items ++ extremes_spelled K.spelled dict.now) }
{
    let count = dict.len();
    if count > 0 {
        dict.value(0).write(out)?;
        dict.value(count - 1).write(out)?;
    }
    Ok(())
}
