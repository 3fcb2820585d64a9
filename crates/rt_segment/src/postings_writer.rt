//! The postings of a column.
ghost use Rattle.std.specs.Prelude.{◌≡◌, ◌∷◌, ◌++◌, ◌<◌, ◌^◌, All, OnOk, length};
ghost use Rattle.std.specs.List.{flat_map};
ghost use Rattle.rt_segment.specs.Spelling.{word};

use rt_postings::Postings;
use std::alloc::AllocError;

/// Writes for each of so many ids the number of its rows and the rows.
pub(crate) fn write_postings(
    postings: &Postings,
    cardinality: u32,
    out: &mut Vec<u8>,
) -> Result<(), AllocError>
    requires count { cardinality ≡ length postings.now }
    requires few { All (λ rows. length rows < 2 ^ 32) postings.now }
    ensures { OnOk result (out.new.items ≡ out.old.items ++ flat_map word (flat_map (λ rows. length rows ∷ rows) postings.now)) }
{
    for id in 0..cardinality {
        write_docs(postings.docs(id), out)?;
    }
    Ok(())
}

// The number of the rows, and the rows.
fn write_docs(docs: &[u32], out: &mut Vec<u8>) -> Result<(), AllocError>
    requires { length docs.now < 2 ^ 32 }
    ensures { OnOk result (out.new.items ≡ out.old.items ++ flat_map word (length docs.now ∷ docs.now)) }
{
    out.extend_from_slice(&(docs.len() as u32).to_be_bytes())?;
    write_rows(docs, out)
}

fn write_rows(rows: &[u32], out: &mut Vec<u8>) -> Result<(), AllocError>
    ensures { OnOk result (out.new.items ≡ out.old.items ++ flat_map word rows.now) }
{
    for row in rows {
        out.extend_from_slice(&row.to_be_bytes())?;
    }
    Ok(())
}
