ghost use Rattle.std.specs.Prelude.{◌≡◌};
ghost use Rattle.rt_names.specs.Table.{is_table_byte, are_table_bytes, is_table_name};

use rt_base::limits::LONGEST_NAME;

/// Whether a table can have a name: 1 to 128 letters, digits, `_` or `-` of ASCII.
pub fn is_table_name(name: &str) -> bool
    ensures { result ≡ is_table_name name.now }
{
    !name.is_empty() && name.len() <= LONGEST_NAME && are_table_bytes(name.as_bytes())
}

fn are_table_bytes(bytes: &[u8]) -> bool
    ensures { result ≡ are_table_bytes bytes.now }
{
    for byte in bytes {
        if !is_table_byte(*byte) {
            return false;
        }
    }
    true
}

// Whether a byte may stand in a table's name.
fn is_table_byte(byte: u8) -> bool
    ensures { result ≡ is_table_byte byte }
{
    byte.is_ascii_alphanumeric() || byte == b'_' || byte == b'-'
}
