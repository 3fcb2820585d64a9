ghost use Rattle.std.specs.Prelude.{◌≡◌, ◌↔◌, All, IsTrue};
ghost use Rattle.rt_lists.specs.Names.{is_among};
ghost use Rattle.rt_schema.specs.Schema.{names_of};

use rt_lists::Text;
use rt_schema::Column;

/// Whether each name is one of a column.
pub(crate) fn are_columns(names: &[Text], columns: &[Column]) -> bool
    ensures { IsTrue result ↔ All (λ name. IsTrue (is_among name (names_of columns.now))) names.now }
{
    names.iter().all(|name| is_column(name.as_str(), columns))
}

fn is_column(name: &str, columns: &[Column]) -> bool
    ensures { result ≡ is_among name.now (names_of columns.now) }
{
    for column in columns {
        if name == column.name.as_str() {
            return true;
        }
    }
    false
}
