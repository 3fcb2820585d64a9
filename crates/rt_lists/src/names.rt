ghost use Rattle.std.specs.Prelude.{◌≡◌};
ghost use Rattle.rt_lists.specs.Names.{is_among};

use crate::Text;

/// Whether a name is one of some names.
pub fn is_among(name: &str, names: &[Text]) -> bool
    ensures { result ≡ is_among name.now names.now }
{
    for other in names {
        if name == other.as_str() {
            return true;
        }
    }
    false
}
