ghost use Rattle.std.specs.Prelude.{◌≡◌, [], false, string_bytes};
ghost use Rattle.rt_desk.specs.Telling.{Counts};
ghost use Rattle.rt_macros.specs.Doing.{DoesText};
ghost use Rattle.rt_report.specs.BrokerTexts.{noquery_text};
ghost use Rattle.rt_report.specs.FurtherTexts.{nooffline_text};

use rt_macros::pass;
use rt_report::{write_nooffline, write_noquery};
use rt_world::{Refusal, World};

/// Passes over a text that is no query, and makes the text that is reported of it.
#[tactic(auto, using(rt_macros::proofs::Doing::does_then, rt_macros::proofs::Doing::does_refused, rt_macros::proofs::Doing::does_told))]
pub(crate) fn pass_noquery(world: &mut World, number: u32, text: &mut String) -> Result<(), Refusal>
    requires unspent { world.old.spent ≡ false }
    requires empty { string_bytes text.old ≡ [] }
    ensures { DoesText (Counts (noquery_text number)) world.old.state world.new (string_bytes text.new) result }
{
    pass(world)?;
    write_noquery(text, number)?;
    Ok(())
}

/// Passes over a line of offline rows where there is no table of them.
#[tactic(auto, using(rt_macros::proofs::Doing::does_then, rt_macros::proofs::Doing::does_refused, rt_macros::proofs::Doing::does_told))]
pub(crate) fn pass_nooffline(world: &mut World, text: &mut String) -> Result<(), Refusal>
    requires unspent { world.old.spent ≡ false }
    requires empty { string_bytes text.old ≡ [] }
    ensures { DoesText (Counts (nooffline_text 1)) world.old.state world.new (string_bytes text.new) result }
{
    pass(world)?;
    write_nooffline(text, 1)?;
    Ok(())
}
