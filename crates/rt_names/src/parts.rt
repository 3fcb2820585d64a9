ghost use Rattle.std.specs.Prelude.{◌≡◌, IfSome};
ghost use Rattle.std.specs.Option.{IsSomeAnd};
ghost use Rattle.rt_names.specs.declared.name.SegmentName.{SegmentName};
ghost use Rattle.rt_names.specs.Name.{name_text, name_of, IsSegmentName};

use crate::minute::minute_in;
use crate::numeral::number_of;
use crate::pieces::split;
use crate::table::is_table_name;

/// The parts of a name, read from its text.
#[derive(Drop)]
pub(crate) struct Parts<'a> {
    pub table: &'a str,
    pub partition: u32,
    pub sequence: u32,
    pub minute: [u8; 14],
}

impl<'a> Parts<'a> {
    /// The parts of the name that has a text, if there is one.
    pub fn of(text: &'a str) -> Option<Self>
        ensures found { IfSome result (λ p. IsSegmentName (name_of p.table.now p.partition p.sequence p.minute)) }
        ensures text { IfSome result (λ p. name_text (name_of p.table.now p.partition p.sequence p.minute) ≡ text.now) }
        ensures one { (name : SegmentName) → IsSegmentName name → name_text name ≡ text.now →
            IsSomeAnd result (λ p. name_of p.table.now p.partition p.sequence p.minute ≡ name) }
    {
        let pieces = split(text)?;
        if !is_table_name(pieces.table) {
            return None;
        }
        let partition = number_of(pieces.partition)?;
        let sequence = number_of(pieces.sequence)?;
        let minute = minute_in(pieces.minute)?;
        Some(Parts {
            table: pieces.table,
            partition,
            sequence,
            minute,
        })
    }
}
