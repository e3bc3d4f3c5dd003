// A record as the sheets see it: headers of every make are one kind of entry.
ghost use Rattle.std.specs.Prelude.{◌≡◌};
ghost use Rattle.checker.specs.Model.{entry_of, record_of};

use crate::record::Record;
use catalogue::make::Make;

#[derive(Clone, Copy)]
pub enum Entry<'a> {
    Slot(&'a [u8]),
    Header(Make, &'a [u8]),
    Row(&'a [u8]),
    Weight(&'a [u8]),
    End,
}

impl<'a> From<Record<'a>> for Entry<'a> {
    ghost from_gives = { λ r e. entry_of e ≡ record_of r };

    fn from(record: Record<'a>) -> Entry<'a> {
        match record {
            Record::Slot(body) => Entry::Slot(body),
            Record::FitHeader(body) => Entry::Header(Make::Fit, body),
            Record::BarHeader(body) => Entry::Header(Make::Bar, body),
            Record::LoadHeader(body) => Entry::Header(Make::Load, body),
            Record::Row(body) => Entry::Row(body),
            Record::Weight(body) => Entry::Weight(body),
            Record::End => Entry::End,
        }
    }
}
