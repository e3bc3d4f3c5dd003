// The record layer: reads one record, or says why there is none.
ghost use Rattle.std.specs.Prelude.{◌≡◌, IfOk};
ghost use Rattle.catalogue.specs.Records.{read_at};
ghost use Rattle.checker.specs.Model.{read_as, record_of, BodyLies};

use crate::checks::Check;
use crate::record::Record;
use catalogue::fault::Fault;
use catalogue::kind::Kind;

// The record whose first byte is at a place. Its body is a part of the input.
pub(crate) fn read<'a>(bytes: &'a [u8], at: usize) -> Result<Record<'a>, Fault>
    ensures is { read_as result ≡ read_at bytes.now at }
    ensures lies { IfOk result (λ x. BodyLies bytes.now at (record_of x)) }
{
    if at >= bytes.len() {
        return Err(Check::RecordLeft.at(at));
    }
    let Ok(kind) = Kind::try_from(bytes[at]) else {
        return Err(Check::KindKnown.at(at));
    };
    let len = kind.body_len();
    if bytes.len() - at <= len {
        return Err(Check::BodyWhole.at(at));
    }
    let body = &bytes[at + 1..at + 1 + len];
    Ok(match kind {
        Kind::Slot => Record::Slot(body),
        Kind::Fit => Record::FitHeader(body),
        Kind::Bar => Record::BarHeader(body),
        Kind::Load => Record::LoadHeader(body),
        Kind::Row => Record::Row(body),
        Kind::Weight => Record::Weight(body),
        Kind::End => Record::End,
    })
}
