//! One record of a file.
ghost use Rattle.std.specs.Prelude.{◌≡◌, ◌⊎◌, ◌+◌, ◌≤◌, ◌^◌, IfOk, IfErr, IfSome, OnOk};
ghost use Rattle.sequence_journal.specs.declared.error.JournalError.TheVariants.{SiteFault, NoMemory as NoMemoryError};
ghost use Rattle.road_io.specs.Told.{Told};
ghost use Rattle.sequence_journal.specs.Journal.{CountsFaults};
ghost use Rattle.sequence_journal.specs.Windows.{Holds};
ghost use Rattle.sequence_journal.specs.Reading.{ReadsRecord};

use crate::error::JournalError;
use crate::heads::reaches;
use crate::layout::{FIELDS, Fields, open_fields};
use crate::window::Window;
use road_io::{Site, Which};
use std::alloc::Global;

/// The fields of the open record whose gate stands at a place of a file of this length, None exactly where no record is
/// open there. The window then shows its bytes.
pub fn open_record<W: Site>(
    alloc: Global,
    site: &mut W,
    file: Which,
    window: &mut Window,
    len: u64,
    gate: u64,
) -> Result<Option<Fields>, JournalError>
    requires within { gate ≤ len }
    requires small { len ≤ 2 ^ 40 }
    requires holds { IfSome (W.outside site.old) (Holds file window.old) }
    ensures told { Told (ReadsRecord file len gate window.new result) (W.outside site.old) (W.outside site.new) }
    ensures holds { OnOk result (IfSome (W.outside site.new) (Holds file window.new)) }
    ensures before { OnOk result (window.new.from ≤ gate) }
    ensures lies_within { IfOk result (λ r. IfSome r (λ f. gate + (17 + f.size) ≤ len)) }
    ensures named { IfErr result (λ e. (e ≡ SiteFault) ⊎ (e ≡ NoMemoryError)) }
    ensures counts { CountsFaults (W.faults site.old) (W.faults site.new) result }
{
    window.show(alloc, site, file, gate, FIELDS)?;
    let Some((fields, _)) = open_fields(window.front(gate, FIELDS)) else {
        return Ok(None);
    };
    if !reaches(len - gate, FIELDS as u64, fields.size) {
        return Ok(None);
    }
    let whole = FIELDS + fields.size as usize;
    window.show(alloc, site, file, gate, whole)?;
    let shown = window.front(gate, whole).len();
    if shown < whole {
        return Ok(None);
    }
    Ok(Some(fields))
}
