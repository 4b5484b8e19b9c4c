//! The live one of two files.
ghost use Rattle.std.specs.Prelude.{◌≡◌, Some, IfErr};
ghost use Rattle.road_io.specs.Told.{Told, Counts};
ghost use Rattle.sequence_journal.specs.declared.error.JournalError.TheVariants.{SiteFault};
ghost use Rattle.sequence_journal.specs.Journal.{CountsFaults};
ghost use Rattle.store_switch.specs.LiveFile.{IsChosen, FindsLive, SettlesBoth};

use road_io::{Failed, Site, Which};
use sequence_journal::{BaseHead, JournalError, head, settle};

/// The live file, None exactly where no file has an open base. It changes nothing, and reads 37 bytes of each file.
pub fn find_live<W: Site>(site: &mut W) -> Result<Option<Which>, JournalError>
    ensures told { Told (FindsLive result) (W.outside site.old) (W.outside site.new) }
    ensures named { IfErr result (λ e. e ≡ SiteFault) }
    ensures counts { CountsFaults (W.faults site.old) (W.faults site.new) result }
{
    let a = head(site, Which::A)?;
    let b = head(site, Which::B)?;
    Ok(chosen(a, b))
}

/// The live file by the heads of A and of B.
fn chosen(a: Option<BaseHead>, b: Option<BaseHead>) -> Option<Which>
    ensures { IsChosen a b result }
{
    match (a, b) {
        (None, None) => None,
        (Some(_), None) => Some(Which::A),
        (None, Some(_)) => Some(Which::B),
        (Some(a), Some(b)) => Some(newer(a, b)),
    }
}

/// The file of the greater generation, and A at a tie.
fn newer(a: BaseHead, b: BaseHead) -> Which
    ensures { IsChosen (Some a) (Some b) (Some result) }
{
    if a.generation < b.generation {
        Which::B
    } else {
        Which::A
    }
}

/// Syncs both files, after which nothing is pending on either, and a stop leaves nothing new.
pub fn settle_both<W: Site>(site: &mut W) -> Result<(), Failed>
    ensures told { Told (SettlesBoth result) (W.outside site.old) (W.outside site.new) }
    ensures counts { Counts (W.faults site.old) (W.faults site.new) result }
{
    settle(site, Which::A)?;
    settle(site, Which::B)
}
