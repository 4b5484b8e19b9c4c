//! The head of a file's base.
ghost use Rattle.std.specs.Prelude.{◌≡◌, ◌+◌, ◌<◌, ◌≤◌, ◌^◌, true, false, IfOk, IfSome, IfErr};
ghost use Rattle.sequence_journal.specs.declared.error.JournalError.TheVariants.{SiteFault};
ghost use Rattle.road_io.specs.Told.{Told, Counts};
ghost use Rattle.sequence_journal.specs.Journal.{CountsFaults};
ghost use Rattle.sequence_journal.specs.Reading.{FindsBase, Heads};

use crate::error::JournalError;
use crate::layout::{HEAD, Head, open_head};
use crate::parts::fill;
use road_base::Sequence;
use road_io::{Failed, Site, Which};

/// What an open base says of itself: its generation, the number before that of the first change, and its profile,
/// whatever the field holds.
#[derive(Clone, Copy, Debug, PartialEq, Eq)]
pub struct BaseHead {
    pub generation: u64,
    pub base: Sequence,
    pub profile: u32,
}

/// An open base, of which the head is read, and the length of its file.
#[derive(Clone, Copy)]
pub struct FoundBase {
    pub len: u64,
    pub head: Head,
}

/// The generation, the number and the profile of a file's open base, None exactly where it has none. It reads 37 bytes.
pub fn head<W: Site>(site: &mut W, file: Which) -> Result<Option<BaseHead>, JournalError>
    ensures told { Told (Heads file result) (W.outside site.old) (W.outside site.new) }
    ensures named { IfErr result (λ e. e ≡ SiteFault) }
    ensures counts { CountsFaults (W.faults site.old) (W.faults site.new) result }
{
    let Some(found) = find_base(site, file)? else {
        return Ok(None);
    };
    Ok(Some(BaseHead {
        generation: found.head.generation,
        base: Sequence(found.head.number),
        profile: found.head.profile,
    }))
}

/// The head of a file's open base, None exactly where it has none.
pub fn find_base<W: Site>(site: &mut W, file: Which) -> Result<Option<FoundBase>, Failed>
    ensures told { Told (FindsBase file result) (W.outside site.old) (W.outside site.new) }
    ensures within { IfOk result (λ r. IfSome r (λ f. 37 + f.head.size ≤ f.len)) }
    ensures counts { Counts (W.faults site.old) (W.faults site.new) result }
{
    let len = site.file_len(file)?;
    let mut front = [0u8; HEAD];
    let n = fill(site, file, 0, &mut front)?;
    let Some((head, _)) = open_head(&front[..n]) else {
        return Ok(None);
    };
    if !reaches(len, HEAD as u64, head.size) {
        return Ok(None);
    }
    Ok(Some(FoundBase { len, head }))
}

/// Whether so many bytes hold some fields, and as many bytes as these announce.
pub fn reaches(len: u64, fields: u64, size: u64) -> bool
    ensures yes { result ≡ true → fields + size ≤ len }
    ensures no { result ≡ false → len < fields + size }
{
    len >= fields && len - fields >= size
}
