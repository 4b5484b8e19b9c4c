//! What is said is put.
ghost use Rattle.std.specs.Prelude.{◌≡◌, ◌++◌, IfErr};
ghost use Rattle.road_io.specs.Told.{Told};
ghost use Rattle.session.specs.Putting.{PutsOn};
ghost use Rattle.session.specs.Answering.{CountsStops};

use crate::stop::Stop;
use road_io::Site;

/// Puts a chunk that has a byte; one that has none takes no call.
pub fn put_chunk<W: Site>(site: &mut W, chunk: &[u8]) -> Result<(), Stop>
    ensures told { Told (PutsOn chunk.now result) (W.outside site.old) (W.outside site.new) }
    ensures calls { CountsStops (W.faults site.old) (W.faults site.new) result }
    ensures named { IfErr result (λ e. e ≡ Stop.SiteFault) }
{
    if chunk.is_empty() {
        return Ok(());
    }
    match site.put(chunk) {
        Ok(()) => Ok(()),
        Err(_) => Err(Stop::SiteFault),
    }
}

/// Puts a chunk, and another one behind it.
pub fn put_both<W: Site>(site: &mut W, first: &[u8], second: &[u8]) -> Result<(), Stop>
    ensures told { Told (PutsOn (first.now ++ second.now) result) (W.outside site.old) (W.outside site.new) }
    ensures calls { CountsStops (W.faults site.old) (W.faults site.new) result }
    ensures named { IfErr result (λ e. e ≡ Stop.SiteFault) }
{
    match put_chunk(site, first) {
        Ok(()) => put_chunk(site, second),
        Err(error) => Err(error),
    }
}
