//! What follows of the outside, for the crates above.
ghost use Rattle.std.specs.Prelude.{◌≡◌, ◌↔◌, ℕ, List, IfSome};
ghost use Rattle.road_io.specs.Disk.{IsImage, IsDurable};
ghost use Rattle.road_io.specs.Outside.{disk, clock, MayLeave};

use crate::{Site, Which};

/// Nothing is pending on a file exactly where a stop leaves what a read gives.
pub fn nothing_pending<W: Site>(site: &W, file: Which)
    ensures { IfSome (W.outside site.now) (λ o. IsDurable (disk o file)
        ↔ ((c : List ℕ) → IsImage (disk o file) c → c ≡ (disk o file).reads)) }
{}

/// A stop now may leave both files as they read, and all of the output.
pub fn leaves_what_it_reads<W: Site>(site: &W)
    ensures { IfSome (W.outside site.now) (λ o. MayLeave o (clock o)
        (record { a = o.a.reads; b = o.b.reads; out = o.output })) }
{}
