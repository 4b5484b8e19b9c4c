//! What all calls here rest on.
ghost use Rattle.session.specs.StoreLaws.{StoreLaws};

use road_base::laws::history_objects;
use store_switch::laws::{change_on_store, journal_on_store};

/// A journal on a store, a change that is added to it, and that a history has objects.
pub fn store_laws()
    ensures { StoreLaws }
{
    journal_on_store();
    change_on_store();
    history_objects();
}
