//! The members of a relation by their roles.
ghost use Rattle.std.specs.Prelude.{◌≡◌, ◌&&◌, Bool, true, IfOk, codes, length, nat_lt, reverse};
ghost use Rattle.std.specs.List.{list_all};
ghost use Rattle.road_base.specs.declared.ids.Key.{Key};
ghost use Rattle.road_model.specs.Restrictions.{in_role};

use ordered_lists::leave_once;
use road_base::laws::key_order;
use road_base::{Key, Member, NoMemory, Relation};
use std::alloc::{AllocError, Global};

/// A relation, and its members by role, each role's in order. Members of other roles are passed over.
#[derive(Drop)]
pub struct Roles<'a> {
    pub body: &'a Relation,
    pub froms: Vec<Key>,
    pub vias: Vec<Key>,
    pub tos: Vec<Key>,
    /// The via members in the reversed order, where they are two or more.
    pub reversed: Vec<Key>,
    /// Each object that has one of these roles once, so that what holds of all of them holds of all members.
    pub once: Vec<Key>,
    pub ghost from_members: { froms.items ≡ in_role (codes "from") body.now.members },
    pub ghost via_members: { vias.items ≡ in_role (codes "via") body.now.members },
    pub ghost to_members: { tos.items ≡ in_role (codes "to") body.now.members },
    pub ghost reversed_vias: { nat_lt 1 (length vias.items) ≡ true → reversed.items ≡ reverse vias.items },
    pub ghost members_once: { (test : Key → Bool) → list_all test once.items
        ≡ (list_all test froms.items && (list_all test vias.items && list_all test tos.items)) },
}

/// The members of the relation by role.
pub fn roles_of(alloc: Global, body: &Relation) -> Result<Roles<'_>, NoMemory>
    ensures { IfOk result (λ roles. roles.body.now ≡ body.now) }
{
    let members = body.members.items();
    let froms = in_role(alloc, members, "from")?;
    let vias = in_role(alloc, members, "via")?;
    let tos = in_role(alloc, members, "to")?;
    let reversed = reversed(alloc, vias.as_slice())?;
    let once = each_once(alloc, froms.as_slice(), vias.as_slice(), tos.as_slice())?;
    Ok(Roles {
        body,
        froms,
        vias,
        tos,
        reversed,
        once,
    })
}

/// The keys in the reversed order, where they are two or more.
fn reversed(alloc: Global, keys: &[Key]) -> Result<Vec<Key>, AllocError>
    ensures { IfOk result (λ list. nat_lt 1 (length keys.now) ≡ true → list.items ≡ reverse keys.now) }
{
    let mut list = Vec::new(alloc);
    if keys.len() < 2 {
        return Ok(list);
    }
    list.extend_from_slice(keys)?;
    list.reverse();
    Ok(list)
}

/// Each key of the lists once.
fn each_once(alloc: Global, froms: &[Key], vias: &[Key], tos: &[Key]) -> Result<Vec<Key>, NoMemory>
    ensures { IfOk result (λ v. (test : Key → Bool) → list_all test v.items
        ≡ (list_all test froms.now && (list_all test vias.now && list_all test tos.now))) }
{
    let mut keys = Vec::new(alloc);
    keys.extend_from_slice(froms)?;
    keys.extend_from_slice(vias)?;
    keys.extend_from_slice(tos)?;
    key_order();
    leave_once(&mut keys);
    Ok(keys)
}

/// The members of the role, in order.
fn in_role(alloc: Global, members: &[Member], role: &str) -> Result<Vec<Key>, AllocError>
    ensures { IfOk result (λ keys. keys.items ≡ in_role role.now members.now) }
{
    members
        .iter()
        .filter(|member| member.role.as_str() == role)
        .map(|member| member.item)
        .collect(alloc)
}
