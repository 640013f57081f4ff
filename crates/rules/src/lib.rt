// The rules: whether a role passes a row, whether its mediating sets fit, and whether its bypass
// set has what a store needs (01, "Rows, roles and the test", "Requests"; 02, [2]).
// The tree, a role and a file are lent one by one: a struct over the three would be made at each call and read by one function.
#![tactic(auto)]

ghost use Rattle.std.specs.Prelude.{◌≡◌, true, ◌↔◌, ◌<◌};
ghost use Rattle.securon.specs.Sets.{◌≐◌, ◌⊆◌, marked};
ghost use Rattle.expression.specs.Bytes.{SET};
ghost use Rattle.expression.specs.declared.Kind.TheVariants.{Privilege};
ghost use Rattle.shelf.specs.Shelf.{stored_at, PartInOrder};
ghost use Rattle.policy.specs.State.{IsMode};
ghost use Rattle.rules.specs.Rules.{TakesContentOut, MediatesRow, EntersOrLeaves, RolePasses, RoleMediates, RoleCovers};
ghost use Rattle.rules.specs.AtHand.{AtHand, ToStore};

use policy::{File, Part, Role, Row, Sense};
use securon::SecuronSet;
use tree::Grown;

// SET of the privilege at place k of a role or of a file.
fn set_at<R: Row>(grown: &Grown, row: &R, k: usize) -> SecuronSet
    requires place { k < R.shelves.places }
    requires in_order { PartInOrder Privilege grown.now.tree.n grown.now.levels.depth.0 (R.shelves.lens_of row.now) (R.shelves.bytes_of row.now) k }
    ensures { marked result.has ≐ SET grown.now.tree (stored_at (R.shelves.lens_of row.now) (R.shelves.bytes_of row.now) k) }
{
    expression::set_of(grown, row.stored(k))
}

// Whether a role passes a file's row of that mode: V+ meets T1; SET(E) is within V+; V- does not meet T2; V- and SET(G) share no securon.
pub fn passes(grown: &Grown, role: &Role, file: &File, mode: usize) -> bool
    requires { AtHand grown.now role.now file.now × IsMode mode }
    ensures { (result ≡ true) ↔ RolePasses grown.now.tree role.now file.now mode }
{
    let plus = set_at(grown, role, policy::role_place(mode, Sense::Plus));
    let t1 = file.stored(policy::file_place(mode, Part::T1));
    if !expression::meets_t1(grown, plus, t1) {
        return false;
    }
    let e = set_at(grown, file, policy::file_place(mode, Part::E));
    if !e.part(plus) {
        return false;
    }
    let minus = set_at(grown, role, policy::role_place(mode, Sense::Minus));
    let t2 = file.stored(policy::file_place(mode, Part::T2));
    if expression::meets_t2(grown, minus, t2) {
        return false;
    }
    let g = set_at(grown, file, policy::file_place(mode, Part::G));
    minus.apart(g)
}

// Whether a mode takes content out of a file: Read or Execute.
fn takes_content_out(mode: usize) -> bool
    ensures { (result ≡ true) ↔ TakesContentOut mode }
{
    (mode == policy::READ) | (mode == policy::EXECUTE)
}

// Whether mediating sets fit E and G of a Read row: where content is taken out E and G lie within, for Write the other way round.
fn sets_fit(mode: usize, m1: SecuronSet, m2: SecuronSet, e: SecuronSet, g: SecuronSet) -> bool
    ensures { (result ≡ true) ↔ MediatesRow mode (marked m1.has) (marked m2.has) (marked e.has) (marked g.has) }
{
    if mode == policy::WRITE {
        return m1.part(e) & m2.part(g);
    }
    if takes_content_out(mode) {
        return e.part(m1) & g.part(m2);
    }
    true
}

// Whether the role's mediating sets fit. The indelible parts are those of the Read row, whatever the mode; Detect and Change Protection need none.
pub fn mediates(grown: &Grown, role: &Role, file: &File, mode: usize) -> bool
    requires { AtHand grown.now role.now file.now }
    ensures { (result ≡ true) ↔ RoleMediates grown.now.tree role.now file.now mode }
{
    if policy::EXECUTE < mode {
        return true;
    }
    let m1 = set_at(grown, role, policy::M1_PLACE);
    let m2 = set_at(grown, role, policy::M2_PLACE);
    let e = set_at(grown, file, policy::file_place(policy::READ, Part::E));
    let g = set_at(grown, file, policy::file_place(policy::READ, Part::G));
    sets_fit(mode, m1, m2, e, g)
}

// Whether every securon that enters or leaves is in b: who was there is still there or in b, and the other way round.
fn alters_within(old: SecuronSet, new: SecuronSet, b: SecuronSet) -> bool
    ensures { (result ≡ true) ↔ (EntersOrLeaves (marked old.has) (marked new.has) ⊆ marked b.has) }
{
    let kept = new.union(b);
    let known = old.union(b);
    old.part(kept) & new.part(known)
}

// Whether the role's bypass set has every securon that enters or leaves SET(E) or SET(G) of a file's row of that mode.
pub fn covers(grown: &Grown, role: &Role, file: &File, mode: usize, e: &[u8], g: &[u8]) -> bool
    requires { ToStore grown.now role.now file.now mode e.now g.now }
    ensures { (result ≡ true) ↔ RoleCovers grown.now.tree role.now file.now mode e.now g.now }
{
    let b = set_at(grown, role, policy::B_PLACE);
    let old_e = set_at(grown, file, policy::file_place(mode, Part::E));
    let new_e = expression::set_of(grown, e);
    if !alters_within(old_e, new_e, b) {
        return false;
    }
    let old_g = set_at(grown, file, policy::file_place(mode, Part::G));
    let new_g = expression::set_of(grown, g);
    alters_within(old_g, new_g, b)
}
