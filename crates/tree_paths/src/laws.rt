//! Laws of the places and of the ways to them, proved on functions that do nothing.
ghost use Rattle.tree_paths.specs.Laws.{AgreesWhereIdentified, WalkFindsAll, WalkIsExact};
ghost use Rattle.tree_paths.specs.declared.first_version.TheConstants as before;
ghost use Rattle.tree_paths.specs.declared.places.TheConstants as now;
ghost use Rattle.tree_paths.specs.Shape.{IsShape, first_shape, shape};
ghost use Rattle.tree_paths.specs.Walk.{AreChildren, children, first_children};

/// The places of each version are those of a tree, and a walk from the root down comes to all of them.
pub fn shape_laws()
    ensures shape { IsShape shape }
    ensures children { AreChildren shape children now.DEPTH }
    ensures first_shape { IsShape first_shape }
    ensures first_children { AreChildren first_shape first_children before.DEPTH }
{}

/// A walk that finds nothing wrong shows that no place has a damage on its way, and finds nothing wrong where no leaf has. Two images that have no damage on the way
/// from one root to a place have the same bytes there, where equal tags come from equal messages.
pub fn tree_laws()
    ensures walked { WalkFindsAll }
    ensures exact { WalkIsExact }
    ensures identified { AgreesWhereIdentified }
{}
