//! The trees of a listing.

ghost use Rattle.std.specs.Prelude.{◌≡◌, ◌++◌, ◌∷◌, ◌-◌, ◌≤◌, ◌<◌, [], ℕ, List, length, map, IfNone, IfOk, IfSome};
ghost use Rattle.git_object.specs.Objects.{pair_id};
ghost use Rattle.git_object.specs.Trees.{AreWellFormed};
ghost use Rattle.text_reader.specs.Line.{Begins, has_byte};
ghost use Rattle.tree_paths.specs.Readings.{Trees};
ghost use Rattle.tree_paths.specs.States.{path_values};
ghost use Rattle.tree_paths.specs.Walks.{below, steps};
ghost use Rattle.object_making.specs.Keeping.{Adds, Keeps};
ghost use Rattle.object_making.specs.Listings.{StartsAt, values};
ghost use Rattle.object_making.specs.Made.{AreOpen, ids_below, tree_ids};
ghost use Rattle.object_making.specs.Matching.{AreFormed, IsNoTree, IsPlace, Matches};

use crate::entries::{keep_tree, push_entry, push_listed};
use crate::listed::{Listed, split_run};
use git_object::{Memory, Mode, ObjectId, Objects, Tree, TreeEntries};
use std::alloc::Global;
use text_reader::strip_front;
use tree_paths::split_at_slash;

/// The most levels of trees, the root's among them.
const MOST_LEVELS: u32 = 32;

/// Makes the tree of the directory that the first path stands in, and adds an entry for it at the end of the tree that
/// is made at `front`, with so many levels left for that. The directory's place is `front`, its name and a slash; the
/// first path has `below` after that. It answers what follows the paths below the directory.
#[cycle(making)]
fn put_directory<'a>(
    alloc: Global,
    listing: &'a [Listed],
    place: &[u8],
    name: &[u8],
    left: u32,
    tree: &mut Tree,
    objects: &mut Objects,
) -> Result<Option<&'a [Listed]>, Memory>
    requires level { 1 ≤ left }
    requires formed { AreWellFormed tree.old.entries }
    requires starts { StartsAt place.now listing.now }
    ensures kept { Adds objects.old objects.new }
    ensures formed { AreWellFormed tree.new.entries }
    ensures put { IfOk result (λ put. IfSome put (λ after. (front : List ℕ) → IsPlace front name.now place.now
        → (trees : Trees) (holder : List ℕ) → Keeps trees objects.new
        → path_values (below (steps trees (left - 1)) holder front tree.new.entries) ++ values after.now
        ≡ path_values (below (steps trees (left - 1)) holder front tree.old.entries) ++ values listing.now)) }
    ensures ids { IfOk result (λ put. IfSome put (λ after. (trees : Trees) (before : List (List ℕ))
        → Keeps trees objects.new → map pair_id objects.old ≡ before ++ ids_below (tree_ids trees (left - 1))
        tree.old.entries
        → map pair_id objects.new ≡ before ++ ids_below (tree_ids trees (left - 1)) tree.new.entries)) }
    ensures visited { IfOk result (λ put. IfSome put (λ after. (front : List ℕ) → IsPlace front name.now place.now
        → (trees : Trees) (holder : List ℕ) → Keeps trees objects.new
        → AreOpen trees (below (steps trees (left - 1)) holder front tree.old.entries)
        → AreOpen trees (below (steps trees (left - 1)) holder front tree.new.entries))) }
    ensures some { IfOk result (λ put. IfSome put (λ after. 1 ≤ length tree.new.entries)) }
    ensures none { IfOk result (λ put. IfNone put ((front : List ℕ) (trees : Trees) (holder : List ℕ) → AreFormed trees
        → IsPlace front name.now place.now
        → Matches (steps trees (left - 1)) holder front tree.old.entries listing.now → ⊥)) }
    ensures next { IfOk result (λ put. IfSome put (λ after. (front : List ℕ) (trees : Trees) (holder : List ℕ)
        → AreFormed trees → IsPlace front name.now place.now
        → Matches (steps trees (left - 1)) holder front tree.old.entries listing.now
        → Matches (steps trees (left - 1)) holder front tree.new.entries after.now)) }
    ensures shorter { IfOk result (λ put. IfSome put (λ after. length after.now < length listing.now)) }
{
    if left == 1 {
        return Ok(None);
    }
    let (run, after) = split_run(listing, place);
    let Some(id) = make_tree(alloc, run, place, left - 1, objects)? else {
        return Ok(None);
    };
    if !push_entry(alloc, tree, Mode::Dir, name, id)? {
        return Ok(None);
    }
    Ok(Some(after))
}

/// Makes the tree at a place whose paths are listed, with so many levels left for it and for what is below it, and the
/// trees below it, adds them at the end of the objects, and answers its id. None where the listing is no tree's.
#[cycle(making)]
fn make_tree(
    alloc: Global,
    listing: &[Listed],
    front: &[u8],
    left: u32,
    objects: &mut Objects,
) -> Result<Option<ObjectId>, Memory>
    requires level { 1 ≤ left }
    ensures kept { Adds objects.old objects.new }
    ensures made { IfOk result (λ made. IfSome made (λ id. (trees : Trees) → Keeps trees objects.new
        → path_values (steps trees left front.now id) ≡ values listing.now)) }
    ensures ids { IfOk result (λ made. IfSome made (λ id. (trees : Trees) → Keeps trees objects.new
        → map pair_id objects.new ≡ map pair_id objects.old ++ tree_ids trees left id)) }
    ensures visited { IfOk result (λ made. IfSome made (λ id. (trees : Trees) → Keeps trees objects.new
        → (length listing.now ≡ 0 → length front.now ≡ 0) → AreOpen trees (steps trees left front.now id))) }
    ensures none { IfOk result (λ made. IfNone made (IsNoTree left front.now listing.now)) }
{
    let mut tree = Tree {
        entries: TreeEntries::new(alloc),
    };
    let mut rest = listing;
    'listing: while let Some((first, more)) = rest.split_first() {
        let path = first.path.as_slice();
        let Some(tail) = strip_front(path, front) else {
            return Ok(None);
        };
        match split_at_slash(tail) {
            None => {
                if !push_listed(alloc, &mut tree, tail, first)? {
                    return Ok(None);
                }
                rest = more;
            }
            Some((name, below)) => {
                let (place, _) = path.split_at(path.len() - below.len());
                let put = put_directory(alloc, rest, place, name, left, &mut tree, objects)?;
                let Some(after) = put else {
                    return Ok(None);
                };
                rest = after;
            }
        }
    }
    Ok(Some(keep_tree(alloc, &tree, objects)?))
}

/// The trees of a listing whose paths rise strictly by bytes, added at the end of the objects with those of directories
/// first, and the id of the root's tree; that of an empty listing is empty, and no other is. No tree is added but those
/// that a walk of the root visits, each as often as it does. None where there are no trees that have
/// exactly these paths with their modes and ids, at most 32 levels deep: `laws::listings` says of which listings there
/// may be. Objects that were there stay; after None or a refusal some of the trees may have been added.
pub fn make_trees(
    alloc: Global,
    listing: &[Listed],
    objects: &mut Objects,
) -> Result<Option<ObjectId>, Memory>
    ensures kept { Adds objects.old objects.new }
    ensures made { IfOk result (λ made. IfSome made (λ root. (trees : Trees) → Keeps trees objects.new
        → path_values (steps trees 32 [] root) ≡ values listing.now)) }
    ensures ids { IfOk result (λ made. IfSome made (λ root. (trees : Trees) → Keeps trees objects.new
        → map pair_id objects.new ≡ map pair_id objects.old ++ tree_ids trees 32 root)) }
    ensures visited { IfOk result (λ made. IfSome made (λ root. (trees : Trees) → Keeps trees objects.new
        → AreOpen trees (steps trees 32 [] root))) }
    ensures none { IfOk result (λ made. IfNone made (IsNoTree 32 [] listing.now)) }
{
    make_tree(alloc, listing, b"", MOST_LEVELS, objects)
}
