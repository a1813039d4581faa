//! Objects that are kept in memory under the ids that they were asked for, in two generations.

ghost use Rattle.std.specs.Prelude.{◌≡◌, ◌+◌, ◌≤◌, ◌^◌, ℕ, List, Some, length, if◌then◌else◌, IfSome, OnErr, OnOk};
ghost use Rattle.std.specs.BTreeMap as tree;
ghost use Rattle.std.specs.Ordering.{is_eq};
ghost use Rattle.octets.specs.BytesMap.{by_bytes};
ghost use Rattle.keeper_layers.specs.Caching.{GainsOnly, HasRoom, IsCached, IsEmpty, IsNoMore, IsWithin};
ghost use Rattle.keeper_layers.specs.Caching.{weight_in, weight_of};

use git_object::{Object, ObjectId};
use octets::{Copied, Memory};
use std::alloc::Global;
use std::collections::BTreeMap;
use std::mem;

// The most that a generation weighs: 32 MiB.
const HEAVIEST_GENERATION: u64 = 33554432;

// The longest body that is kept: 1 MiB. Longer ones would push many others out.
const LONGEST_BODY: u64 = 1048576;

// What an object weighs beside its body: its place in a map, and what its copies share.
const BESIDE_BODY: u64 = 256;

/// Objects in two generations. Once the recent one is full it becomes the earlier one, which is dropped.
#[derive(Drop)]
pub(crate) struct CachedObjects {
    recent: BTreeMap<ObjectId, Object>,
    earlier: BTreeMap<ObjectId, Object>,
    // What the recent generation weighs, or more.
    weight: u64,
}

fn weight_of(object: &Object) -> u64
    ensures { length object.now.body ≤ 2 ^ 20 → result ≡ weight_of object.now }
{
    (object.body().len() as u64).saturating_add(BESIDE_BODY)
}

// A copy of the object under an id; None also where memory is wanting.
fn copy_at(objects: &BTreeMap<ObjectId, Object>, id: &ObjectId) -> Option<Object>
    ensures { IfSome result (λ object. tree.get by_bytes objects.now id.now ≡ Some object) }
{
    objects.get(id)?.copied().ok()
}

// Puts an object under an id. After a refusal nothing has changed.
fn put_object(
    objects: &mut BTreeMap<ObjectId, Object>,
    id: &ObjectId,
    object: Object,
) -> Result<(), Memory>
    ensures put { OnOk result ((q : List ℕ) → tree.get by_bytes objects.new q
        ≡ (if is_eq (by_bytes id.now q) then Some object else tree.get by_bytes objects.old q)) }
    ensures same { OnErr result (objects.new.entries ≡ objects.old.entries) }
    ensures weight { weight_in objects.new ≤ weight_in objects.old + weight_of object }
{
    let _had = objects.insert(*id, object)?;
    Ok(())
}

impl CachedObjects {
    /// No object. It takes no memory.
    pub(crate) fn new(alloc: Global) -> CachedObjects
        ensures empty { IsEmpty result }
        ensures within { IsWithin result }
    {
        CachedObjects {
            recent: BTreeMap::new(alloc),
            earlier: BTreeMap::new(alloc),
            weight: 0,
        }
    }

    // Makes room for an object of this weight in the recent generation.
    fn make_room(&mut self, alloc: Global, weight: u64)
        ensures same { IsNoMore self.old self.new }
        ensures room { weight ≤ 2 ^ 25 → IsWithin self.old → HasRoom self.new weight }
    {
        let heavier = self.weight.saturating_add(weight);
        if heavier <= HEAVIEST_GENERATION {
            self.weight = heavier;
            return;
        }
        self.earlier = mem::replace(&mut self.recent, BTreeMap::new(alloc));
        self.weight = weight;
    }

    // Keeps an object in the recent generation, unless memory is wanting.
    fn put(&mut self, alloc: Global, id: &ObjectId, object: Object)
        requires { length object.body ≤ 2 ^ 20 }
        ensures gains { GainsOnly self.old self.new id.now object }
        ensures within { IsWithin self.old → IsWithin self.new }
    {
        self.make_room(alloc, weight_of(&object));
        let _kept = put_object(&mut self.recent, id, object);
    }

    /// Keeps an object under an id, unless it is long or memory is wanting.
    pub(crate) fn keep(&mut self, alloc: Global, id: &ObjectId, object: &Object)
        ensures gains { GainsOnly self.old self.new id.now object.now }
        ensures within { IsWithin self.old → IsWithin self.new }
    {
        if object.body().len() as u64 > LONGEST_BODY {
            return;
        }
        if let Ok(copy) = object.copied() {
            self.put(alloc, id, copy);
        }
    }

    /// A copy of the object that is kept under an id; None also where memory is wanting.
    pub(crate) fn find(&self, id: &ObjectId) -> Option<Object>
        ensures { IfSome result (IsCached self.now id.now) }
    {
        match copy_at(&self.recent, id) {
            Some(object) => Some(object),
            None => copy_at(&self.earlier, id),
        }
    }
}
