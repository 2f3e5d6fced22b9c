//! Parts and values from the outside.

ghost use Rattle.std.specs.Prelude.{◌≡◌, true, OnOk, IfOk, ◌∷◌, []};
ghost use Rattle.cxx_subobject.specs.Locations.{ObjectPart};
ghost use Rattle.path_model.specs.Values.{Value as ValueOf, Objects};
ghost use Rattle.path_model.specs.Outs.{location_of, shown};
ghost use Rattle.path_heap.specs.Points.{Points};
ghost use Rattle.path_heap.specs.Stands.{HeapStands, Means};
ghost use Rattle.path_tables.specs.Worlds.{IsWorld};
ghost use Rattle.cxx_hierarchy.specs.declared.records.ClassId.{ClassId};
ghost use Rattle.cxx_subobject.specs.declared.Root.TheVariants.{Whole};
ghost use Rattle.path_places.specs.invariants.Walks.{hop_of, Walks};

use crate::kids::{Way, kid_of};
use cxx_hierarchy::ClassId;
use cxx_subobject::{Hop, Location, Root, Subobject};
use foundation::{NoMemory, Sequence};
use path_heap::{Heap, Value};
use path_model::Value as Shown;
use path_tables::World;
use path_values::behind;
use std::alloc::Global;

/// A part on the way: its class, whether it is a complete object, and which subobject of its complete object it is.
#[derive(Drop)]
struct Spot {
    class: ClassId,
    is_full: bool,
    root: Root,
    path: Vec<ClassId>,
}

impl Spot {
    /// The part as a hop.
    fn hop(self) -> Hop
        ensures { result ≡ hop_of self }
    {
        Hop::Inherit(Subobject {
            root: self.root,
            path: Sequence::from_vec(self.path),
        })
    }
}

/// The complete object of a class.
fn complete(alloc: Global, class: ClassId) -> Result<Spot, NoMemory>
    ensures class { IfOk result (λ spot. spot.class ≡ class) }
    ensures full { IfOk result (λ spot. spot.is_full ≡ true) }
    ensures root { IfOk result (λ spot. spot.root ≡ Whole) }
    ensures path { IfOk result (λ spot. spot.path.items ≡ class ∷ []) }
{
    Ok(Spot {
        class,
        is_full: true,
        root: Root::Whole,
        path: Vec::from_slice(alloc, &[class])?,
    })
}

/// Puts the hops from the complete object of a part to the part that stands so many numbers behind it behind the others.
fn walk(
    alloc: Global,
    world: &World,
    spot: Spot,
    n: u32,
    hops: &mut Vec<Hop>,
) -> Result<(), NoMemory>
    requires { IsWorld world.now }
    ensures { OnOk result (Walks world.now.h.now spot n hops.old.items hops.new.items) }
{
    let Some(kid) = kid_of(world, spot.class, spot.is_full, n) else {
        hops.push(spot.hop())?;
        return Ok(());
    };
    match kid.way {
        Way::Base => {
            let mut path = spot.path;
            path.push(kid.class)?;
            let below = Spot {
                class: kid.class,
                is_full: false,
                root: spot.root,
                path,
            };
            walk(alloc, world, below, kid.rest, hops)
        }
        Way::Shared => {
            let below = Spot {
                class: kid.class,
                is_full: false,
                root: Root::Shared(kid.class),
                path: Vec::from_slice(alloc, &[kid.class])?,
            };
            walk(alloc, world, below, kid.rest, hops)
        }
        Way::Element(member, index) => {
            hops.push(spot.hop())?;
            hops.push(Hop::Member(member, index))?;
            let below = complete(alloc, kid.class)?;
            walk(alloc, world, below, kid.rest, hops)
        }
    }
}

/// The location of a part.
///
/// Errors: want of memory.
pub fn location(alloc: Global, world: &World, heap: &Heap, n: u64) -> Result<Location, NoMemory>
    requires { IsWorld world.now }
    ensures { IfOk result (λ location. (s : Objects) (p : ObjectPart) → HeapStands world.now.h.now heap.now s → Points world.now.h.now s.classes n p → location ≡ location_of s p) }
{
    let object = heap.object(n);
    let class = heap.object_class(n);
    let rest = behind(heap.heap_object(n), n);
    let whole = complete(alloc, class)?;
    let mut hops = Vec::new(alloc);
    walk(alloc, world, whole, rest, &mut hops)?;
    Ok(Location {
        object: object + 1,
        class,
        hops: Sequence::from_vec(hops),
    })
}

/// A value from the outside.
///
/// Errors: want of memory.
pub fn shown(alloc: Global, world: &World, heap: &Heap, value: Value) -> Result<Shown, NoMemory>
    requires { IsWorld world.now }
    ensures { IfOk result (λ told. (s : Objects) (v : ValueOf) → HeapStands world.now.h.now heap.now s → Means world.now.h.now s.classes value v → told ≡ shown s v) }
{
    match value {
        Value::Unset => Ok(Shown::Unset),
        Value::Number(number) => Ok(Shown::Number(number)),
        Value::Null => Ok(Shown::Null),
        Value::Pointer(n) => Ok(Shown::Pointer(location(alloc, world, heap, n)?)),
    }
}
