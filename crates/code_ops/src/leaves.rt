//! How the values of leaves stand in memory, and the ops on them.

ghost use Rattle.std.specs.Prelude.{◌≡◌};
ghost use Rattle.cxx_hierarchy.specs.Classes.{width_of_member};
ghost use Rattle.cxx_hierarchy.specs.Hierarchies.{IsHierarchy};
ghost use Rattle.abi_sound.specs.Places.{places_of};
ghost use Rattle.code_ops.specs.PlaceOps.{type_or_int, element_type_at};
ghost use Rattle.code_ops.specs.Leaves.{filled_width, leaf_width, place_leaf, set_check, load_op, store_op, copy_op};
ghost use Rattle.code_ops.specs.invariants.Sites.{site_setup, IsLaidSite};

use crate::operands::class_or_first;
use crate::places::{element_type, member_at};
use crate::sites::Site;
use crate::widths::{LeafWidth, value_width};
use abi_sound::{SoundLayout, first_bit};
use byte_code::{BitWidth, Check, Op};
use cxx_hierarchy::{ClassId, Hierarchy};
use cxx_program::TypedPlace;
use cxx_subobject::class_of;

/// The width of a member of a class, where it is a bit-field.
fn width_of_member(h: &Hierarchy, d: ClassId, m: u32) -> Option<u32>
    ensures { result ≡ width_of_member h.now d m }
{
    member_at(h, d, m)?.width
}

/// How the elements of a member of a class stand in memory, where they are numbers or pointers.
pub fn leaf_width<L: SoundLayout>(layout: &L, h: &Hierarchy, d: ClassId, m: u32) -> LeafWidth
    requires laid { L.lays_out layout.now h.now }
    requires keeps { IsHierarchy h.now }
    ensures { result ≡ filled_width ((places_of h.now (L.rows layout.now)).first d m) (width_of_member h.now d m) (type_or_int (element_type_at h.now d m)) }
{
    let width = value_width(element_type(h, d, m));
    match width_of_member(h, d, m) {
        None => LeafWidth::Bytes(width),
        Some(n) => {
            let bits = BitWidth {
                bits: n as u8,
                signed: width.signed,
            };
            LeafWidth::Bits(first_bit(layout, d, m), bits)
        }
    }
}

/// How the elements of a member of a class stand, at a site.
pub fn member_leaf<L: SoundLayout>(site: &Site<L>, d: ClassId, m: u32) -> LeafWidth
    requires { IsLaidSite L.lays_out L.rows site.now }
    ensures { result ≡ leaf_width (site_setup L.rows site.now) d m }
{
    leaf_width(site.layout, site.h, d, m)
}

/// How the leaf stands that a place leads to.
pub fn place_leaf<L: SoundLayout>(site: &Site<L>, place: &TypedPlace) -> LeafWidth
    requires { IsLaidSite L.lays_out L.rows site.now }
    ensures { result ≡ place_leaf (site_setup L.rows site.now) place.now }
{
    member_leaf(site, class_or_first(class_of(&place.base)), place.member)
}

impl LeafWidth {
    /// The test that such a leaf is set, at the address in a register.
    pub fn set_check(self, base: u32) -> Check
        ensures { result ≡ set_check self base }
    {
        let offset = 0;
        match self {
            LeafWidth::Bytes(width) => Check::SetLeaf {
                base,
                offset,
                width,
            },
            LeafWidth::Bits(first, width) => Check::SetBits {
                base,
                offset,
                first,
                width,
            },
        }
    }

    /// The op that puts its value into a register, at the address in another one.
    pub fn load(self, to: u32, base: u32) -> Op
        ensures { result ≡ load_op self to base }
    {
        let offset = 0;
        match self {
            LeafWidth::Bytes(width) => Op::Load {
                to,
                base,
                offset,
                width,
            },
            LeafWidth::Bits(first, width) => Op::LoadBits {
                to,
                base,
                offset,
                first,
                width,
            },
        }
    }

    /// The op by which it takes the value of a register, so many bytes behind the address in another one.
    pub fn store(self, from: u32, base: u32, offset: u32) -> Op
        ensures { result ≡ store_op self from base offset }
    {
        match self {
            LeafWidth::Bytes(width) => Op::Store {
                from,
                base,
                offset,
                width,
            },
            LeafWidth::Bits(first, width) => Op::StoreBits {
                from,
                base,
                offset,
                first,
                width,
            },
        }
    }

    /// The op by which it becomes what the leaf at the same distance from another address is, set or not.
    pub fn copy(self, to: u32, from: u32, offset: u32) -> Op
        ensures { result ≡ copy_op self to from offset }
    {
        match self {
            LeafWidth::Bytes(width) => Op::Copy {
                to,
                from,
                offset,
                bytes: width.bytes,
            },
            LeafWidth::Bits(first, width) => Op::CopyBits {
                to,
                from,
                offset,
                first,
                bits: width.bits,
            },
        }
    }
}
