//! The row of a class, by what a listing says.

ghost use Rattle.std.specs.Prelude.{◌≡◌, ◌<◌, ◌++◌, ◌∷◌, [], Some, None, IfOk, OnOk, filter, length, map, position, slice_get};
ghost use Rattle.std.specs.List.{filter_map, find};
ghost use Rattle.std.specs.Option.{option_to_list};
ghost use Rattle.cxx_hierarchy.specs.declared.records.Base.{Base};
ghost use Rattle.cxx_hierarchy.specs.declared.records.ClassId.{ClassId};
ghost use Rattle.cxx_hierarchy.specs.Declarations.{is_plain_base};
ghost use Rattle.cxx_hierarchy.specs.Classes.{bases_of, members_of};
ghost use Rattle.cxx_hierarchy.specs.Scalars.{size_of};
ghost use Rattle.cxx_subobject.specs.VirtualBases.{shared_class};
ghost use Rattle.cxx_subobject.specs.Subobjects.{shared_base, same_subobject};
ghost use Rattle.cxx_subobject.specs.declared.Subobject.{Subobject};
ghost use Rattle.abi_primary.specs.PrimaryBase.{has_primary};
ghost use Rattle.abi_sound.specs.Places.{size_of_value};
ghost use Rattle.abi_sound.specs.declared.class_layout.Bits.{Bits};
ghost use Rattle.abi_foreign.specs.Listings.{cut_bits, cut_row};
ghost use Rattle.abi_foreign.specs.invariants.Said.{AreSmallPlaces, IsSaid};
ghost use Rattle.abi_foreign.specs.invariants.Rows.{said_base_place, direct_base, said_size, said_width, cut_bits_at, exact_bits, exact_row};

use crate::class_lines::proper_of;
use crate::said::{ClassSaid, MemberPlace};
use abi_primary::{Primary, holder_among};
use abi_sound::places::place_of_number;
use abi_sound::{BitList, Bits, ClassLayout, ClassList, HolderList, PlaceList};
use cxx_hierarchy::{Base, ClassId, FieldType, Hierarchy, Member, Scalar, ValueType};
use cxx_subobject::{Root, Subobject, is_same, shared_base, shared_class, subobject_below};
use foundation::{NoMemory, Sequence};
use std::alloc::Global;

/// The number of a subobject among others.
fn number_of(list: &[Subobject], s: &Subobject) -> Option<usize>
    ensures { result ≡ position (λ (t : Subobject). same_subobject t s.now) list.now }
{
    list.iter().position(|t| is_same(t, s))
}

/// The place that the lines of a class say of a base subobject, in bytes; 0 where they say none.
fn printed(said: &ClassSaid, s: &Subobject) -> u32
    ensures { result ≡ said_base_place said.now s.now }
{
    let number = number_of(proper_of(said.list.as_slice()), s);
    place_of_number(said.places.as_slice(), number)
}

/// The subobject with one class of a path more behind a root.
fn direct_base(alloc: Global, c: ClassId, b: ClassId) -> Result<Subobject, NoMemory>
    ensures { IfOk result (λ s. s ≡ direct_base c b) }
{
    let classes = Vec::from_slice(alloc, &[c, b])?;
    Ok(Subobject {
        root: Root::Whole,
        path: Sequence::from_vec(classes),
    })
}

/// Puts the place of a direct base behind the others, where it is not virtual.
fn push_base(
    alloc: Global,
    places: &mut PlaceList,
    said: &ClassSaid,
    c: ClassId,
    base: &Base<ClassId>,
) -> Result<(), NoMemory>
    ensures { OnOk result (places.new ≡ places.old ++ map (λ (b : Base ClassId). said_base_place said.now (direct_base c b.class)) (filter is_plain_base (base.now ∷ []))) }
{
    if !base.is_virtual {
        let s = direct_base(alloc, c, base.class)?;
        places.push(printed(said, &s))?;
    }
    Ok(())
}

/// The places of the direct non-virtual bases of a class.
fn base_places(
    alloc: Global,
    said: &ClassSaid,
    c: ClassId,
    bases: &[Base<ClassId>],
) -> Result<PlaceList, NoMemory>
    ensures { IfOk result (λ places. places ≡ map (λ (b : Base ClassId). said_base_place said.now (direct_base c b.class)) (filter is_plain_base bases.now)) }
{
    let mut places = Sequence::new(alloc);
    for base in bases {
        push_base(alloc, &mut places, said, c, base)?;
    }
    Ok(places)
}

/// Puts a class, if there is one, behind the others.
fn push_class(classes: &mut ClassList, class: Option<ClassId>) -> Result<(), NoMemory>
    ensures { OnOk result (classes.new ≡ classes.old ++ option_to_list class) }
{
    if let Some(class) = class {
        classes.push(class)?;
    }
    Ok(())
}

/// The virtual bases among some subobjects.
fn virtual_bases(alloc: Global, list: &[Subobject]) -> Result<ClassList, NoMemory>
    ensures { IfOk result (λ bases. bases ≡ filter_map shared_class list.now) }
{
    let mut bases = Sequence::new(alloc);
    for s in list {
        push_class(&mut bases, shared_class(s))?;
    }
    Ok(bases)
}

/// The places of virtual bases.
fn virtual_places(
    alloc: Global,
    said: &ClassSaid,
    virtuals: &[ClassId],
) -> Result<PlaceList, NoMemory>
    ensures { IfOk result (λ places. places ≡ map (λ (v : ClassId). said_base_place said.now (shared_base v)) virtuals.now) }
{
    let mut places = Sequence::new(alloc);
    for v in virtuals {
        let s = shared_base(alloc, *v)?;
        places.push(printed(said, &s))?;
    }
    Ok(places)
}

/// The first of some subobjects whose primary base is a virtual base.
fn holder_in(
    alloc: Global,
    primaries: &[Primary],
    list: &[Subobject],
    v: ClassId,
) -> Result<Option<Subobject>, NoMemory>
    ensures { IfOk result (λ s. s ≡ find (has_primary primaries.now v) list.now) }
{
    match holder_among(primaries, v, list) {
        Some(n) => Ok(Some(subobject_below(alloc, &list[n], &[])?)),
        None => Ok(None),
    }
}

/// The holders of virtual bases.
fn holders(
    alloc: Global,
    primaries: &[Primary],
    list: &[Subobject],
    virtuals: &[ClassId],
) -> Result<HolderList, NoMemory>
    ensures { IfOk result (λ holders. holders ≡ map (λ (v : ClassId). find (has_primary primaries.now v) list.now) virtuals.now) }
{
    let mut holders = Sequence::new(alloc);
    for v in virtuals {
        holders.push(holder_in(alloc, primaries, list, *v)?)?;
    }
    Ok(holders)
}

/// The places of members.
fn member_places(alloc: Global, members: &[MemberPlace]) -> Result<PlaceList, NoMemory>
    ensures { IfOk result (λ places. places ≡ map (λ (at : MemberPlace). at.place) members.now) }
{
    let mut places = Sequence::new(alloc);
    for at in members {
        places.push(at.place)?;
    }
    Ok(places)
}

/// The bytes of a number type.
fn size_of(ty: Scalar) -> u32
    ensures { result ≡ size_of ty }
{
    match ty {
        Scalar::Bool | Scalar::Char | Scalar::SChar | Scalar::UChar => 1,
        Scalar::Short | Scalar::UShort => 2,
        Scalar::Int | Scalar::UInt => 4,
        Scalar::Long | Scalar::ULong | Scalar::LongLong | Scalar::ULongLong => 8,
    }
}

/// The bytes of a number or a pointer.
fn size_of_value(ty: &ValueType<ClassId>) -> u32
    ensures { result ≡ size_of_value ty.now }
{
    match ty {
        ValueType::Number(scalar) => size_of(*scalar),
        ValueType::Pointer(_) => 8,
    }
}

/// The bytes that a listing gives to an element of a type.
fn said_size(saids: &[ClassSaid], ty: &FieldType<ClassId>) -> u32
    ensures { result ≡ said_size saids.now ty.now }
{
    match ty {
        FieldType::Value(ty) => size_of_value(ty),
        FieldType::Object(class) => match saids.get(class.0 as usize) {
            Some(said) => said.sizes.size,
            None => 0,
        },
    }
}

/// How many bits a member has, as far as a row can tell.
fn said_width(saids: &[ClassSaid], member: &Member<ClassId>) -> u32
    ensures { result ≡ said_width saids.now member.now }
{
    match member.width {
        Some(n) => n,
        None => member
            .elements()
            .saturating_mul(said_size(saids, &member.ty))
            .saturating_mul(8),
    }
}

/// The bits of a member; a first bit above 255 is kept as 255.
fn cut_at(saids: &[ClassSaid], member: &Member<ClassId>, at: &MemberPlace) -> Bits
    ensures { result ≡ cut_bits_at saids.now member.now at.now }
{
    Bits {
        first: if at.first > 255 { 255 } else { at.first as u8 },
        width: said_width(saids, member),
    }
}

/// The member of a number.
fn nth_member(members: &[Member<ClassId>], n: usize) -> &Member<ClassId>
    requires { n < length members.now }
    ensures { slice_get members.now n ≡ Some result.now }
{
    &members[n]
}

/// The place of a member, by its number.
fn nth_at(places: &[MemberPlace], n: usize) -> &MemberPlace
    requires { n < length places.now }
    ensures { slice_get places.now n ≡ Some result.now }
{
    &places[n]
}

/// The bits of the members of a class.
fn member_bits(
    alloc: Global,
    saids: &[ClassSaid],
    members: &[Member<ClassId>],
    places: &[MemberPlace],
) -> Result<BitList, NoMemory>
    requires { AreSmallPlaces members.now places.now }
    ensures { IfOk result (λ bits. bits ≡ map cut_bits (exact_bits saids.now members.now places.now)) }
{
    let mut bits = Sequence::new(alloc);
    for n in 0..places.len() {
        bits.push(cut_at(saids, nth_member(members, n), nth_at(places, n)))?;
    }
    Ok(bits)
}

/// The row of a class with the numbers of its lines.
pub(crate) fn row_of(
    alloc: Global,
    h: &Hierarchy,
    saids: &[ClassSaid],
    primaries: &[Primary],
    c: ClassId,
    said: &ClassSaid,
) -> Result<ClassLayout, NoMemory>
    requires known { c.0 < length h.now }
    requires members { AreSmallPlaces (members_of h.now c) said.now.members }
    ensures { IfOk result (λ row. row ≡ cut_row (exact_row h.now saids.now primaries.now c said.now)) }
{
    let class = h.class(c);
    let list = said.list.as_slice();
    let members = said.members.as_slice();
    let virtual_bases = virtual_bases(alloc, list)?;
    let virtuals = virtual_bases.as_slice();
    let virtual_places = virtual_places(alloc, said, virtuals)?;
    let holders = holders(alloc, primaries, list, virtuals)?;
    Ok(ClassLayout {
        size: said.sizes.size,
        align: said.sizes.align,
        dsize: said.sizes.dsize,
        nvsize: said.sizes.nvsize,
        nvalign: said.sizes.nvalign,
        primary: said.primary,
        base_places: base_places(alloc, said, c, class.bases.as_slice())?,
        virtual_bases,
        virtual_places,
        holders,
        member_places: member_places(alloc, members)?,
        member_bits: member_bits(alloc, saids, class.members.as_slice(), members)?,
    })
}
