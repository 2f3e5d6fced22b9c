//! The words of a sub-VTT.

ghost use Rattle.std.specs.Prelude.{◌≡◌, ◌<◌, ◌∷◌, [], ℕ, Some, IfOk, OnOk, length, slice_get};
ghost use Rattle.cxx_hierarchy.specs.declared.records.ClassId.{ClassId};
ghost use Rattle.cxx_hierarchy.specs.Classes.{Classes};
ghost use Rattle.cxx_hierarchy.specs.VirtualBases.{HasVirtualBase};
ghost use Rattle.cxx_subobject.specs.declared.Subobject.{Subobject};
ghost use Rattle.cxx_subobject.specs.Subobjects.{IsSubobject, class_of};
ghost use Rattle.cxx_subobject.specs.Preorder.{preorder};
ghost use Rattle.abi_sound.specs.Places.{Places, places_of};
ghost use Rattle.abi_vtable.specs.invariants.Parts.{IsViewParts, view_of_parts};
ghost use Rattle.abi_vtable.specs.invariants.Kept.{GrowsByViews};
ghost use Rattle.abi_vtt.specs.Vtts.{item, words_of_bases, sub_items};
ghost use Rattle.abi_vtt.specs.invariants.Marks.{AreVirtualMarks};
ghost use Rattle.abi_vtt.specs.invariants.Served.{HasNote, AreServing};
ghost use Rattle.abi_vtt.specs.invariants.Growing.{GrowsByVttWords};

use crate::needs::needs_word;
use crate::served::tables_of;
use crate::view_list::is_built;
use abi_slots::{GroupName, VttList, VttWord};
use abi_sound::SoundLayout;
use abi_vtable::view::{ViewList, ViewParts, keep_view, view_at};
use cxx_hierarchy::{ClassId, Hierarchy};
use cxx_subobject::{Subobject, subobject_below};
use foundation::NoMemory;
use std::alloc::Global;

/// The word for the part of a number.
fn word_of(
    alloc: Global,
    x: &ViewParts,
    tables: &[Option<usize>],
    n: usize,
) -> Result<VttWord, NoMemory>
    requires { HasNote tables.now n }
    ensures complete { IfOk result (λ word. word.group.complete ≡ x.now.complete) }
    ensures view { IfOk result (λ word. word.group.view ≡ x.now.at) }
    ensures table { IfOk result (λ word. slice_get tables.now n ≡ Some (Some word.table)) }
{
    let view = subobject_below(alloc, &x.at, &[])?;
    match tables[n] {
        Some(table) => Ok(VttWord {
            group: GroupName {
                complete: x.complete,
                view,
            },
            table,
        }),
        None => unreachable!(),
    }
}

/// Puts the word for the part of a number behind others.
fn push_word(
    alloc: Global,
    x: &ViewParts,
    tables: &[Option<usize>],
    n: usize,
    words: &mut VttList,
) -> Result<(), NoMemory>
    requires { HasNote tables.now n }
    ensures { OnOk result ((h : Classes) (l : Places) (s : Subobject) → IsViewParts h l x.now → AreServing h l (view_of_parts x.now) tables.now → slice_get (preorder h x.now.class) n ≡ Some s → GrowsByVttWords h l x.now.complete (item x.now.at s ∷ []) words.old words.new) }
{
    let word = word_of(alloc, x, tables, n)?;
    words.push(word)?;
    Ok(())
}

/// Puts the words for the base subobjects of a view behind others.
fn push_base_words<L: SoundLayout>(
    alloc: Global,
    h: &Hierarchy,
    layout: &L,
    marks: &[bool],
    x: &ViewParts,
    tables: &[Option<usize>],
    words: &mut VttList,
) -> Result<(), NoMemory>
    requires layout { L.lays_out layout.now h.now }
    requires marks { AreVirtualMarks h.now (length h.now) marks.now }
    requires view { IsViewParts h.now (places_of h.now (L.rows layout.now)) x.now }
    requires tables { AreServing h.now (places_of h.now (L.rows layout.now)) (view_of_parts x.now) tables.now }
    ensures { OnOk result (GrowsByVttWords h.now (places_of h.now (L.rows layout.now)) x.now.complete (words_of_bases h.now (places_of h.now (L.rows layout.now)) x.now.at x.now.class) words.old words.new) }
{
    h.keeps();
    for (n, part) in x.parts.as_slice().iter().enumerate() {
        if needs_word(h, layout, marks, part) {
            push_word(alloc, x, tables, n, words)?;
        }
    }
    Ok(())
}

/// Puts the words of the sub-VTT of a view of class `d` behind others: for its own table, the sub-VTTs of its bases, and the
/// words for its base subobjects. The views are put behind others likewise, so that the groups are filled from them.
///
/// Errors: want of memory.
pub(crate) fn push_sub_vtt<L: SoundLayout>(
    alloc: Global,
    h: &Hierarchy,
    layout: &L,
    marks: &[bool],
    name: &GroupName,
    d: ClassId,
    views: &mut ViewList,
    words: &mut VttList,
) -> Result<(), NoMemory>
    requires layout { L.lays_out layout.now h.now }
    requires marks { AreVirtualMarks h.now (length h.now) marks.now }
    requires known { name.now.complete.0 < length h.now }
    requires view { IsSubobject h.now name.now.complete name.now.view }
    requires class { class_of name.now.view ≡ Some d }
    requires has_base { (v : ClassId) × HasVirtualBase h.now d v }
    ensures words { OnOk result ((n : ℕ) → d.0 < n → GrowsByVttWords h.now (places_of h.now (L.rows layout.now)) name.now.complete (sub_items h.now (places_of h.now (L.rows layout.now)) n name.now.view d) words.old words.new) }
    ensures views { OnOk result (GrowsByViews h.now (places_of h.now (L.rows layout.now)) views.old views.new) }
{
    h.keeps();
    let number = keep_view(alloc, h, layout, name, views)?;
    let x = view_at(views.as_slice(), number);
    let tables = tables_of(alloc, h, layout, x)?;
    push_word(alloc, x, &tables, 0, words)?;
    for base in h.class(d).bases.as_slice() {
        if is_built(marks, base) {
            let inner = GroupName {
                complete: name.complete,
                view: subobject_below(alloc, &name.view, &[base.class])?,
            };
            push_sub_vtt(alloc, h, layout, marks, &inner, base.class, views, words)?;
        }
    }
    let itself = view_at(views.as_slice(), number);
    push_base_words(alloc, h, layout, marks, itself, &tables, words)?;
    Ok(())
}
