//! The text of a class's tables: its groups, its VTT and its type information (Itanium C++ ABI 2.5, 2.6, 2.9).

ghost use Rattle.std.specs.Prelude.{◌≡◌, ◌++◌, ◌<◌, All, OnOk, OnErr, IfOk, codes, length, slice_get, true};
ghost use Rattle.std.specs.List.{flat_map};
ghost use Rattle.std.specs.Fmt.{decimal};
ghost use Rattle.cxx_subobject.specs.Subobjects.{IsSubobject};
ghost use Rattle.abi_slots.specs.declared.words.Group.{Group};
ghost use Rattle.abi_slots.specs.declared.words.VttWord.{VttWord};
ghost use Rattle.abi_sound.specs.Places.{places_of};
ghost use Rattle.abi_print.specs.invariants.Wholes.{is_whole_view};
ghost use Rattle.abi_print.specs.TableTexts.{IsViewName, table_text, view_text, group_title, group_text, group_of, tables_in, table_in, targets_text, vtt_text, base_text, info_text, class_info_text, groups_text, tables_text};
ghost use Rattle.abi_print.specs.invariants.Writers.{written_place};

use crate::text::{append, append_class, append_number};
use crate::word_lines::{append_signed, append_table, append_table_name};
use crate::writer::{Writer, Written};
use abi_slots::{Group, GroupName, InfoBase, Table, TypeInfo, VttWord};
use abi_sound::SoundLayout;
use cxx_hierarchy::{ClassId, Hierarchy};
use cxx_subobject::{Root, Subobject, class_of, is_same};
use foundation::NoMemory;
use std::alloc::Global;

fn append_count(alloc: Global, text: &mut Vec<u8>, count: usize) -> Result<(), NoMemory>
    ensures { OnOk result (text.new.items ≡ text.old.items ++ decimal count) }
{
    let digits = count.to_string(alloc)?;
    append(text, digits.as_bytes())?;
    Ok(())
}

/// Puts the lines of the tables of a group at the end of a text.
fn append_table_list<L>(w: &Writer<L>, text: &mut Vec<u8>, tables: &[Table]) -> Written
    ensures { OnOk result (text.new.items ≡ text.old.items ++ flat_map (table_text w.now.h.now) tables.now) }
{
    for table in tables {
        append_table(w, text, table)?;
    }
    Ok(())
}

/// Puts a view at the end of a text: its class and its place, and the class of the complete object.
fn append_view<L: SoundLayout>(
    w: &Writer<L>,
    text: &mut Vec<u8>,
    c: ClassId,
    view: &Subobject,
) -> Written
    requires layout { L.lays_out w.now.layout.now w.now.h.now }
    requires known { c.0 < length w.now.h.now }
    requires subobject { IsSubobject w.now.h.now c view.now }
    ensures { OnOk result (text.new.items ≡ text.old.items ++ view_text w.now.h.now (written_place L.rows w.now) c view.now) }
{
    match class_of(view) {
        Some(d) => append_class(text, w.h, d)?,
        // never met: the clause `subobject` says that it is one, and each has a class
        None => {}
    }
    append(text, b"@")?;
    append_number(w.alloc, text, w.layout.place(w.h, c, view))?;
    append(text, b" in ")?;
    append_class(text, w.h, c)?;
    Ok(())
}

/// Whether a subobject is the whole.
fn is_whole(s: &Subobject) -> bool
    ensures { result ≡ is_whole_view s.now }
{
    match s.root {
        Root::Whole => s.path.len() == 1,
        Root::Shared(_) => false,
    }
}

/// Puts the name of a group at the end of a text.
fn append_group_name<L: SoundLayout>(w: &Writer<L>, text: &mut Vec<u8>, name: &GroupName) -> Written
    requires layout { L.lays_out w.now.layout.now w.now.h.now }
    requires view { IsViewName w.now.h.now name.now }
    ensures { OnOk result (text.new.items ≡ text.old.items ++ group_title w.now.h.now (written_place L.rows w.now) name.now) }
{
    if is_whole(&name.view) {
        append_class(text, w.h, name.complete)?;
        return Ok(());
    }
    append_view(w, text, name.complete, &name.view)?;
    Ok(())
}

/// Puts the lines of a group at the end of a text.
fn append_group<L: SoundLayout>(w: &Writer<L>, text: &mut Vec<u8>, group: &Group) -> Written
    requires layout { L.lays_out w.now.layout.now w.now.h.now }
    requires view { IsViewName w.now.h.now group.now.name }
    ensures { OnOk result (text.new.items ≡ text.old.items ++ group_text w.now.h.now (written_place L.rows w.now) group.now) }
{
    append(text, b"group ")?;
    append_group_name(w, text, &group.name)?;
    append(text, b"\n")?;
    append_table_list(w, text, group.tables.as_slice())?;
    Ok(())
}

/// Puts the lines of groups at the end of a text.
fn append_groups<L: SoundLayout>(w: &Writer<L>, text: &mut Vec<u8>, groups: &[Group]) -> Written
    requires layout { L.lays_out w.now.layout.now w.now.h.now }
    requires views { All (λ (group : Group). IsViewName w.now.h.now group.name) groups.now }
    ensures { OnOk result (text.new.items ≡ text.old.items ++ flat_map (group_text w.now.h.now (written_place L.rows w.now)) groups.now) }
{
    for group in groups {
        append_group(w, text, group)?;
    }
    Ok(())
}

fn is_same_name(one: &GroupName, other: &GroupName) -> bool
    ensures { result ≡ true → one.now ≡ other.now }
{
    one.complete.0 == other.complete.0 && is_same(&one.view, &other.view)
}

/// The number of the group in which the table of a word is, and the number of groups where there is none.
fn group_number(groups: &[Group], word: &VttWord) -> usize
    ensures { slice_get groups.now result ≡ group_of groups.now word.now }
{
    for number in 0..groups.len() {
        if is_same(&groups[number].name.view, &word.group.view) {
            return number;
        }
    }
    groups.len()
}

/// What is known of a word's group: its number, and its name as text.
#[derive(Drop)]
struct WordGroup {
    number: usize,
    name: Vec<u8>,
}

/// The group of a word.
fn word_group<L: SoundLayout>(
    w: &Writer<L>,
    groups: &[Group],
    word: &VttWord,
) -> Result<WordGroup, NoMemory>
    requires layout { L.lays_out w.now.layout.now w.now.h.now }
    requires view { IsViewName w.now.h.now word.now.group }
    ensures number { IfOk result (λ group. slice_get groups.now group.number ≡ group_of groups.now word.now) }
    ensures name { IfOk result (λ group. group.name.items ≡ group_title w.now.h.now (written_place L.rows w.now) word.now.group) }
{
    let mut name = Vec::new(w.alloc);
    append_group_name(w, &mut name, &word.group)?;
    let number = group_number(groups, word);
    Ok(WordGroup { number, name })
}

/// The group of a word, where that of the word before is known.
fn next_group<L: SoundLayout>(
    w: &Writer<L>,
    groups: &[Group],
    before: &VttWord,
    known: WordGroup,
    word: &VttWord,
) -> Result<WordGroup, NoMemory>
    requires layout { L.lays_out w.now.layout.now w.now.h.now }
    requires view { IsViewName w.now.h.now word.now.group }
    requires number { slice_get groups.now known.number ≡ group_of groups.now before.now }
    requires name { known.name.items ≡ group_title w.now.h.now (written_place L.rows w.now) before.now.group }
    ensures number { IfOk result (λ group. slice_get groups.now group.number ≡ group_of groups.now word.now) }
    ensures name { IfOk result (λ group. group.name.items ≡ group_title w.now.h.now (written_place L.rows w.now) word.now.group) }
{
    if is_same_name(&before.group, &word.group) {
        return Ok(known);
    }
    word_group(w, groups, word)
}

/// Puts the name of a table of a group at the end of a text, and nothing where there is none.
fn append_table_at<L>(
    w: &Writer<L>,
    text: &mut Vec<u8>,
    groups: &[Group],
    group: usize,
    table: usize,
) -> Written
    ensures { OnOk result (text.new.items ≡ text.old.items ++ table_in w.now.h.now (slice_get (tables_in (slice_get groups.now group)) table)) }
{
    // never met, nor no table there: each word of a VTT names a table of a group, by `IsVttWord`
    let Some(group) = groups.get(group) else {
        return Ok(());
    };
    match group.tables.as_slice().get(table) {
        Some(table) => append_table_name(w, text, table)?,
        None => {}
    }
    Ok(())
}

/// Puts the line of a word of a VTT at the end of a text: its number, the table to which it points, and its group.
fn append_target_line<L>(
    w: &Writer<L>,
    text: &mut Vec<u8>,
    groups: &[Group],
    group: &WordGroup,
    number: usize,
    table: usize,
) -> Written
    ensures { OnOk result (text.new.items ≡ text.old.items ++ decimal number ++ codes " " ++ (table_in w.now.h.now (slice_get (tables_in (slice_get groups.now group.now.number)) table) ++ codes " of " ++ group.now.name.items) ++ codes "\n") }
{
    append_count(w.alloc, text, number)?;
    append(text, b" ")?;
    append_table_at(w, text, groups, group.number, table)?;
    append(text, b" of ")?;
    append(text, &group.name)?;
    append(text, b"\n")?;
    Ok(())
}

/// Puts the words of a VTT at the end of a text, each behind its number. `first` is one of them.
fn append_targets<L: SoundLayout>(
    w: &Writer<L>,
    text: &mut Vec<u8>,
    groups: &[Group],
    first: &VttWord,
    words: &[VttWord],
) -> Written
    requires layout { L.lays_out w.now.layout.now w.now.h.now }
    requires first { IsViewName w.now.h.now first.now.group }
    requires words { All (λ (word : VttWord). IsViewName w.now.h.now word.group) words.now }
    ensures { OnOk result (text.new.items ≡ text.old.items ++ targets_text w.now.h.now (written_place L.rows w.now) groups.now 0 words.now) }
{
    let mut before = first;
    let mut group = word_group(w, groups, first)?;
    let mut number = 0;
    for word in words {
        group = next_group(w, groups, before, group, word)?;
        append_target_line(w, text, groups, &group, number, word.table)?;
        before = word;
        number += 1;
    }
    Ok(())
}

/// Puts the lines of a VTT at the end of a text, and nothing where it has no words.
fn append_vtt<L: SoundLayout>(
    w: &Writer<L>,
    text: &mut Vec<u8>,
    c: ClassId,
    groups: &[Group],
    words: &[VttWord],
) -> Written
    requires layout { L.lays_out w.now.layout.now w.now.h.now }
    requires words { All (λ (word : VttWord). IsViewName w.now.h.now word.group) words.now }
    ensures { OnOk result (text.new.items ≡ text.old.items ++ vtt_text w.now.h.now (written_place L.rows w.now) c groups.now words.now) }
{
    match words {
        [] => Ok(()),
        [first, ..] => {
            append(text, b"vtt ")?;
            append_class(text, w.h, c)?;
            append(text, b" ")?;
            append_count(w.alloc, text, words.len())?;
            append(text, b"\n")?;
            append_targets(w, text, groups, first, words)?;
            Ok(())
        }
    }
}

/// Puts the line of a base in the record of a class at the end of a text.
fn append_info_base<L>(w: &Writer<L>, text: &mut Vec<u8>, base: &InfoBase) -> Written
    ensures { OnOk result (text.new.items ≡ text.old.items ++ base_text w.now.h.now base.now) }
{
    append(text, b"base ")?;
    append_class(text, w.h, base.class)?;
    append(text, b" ")?;
    append_signed(w.alloc, text, base.offset_flags)?;
    append(text, b"\n")?;
    Ok(())
}

/// Puts the lines of bases in the record of a class at the end of a text.
fn append_info_bases<L>(w: &Writer<L>, text: &mut Vec<u8>, bases: &[InfoBase]) -> Written
    ensures { OnOk result (text.new.items ≡ text.old.items ++ flat_map (base_text w.now.h.now) bases.now) }
{
    for base in bases {
        append_info_base(w, text, base)?;
    }
    Ok(())
}

/// Puts the record of a class at the end of a text, behind the name of the class.
fn append_info<L>(w: &Writer<L>, text: &mut Vec<u8>, info: &TypeInfo) -> Written
    ensures { OnOk result (text.new.items ≡ text.old.items ++ info_text w.now.h.now info.now) }
{
    match info {
        TypeInfo::Plain => append(text, b" class\n")?,
        TypeInfo::Single(base) => {
            append(text, b" si ")?;
            append_class(text, w.h, *base)?;
            append(text, b"\n")?;
        }
        TypeInfo::Many(flags, bases) => {
            append(text, b" vmi flags ")?;
            append_number(w.alloc, text, *flags)?;
            append(text, b" bases ")?;
            append_count(w.alloc, text, bases.len())?;
            append(text, b"\n")?;
            append_info_bases(w, text, bases.as_slice())?;
        }
    }
    Ok(())
}

/// Puts the lines of the type information of a class at the end of a text.
fn append_class_info<L>(w: &Writer<L>, text: &mut Vec<u8>, c: ClassId, info: &TypeInfo) -> Written
    ensures { OnOk result (text.new.items ≡ text.old.items ++ class_info_text w.now.h.now c info.now) }
{
    append(text, b"typeinfo ")?;
    append_class(text, w.h, c)?;
    append_info(w, text, info)?;
    Ok(())
}

/// Puts the lines of the groups of a class at the end of a text, with its VTT behind the first.
fn append_groups_and_vtt<L: SoundLayout>(
    w: &Writer<L>,
    text: &mut Vec<u8>,
    c: ClassId,
    groups: &[Group],
    vtt: &[VttWord],
) -> Written
    requires layout { L.lays_out w.now.layout.now w.now.h.now }
    requires groups { All (λ (group : Group). IsViewName w.now.h.now group.name) groups.now }
    requires words { All (λ (word : VttWord). IsViewName w.now.h.now word.group) vtt.now }
    ensures { OnOk result (text.new.items ≡ text.old.items ++ groups_text w.now.h.now (written_place L.rows w.now) c groups.now vtt.now groups.now) }
{
    match groups {
        [] => Ok(()),
        [whole, others @ ..] => {
            append_group(w, text, whole)?;
            append_vtt(w, text, c, groups, vtt)?;
            append_groups(w, text, others)?;
            Ok(())
        }
    }
}

/// The text of a class's tables: the group of the whole, the VTT, the groups of the other views, and the type
/// information. The views are of complete objects of classes of the hierarchy.
///
/// Errors: want of memory.
pub fn tables_text<L: SoundLayout>(
    alloc: Global,
    h: &Hierarchy,
    layout: &L,
    c: ClassId,
    groups: &[Group],
    vtt: &[VttWord],
    info: &TypeInfo,
) -> Result<Vec<u8>, NoMemory>
    requires layout { L.lays_out layout.now h.now }
    requires groups { All (λ (group : Group). IsViewName h.now group.name) groups.now }
    requires words { All (λ (word : VttWord). IsViewName h.now word.group) vtt.now }
    ensures { IfOk result (λ text. text.items ≡ tables_text h.now (places_of h.now (L.rows layout.now)).place c groups.now vtt.now info.now) }
{
    let w = Writer { alloc, h, layout };
    let mut text = Vec::new(alloc);
    append_groups_and_vtt(&w, &mut text, c, groups, vtt)?;
    append_class_info(&w, &mut text, c, info)?;
    Ok(text)
}

/// Puts the text of a class's tables at the end of a text: the group of the whole, the VTT, the groups of the other
/// views, and the type information. The views are of complete objects of classes of the hierarchy.
///
/// Errors: want of memory, after which the text is as it was.
pub fn append_tables<L: SoundLayout>(
    alloc: Global,
    text: &mut Vec<u8>,
    h: &Hierarchy,
    layout: &L,
    c: ClassId,
    groups: &[Group],
    vtt: &[VttWord],
    info: &TypeInfo,
) -> Result<(), NoMemory>
    requires layout { L.lays_out layout.now h.now }
    requires groups { All (λ (group : Group). IsViewName h.now group.name) groups.now }
    requires words { All (λ (word : VttWord). IsViewName h.now word.group) vtt.now }
    ensures ok { OnOk result (text.new.items ≡ text.old.items ++ tables_text h.now (places_of h.now (L.rows layout.now)).place c groups.now vtt.now info.now) }
    ensures err { OnErr result (text.new.items ≡ text.old.items) }
{
    let lines = tables_text(alloc, h, layout, c, groups, vtt, info)?;
    text.extend_from_slice(&lines)?;
    Ok(())
}
