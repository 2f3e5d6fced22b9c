//! The lines of a class, from the front of what is left of a listing.

ghost use Rattle.std.specs.Prelude.{◌≡◌, ℕ, ◌+◌, ◌<◌, ◌≤◌, ◌∷◌, ◌++◌, [], IfOk, IfErr, OnOk, MatchOption, Contains, length, map, slice_index};
ghost use Rattle.abi_print.specs.LayoutTexts.{proper, type_text, length_text};
ghost use Rattle.abi_foreign.specs.Lines.{sizes_line, primary_line, base_line, member_line, class_lines};
ghost use Rattle.abi_foreign.specs.invariants.Pieces.{IsApart, HasNoneBefore, IsNumberBefore};
ghost use Rattle.abi_foreign.specs.invariants.Reading.{IsNoLine, StopsReading, HasRoomForLines};
ghost use Rattle.abi_foreign.specs.invariants.Said.{HasNoSizes, AreSizes, AreSizesRead, sizes_head, IsWord, IsPrimaryWord, IsPrimaryRead, base_tail, AreBasesRead, declared_text, member_tail, HasNoBits, AreBits, HasNoMember, IsMember, IsMemberRead, AreMembersRead, IsSaid, IsClassRead};

use crate::cursor::Cursor;
use crate::listing_stop::ListingStop;
use crate::pieces::{behind, number_before};
use crate::said::{ClassSaid, MemberPlace, Sizes};
use abi_primary::Primary;
use abi_print::text::{append, append_class, append_number, append_subobject, append_value_type};
use cxx_hierarchy::{ClassId, FieldType, Hierarchy, Member};
use cxx_subobject::{Subobject, list_subobjects};
use foundation::{NoMemory, Sequence};
use std::alloc::Global;

/// What stands before the first number of a class's first line.
fn sizes_head(alloc: Global, h: &Hierarchy, c: ClassId) -> Result<Vec<u8>, NoMemory>
    ensures { IfOk result (λ text. text.items ≡ sizes_head h.now c) }
{
    let mut text = Vec::new(alloc);
    append(&mut text, b"class ")?;
    append_class(&mut text, h, c)?;
    append(&mut text, b" size ")?;
    Ok(text)
}

/// The five numbers of a class's first line, and what follows the line.
fn sizes_at<'a>(text: &'a [u8], head: &[u8]) -> Option<(Sizes, &'a [u8])>
    ensures { MatchOption result (HasNoSizes text.now head.now) (λ p. AreSizes text.now head.now p.0 p.1.now) }
{
    let rest = behind(text, head)?;
    let (size, rest) = number_before(rest, b" align ")?;
    let (align, rest) = number_before(rest, b" dsize ")?;
    let (dsize, rest) = number_before(rest, b" nvsize ")?;
    let (nvsize, rest) = number_before(rest, b" nvalign ")?;
    let (nvalign, rest) = number_before(rest, b"\n")?;
    let sizes = Sizes {
        size,
        align,
        dsize,
        nvsize,
        nvalign,
    };
    Some((sizes, rest))
}

/// Reads the line of a class's sizes.
fn read_sizes<'a>(
    alloc: Global,
    h: &Hierarchy,
    c: ClassId,
    start: Cursor<'a>,
) -> Result<(Sizes, Cursor<'a>), ListingStop>
    requires { HasRoomForLines start.line start.rest.now }
    ensures ok { IfOk result (λ p. AreSizesRead h.now c start.entry.rest.now p.0 p.1.rest.now × (p.1.line ≡ start.entry.line + 1)) }
    ensures err { IfErr result (StopsReading h.now (sizes_line c ∷ []) start.entry.rest.now start.entry.line) }
{
    let head = sizes_head(alloc, h, c)?;
    match sizes_at(start.rest, &head) {
        Some((sizes, rest)) => Ok((sizes, start.next(rest))),
        None => Err(start.refused()),
    }
}

/// The number of the first line feed, and the length of the text where it has none.
fn line_end(text: &[u8]) -> usize
    ensures within { result ≤ length text.now }
    ensures before { (k : ℕ) → k < result → slice_index text.now k ≡ 10 → ⊥ }
    ensures found { result < length text.now → slice_index text.now result ≡ 10 }
{
    for (n, b) in text.iter().enumerate() {
        if *b == b'\n' {
            return n;
        }
    }
    text.len()
}

/// The text up to the next line feed, and what follows that.
fn word_at(text: &[u8]) -> Option<(&[u8], &[u8])>
    ensures { MatchOption result (Contains text.now 10 → ⊥) (λ p. IsWord text.now p.0.now p.1.now) }
{
    let end = line_end(text);
    if end == text.len() {
        return None;
    }
    let (word, back) = text.split_at(end);
    Some((word, &back[1..]))
}

/// The primary base that a word says: none, a virtual base or a direct one.
fn primary_of(h: &Hierarchy, word: &[u8]) -> Option<Primary>
    requires { Contains word.now 10 → ⊥ }
    ensures { IsPrimaryWord h.now word.now result }
{
    if word == b"none".as_slice() {
        return Some(Primary::None);
    }
    match behind(word, b"virtual ") {
        Some(name) => match h.find(name) {
            Some(v) => Some(Primary::Virtual(v)),
            None => None,
        },
        None => match h.find(word) {
            Some(b) => Some(Primary::Direct(b)),
            None => None,
        },
    }
}

/// The primary base that a line says, and what follows the line.
fn primary_at<'a>(h: &Hierarchy, text: &'a [u8]) -> Option<(Primary, &'a [u8])>
    ensures { MatchOption result (IsNoLine h.now primary_line text.now) (λ p. IsPrimaryRead h.now text.now p.0 p.1.now) }
{
    let rest = behind(text, b"primary ")?;
    let (word, rest) = word_at(rest)?;
    let primary = primary_of(h, word)?;
    Some((primary, rest))
}

/// Reads the line of a class's primary base.
fn read_primary<'a>(h: &Hierarchy, start: Cursor<'a>) -> Result<(Primary, Cursor<'a>), ListingStop>
    requires { HasRoomForLines start.line start.rest.now }
    ensures ok { IfOk result (λ p. IsPrimaryRead h.now start.entry.rest.now p.0 p.1.rest.now × (p.1.line ≡ start.entry.line + 1)) }
    ensures err { IfErr result (StopsReading h.now (primary_line ∷ []) start.entry.rest.now start.entry.line) }
{
    match primary_at(h, start.rest) {
        Some((primary, rest)) => Ok((primary, start.next(rest))),
        None => Err(start.refused()),
    }
}

/// What stands behind the place in the line of a base subobject.
fn base_tail(alloc: Global, h: &Hierarchy, s: &Subobject) -> Result<Vec<u8>, NoMemory>
    ensures { IfOk result (λ text. text.items ≡ base_tail h.now s.now) }
{
    let mut text = Vec::new(alloc);
    append(&mut text, b" base ")?;
    append_subobject(&mut text, h, s)?;
    append(&mut text, b"\n")?;
    Ok(text)
}

/// Reads the lines of base subobjects: their places.
fn read_bases<'a>(
    alloc: Global,
    h: &Hierarchy,
    list: &[Subobject],
    start: Cursor<'a>,
) -> Result<(Sequence<u32>, Cursor<'a>), ListingStop>
    requires { HasRoomForLines start.line start.rest.now }
    ensures ok { IfOk result (λ p. AreBasesRead h.now list.now start.entry.rest.now p.0 p.1.rest.now × (p.1.line ≡ start.entry.line + length list.now)) }
    ensures err { IfErr result (StopsReading h.now (map base_line list.now) start.entry.rest.now start.entry.line) }
{
    let mut places = Sequence::new(alloc);
    let mut cursor = start;
    for s in list {
        let tail = base_tail(alloc, h, s)?;
        match number_before(cursor.rest, &tail) {
            Some((place, rest)) => {
                places.push(place)?;
                cursor = cursor.next(rest);
            }
            None => return Err(cursor.refused()),
        }
    }
    Ok((places, cursor))
}

/// Puts the type of a member or of its elements at the end.
fn append_type(text: &mut Vec<u8>, h: &Hierarchy, ty: &FieldType<ClassId>) -> Result<(), NoMemory>
    ensures { OnOk result (text.new.items ≡ text.old.items ++ type_text h.now ty.now) }
{
    match ty {
        FieldType::Value(ty) => append_value_type(text, h, ty)?,
        FieldType::Object(class) => append_class(text, h, *class)?,
    }
    Ok(())
}

/// Puts the length of an array at the end, and nothing for another member.
fn append_length(alloc: Global, text: &mut Vec<u8>, count: Option<u32>) -> Result<(), NoMemory>
    ensures { OnOk result (text.new.items ≡ text.old.items ++ length_text count) }
{
    match count {
        None => Ok(()),
        Some(count) => {
            append(text, b"[")?;
            append_number(alloc, text, count)?;
            append(text, b"]")?;
            Ok(())
        }
    }
}

/// Puts what a line has behind the place and the bits of a member at the end of a text.
fn append_declared(
    alloc: Global,
    text: &mut Vec<u8>,
    h: &Hierarchy,
    member: &Member<ClassId>,
) -> Result<(), NoMemory>
    ensures { OnOk result (text.new.items ≡ text.old.items ++ declared_text h.now member.now) }
{
    append(text, b" ")?;
    append_type(text, h, &member.ty)?;
    append_length(alloc, text, member.count)?;
    append(text, b" ")?;
    append(text, member.name.as_slice())?;
    append(text, b"\n")?;
    Ok(())
}

/// What stands behind the last number of a member's line: that of a bit-field begins with its width.
fn member_tail(alloc: Global, h: &Hierarchy, member: &Member<ClassId>) -> Result<Vec<u8>, NoMemory>
    ensures { IfOk result (λ text. text.items ≡ member_tail h.now member.now) }
{
    let mut text = Vec::new(alloc);
    match member.width {
        None => append(&mut text, b" field")?,
        Some(width) => {
            append(&mut text, b" ")?;
            append_number(alloc, &mut text, width)?;
        }
    }
    append_declared(alloc, &mut text, h, member)?;
    Ok(text)
}

/// The place and the first bit that the line of a bit-field says, and what follows the line.
fn bits_at<'a>(text: &'a [u8], tail: &[u8]) -> Option<(MemberPlace, &'a [u8])>
    requires { IsApart tail.now }
    ensures { MatchOption result (HasNoBits text.now tail.now) (λ p. AreBits text.now tail.now p.0 p.1.now) }
{
    let (place, rest) = number_before(text, b" bits ")?;
    let (first, rest) = number_before(rest, tail)?;
    Some((MemberPlace { place, first }, rest))
}

/// The place that the line of another member says, and what follows the line.
fn whole_at<'a>(text: &'a [u8], tail: &[u8]) -> Option<(MemberPlace, &'a [u8])>
    requires { IsApart tail.now }
    ensures { MatchOption result (HasNoneBefore text.now tail.now) (λ p. IsNumberBefore text.now tail.now p.0.place p.1.now × (p.0.first ≡ 0)) }
{
    let (place, rest) = number_before(text, tail)?;
    Some((MemberPlace { place, first: 0 }, rest))
}

/// The place that the line of a member says, a bit-field where it has a width, and what follows the line. `tail` is what stands behind
/// the last number.
fn member_at<'a>(text: &'a [u8], width: Option<u32>, tail: &[u8]) -> Option<(MemberPlace, &'a [u8])>
    requires { IsApart tail.now }
    ensures { MatchOption result (HasNoMember width text.now tail.now) (λ p. IsMember width text.now tail.now p.0 p.1.now) }
{
    match width {
        None => whole_at(text, tail),
        Some(_) => bits_at(text, tail),
    }
}

/// Reads the line of a member: its place.
fn read_member<'a>(
    alloc: Global,
    h: &Hierarchy,
    member: &Member<ClassId>,
    start: Cursor<'a>,
) -> Result<(MemberPlace, Cursor<'a>), ListingStop>
    requires { HasRoomForLines start.line start.rest.now }
    ensures ok { IfOk result (λ p. IsMemberRead h.now member.now start.entry.rest.now p.0 p.1.rest.now × (p.1.line ≡ start.entry.line + 1)) }
    ensures err { IfErr result (StopsReading h.now (member_line member.now ∷ []) start.entry.rest.now start.entry.line) }
{
    let tail = member_tail(alloc, h, member)?;
    match member_at(start.rest, member.width, &tail) {
        Some((place, rest)) => Ok((place, start.next(rest))),
        None => Err(start.refused()),
    }
}

/// Reads the lines of members: their places.
fn read_members<'a>(
    alloc: Global,
    h: &Hierarchy,
    members: &[Member<ClassId>],
    start: Cursor<'a>,
) -> Result<(Sequence<MemberPlace>, Cursor<'a>), ListingStop>
    requires { HasRoomForLines start.line start.rest.now }
    ensures ok { IfOk result (λ p. AreMembersRead h.now members.now start.entry.rest.now p.0 p.1.rest.now × (p.1.line ≡ start.entry.line + length members.now)) }
    ensures err { IfErr result (StopsReading h.now (map member_line members.now) start.entry.rest.now start.entry.line) }
{
    let mut places = Sequence::new(alloc);
    let mut cursor = start;
    for member in members {
        let (place, after) = read_member(alloc, h, member, cursor)?;
        places.push(place)?;
        cursor = after;
    }
    Ok((places, cursor))
}

/// All subobjects of a class but the whole, which stands first.
pub(crate) fn proper_of(list: &[Subobject]) -> &[Subobject]
    ensures { result.now ≡ proper list.now }
{
    match list {
        [_, bases @ ..] => bases,
        [] => list,
    }
}

/// Reads the lines of a class.
pub(crate) fn read_class<'a>(
    alloc: Global,
    h: &Hierarchy,
    c: ClassId,
    start: Cursor<'a>,
) -> Result<(ClassSaid, Cursor<'a>), ListingStop>
    requires known { c.0 < length h.now }
    requires room { HasRoomForLines start.line start.rest.now }
    ensures said { IfOk result (λ p. IsSaid h.now c start.entry.line p.0) }
    ensures lines { IfOk result (λ p. IsClassRead h.now c start.entry.rest.now p.0 p.1.rest.now) }
    ensures number { IfOk result (λ p. p.1.line ≡ start.entry.line + length (class_lines h.now c)) }
    ensures err { IfErr result (StopsReading h.now (class_lines h.now c) start.entry.rest.now start.entry.line) }
{
    h.keeps();
    let list = list_subobjects(alloc, h, c)?;
    let (sizes, cursor) = read_sizes(alloc, h, c, start)?;
    let (primary, cursor) = read_primary(h, cursor)?;
    let (places, cursor) = read_bases(alloc, h, proper_of(list.as_slice()), cursor)?;
    let (members, cursor) = read_members(alloc, h, h.class(c).members.as_slice(), cursor)?;
    let said = ClassSaid {
        line: start.line,
        sizes,
        primary,
        list,
        places,
        members,
    };
    Ok((said, cursor))
}
