//! The words of type information.

ghost use Rattle.std.specs.Prelude.{◌≡◌, ◌<◌, ◌≤◌, ◌+◌, ◌*◌, ◌^◌, ℕ, Some, IfOk, OnOk, length, map, slice_get};
ghost use Rattle.abi_slots.specs.declared.words.InfoBase.{InfoBase};
ghost use Rattle.abi_slots.specs.Images.{HasBaseWords, HasInfo, info_bases, info_flags};
ghost use Rattle.abi_image.specs.Conditions.{AreKnownBases, AreKnownInfos};
ghost use Rattle.abi_image.specs.declared.TheConstants.{BASE};
ghost use Rattle.abi_image.specs.invariants.Drafts.{AllBySize, Puts, HasBasesAt, HasHead, HasWordRoom, class_address, first_base_address, info_size, sum_of_sizes};
ghost use Rattle.cxx_hierarchy.specs.Classes.{class_by_number};

use crate::BASE;
use crate::draft::Draft;
use crate::numbers::word_of;
use crate::regions::{base_count, behind};
use abi_slots::{InfoBase, TypeInfo};
use foundation::NoMemory;

/// The flags of a class.
fn info_flags(info: &TypeInfo) -> u32
    ensures { result ≡ info_flags info.now }
{
    match info {
        TypeInfo::Plain => 0,
        TypeInfo::Single(_) => 0,
        TypeInfo::Many(flags, _) => *flags,
    }
}

/// Puts the two words of a base behind others.
fn push_base(draft: &mut Draft, infos: &[u64], base: &InfoBase) -> Result<(), NoMemory>
    requires { base.now.class.0 < length infos.now }
    ensures { OnOk result (Puts draft.old draft.new 2 (λ image at. HasBaseWords image (class_address infos.now) base.now at)) }
{
    draft.push(infos[base.class.0 as usize])?;
    draft.push(word_of(base.offset_flags))?;
    Ok(())
}

/// Puts the words of bases behind others.
fn push_base_list(draft: &mut Draft, infos: &[u64], bases: &[InfoBase]) -> Result<(), NoMemory>
    requires { AreKnownBases (length infos.now) bases.now }
    ensures { OnOk result (Puts draft.old draft.new (2 * length bases.now) (λ image at. HasBasesAt image (class_address infos.now) bases.now at)) }
{
    for base in bases {
        push_base(draft, infos, base)?;
    }
    Ok(())
}

/// Puts the words of the bases of a class behind others.
fn push_bases(draft: &mut Draft, infos: &[u64], info: &TypeInfo) -> Result<(), NoMemory>
    requires { AreKnownBases (length infos.now) (info_bases info.now) }
    ensures { OnOk result (Puts draft.old draft.new (2 * length (info_bases info.now)) (λ image at. HasBasesAt image (class_address infos.now) (info_bases info.now) at)) }
{
    match info {
        TypeInfo::Plain => push_base_list(draft, infos, &[])?,
        TypeInfo::Single(class) => {
            let base = InfoBase {
                class: *class,
                offset_flags: 2,
            };
            push_base_list(draft, infos, &[base])?;
        }
        TypeInfo::Many(_, bases) => push_base_list(draft, infos, bases.as_slice())?,
    }
    Ok(())
}

/// The address behind the four words of a record that stands at an address, or 0 where no base stands there.
fn first_base(at: u64, bases: usize) -> u64
    requires { at + 32 < 2 ^ 64 }
    ensures { result ≡ first_base_address at bases }
{
    if bases == 0 { 0 } else { behind(at, 4) }
}

/// Puts the four words of a class's record behind others.
fn push_head(draft: &mut Draft, c: u32, info: &TypeInfo) -> Result<(), NoMemory>
    requires few { length (info_bases info.now) < 2 ^ 32 }
    requires room { HasWordRoom draft.old 4 }
    ensures { OnOk result (Puts draft.old draft.new 4 (λ image at. HasHead image (class_by_number c) info.now at)) }
{
    let at = behind(BASE, draft.words.len());
    let bases = base_count(info);
    let first = first_base(at, bases);
    draft.push(c as u64)?;
    draft.push(info_flags(info) as u64)?;
    draft.push(bases as u64)?;
    draft.push(first)?;
    Ok(())
}

/// Puts the record of a class and its bases behind others.
fn push_info(draft: &mut Draft, infos: &[u64], c: u32, info: &TypeInfo) -> Result<(), NoMemory>
    requires bases { AreKnownBases (length infos.now) (info_bases info.now) }
    requires few { info_size info.now < 2 ^ 32 }
    requires room { HasWordRoom draft.old (info_size info.now) }
    ensures { OnOk result (Puts draft.old draft.new (info_size info.now) (λ image at. HasInfo image (class_address infos.now) (class_by_number c) info.now at)) }
{
    push_head(draft, c, info)?;
    push_bases(draft, infos, info)?;
    Ok(())
}

/// Puts the records of all classes behind others, each with its bases.
///
/// Errors: want of memory.
pub fn push_infos(draft: &mut Draft, infos_at: &[u64], infos: &[TypeInfo]) -> Result<(), NoMemory>
    requires bases { AreKnownInfos (length infos_at.now) infos.now }
    requires few { sum_of_sizes (map info_size infos.now) < 2 ^ 32 }
    requires room { HasWordRoom draft.old (sum_of_sizes (map info_size infos.now)) }
    ensures { OnOk result (Puts draft.old draft.new (sum_of_sizes (map info_size infos.now)) (λ image at. AllBySize info_size (λ c info there. HasInfo image (class_address infos_at.now) (class_by_number c) info there) infos.now at)) }
{
    for (c, info) in infos.iter().enumerate() {
        push_info(draft, infos_at, c as u32, info)?;
    }
    Ok(())
}
