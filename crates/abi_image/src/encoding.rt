//! The image of all tables.

ghost use Rattle.std.specs.Prelude.{◌≡◌, ◌<◌, ◌^◌, IfOk, length};
ghost use Rattle.abi_image.specs.Conditions.{AllNameTables, AreKnownGroups, AreKnownInfos, HaveOwnNames, words_in_image};
ghost use Rattle.abi_image.specs.Encoded.{IsImage};

use crate::bytes::bytes_of;
use crate::image::Image;
use crate::parts::{draft_of, parts_of};
use crate::points::list_points;
use abi_slots::{CodeNumbers, Group, TypeInfo, VttList};
use foundation::NoMemory;
use std::alloc::Global;

/// The image of groups, VTTs and type information, where entries run code of these numbers. The VTTs and the type information are
/// those of the classes in order, and the VTT of a class without one is empty.
///
/// Errors: want of memory.
pub fn encode(
    alloc: Global,
    groups: &[Group],
    vtts: &[VttList],
    infos: &[TypeInfo],
    codes: &CodeNumbers,
) -> Result<Image, NoMemory>
    requires items { length vtts.now ≡ length infos.now }
    requires names { HaveOwnNames groups.now }
    requires tables { AllNameTables groups.now vtts.now }
    requires groups { AreKnownGroups codes.now (length infos.now) groups.now }
    requires infos { AreKnownInfos (length infos.now) infos.now }
    requires few { words_in_image groups.now vtts.now infos.now < 2 ^ 32 }
    ensures { IfOk result (IsImage codes.now groups.now vtts.now infos.now) }
{
    let parts = parts_of(alloc, groups, vtts, infos)?;
    let draft = draft_of(alloc, groups, vtts, infos, codes, &parts)?;
    let points = list_points(alloc, groups, &parts.groups.points)?;
    let bytes = bytes_of(alloc, &draft)?;
    Ok(Image { bytes, points })
}
