//! Where the parts of an image stand, and what stands there.

ghost use Rattle.std.specs.Prelude.{◌≡◌, ◌<◌, ◌^◌, IfOk, length};
ghost use Rattle.abi_image.specs.Conditions.{AllNameTables, AreKnownGroups, AreKnownInfos, HaveOwnNames, words_in_image};
ghost use Rattle.abi_image.specs.invariants.Parts.{AreImageParts, IsDraftOf};

use crate::BASE;
use crate::directory::{first_points, push_directory};
use crate::draft::Draft;
use crate::infos::push_infos;
use crate::regions::{Region, behind, group_sizes, info_sizes, region_of, vtt_sizes};
use crate::table_words::push_groups;
use crate::vtts::{GroupPlaces, group_places, push_vtts};
use abi_slots::{CodeNumbers, Group, TypeInfo, VttList};
use foundation::NoMemory;
use std::alloc::Global;

/// Where groups, VTTs and the records of classes stand, in this order behind the directory, and the first address point of the own
/// group of each class, 0 where it has none.
#[derive(Drop)]
pub struct Parts {
    pub groups: GroupPlaces,
    pub vtts: Region,
    pub infos: Region,
    pub firsts: Vec<u64>,
}

/// Where all parts stand.
///
/// Errors: want of memory.
pub fn parts_of(
    alloc: Global,
    groups: &[Group],
    vtts: &[VttList],
    infos: &[TypeInfo],
) -> Result<Parts, NoMemory>
    requires items { length vtts.now ≡ length infos.now }
    requires few { words_in_image groups.now vtts.now infos.now < 2 ^ 32 }
    ensures { IfOk result (AreImageParts groups.now vtts.now infos.now) }
{
    let half = behind(BASE, vtts.len());
    let start = behind(half, vtts.len());
    let group_region = region_of(alloc, start, &group_sizes(alloc, groups)?)?;
    let vtt_region = region_of(alloc, group_region.end, &vtt_sizes(alloc, vtts)?)?;
    let info_region = region_of(alloc, vtt_region.end, &info_sizes(alloc, infos)?)?;
    let places = group_places(alloc, groups, group_region.at)?;
    let firsts = first_points(alloc, groups, &places, vtts.len())?;
    Ok(Parts {
        groups: places,
        vtts: vtt_region,
        infos: info_region,
        firsts,
    })
}

/// The words of all parts, and of the records behind them.
///
/// Errors: want of memory.
pub fn draft_of(
    alloc: Global,
    groups: &[Group],
    vtts: &[VttList],
    infos: &[TypeInfo],
    codes: &CodeNumbers,
    parts: &Parts,
) -> Result<Draft, NoMemory>
    requires items { length vtts.now ≡ length infos.now }
    requires names { HaveOwnNames groups.now }
    requires tables { AllNameTables groups.now vtts.now }
    requires groups { AreKnownGroups codes.now (length infos.now) groups.now }
    requires infos { AreKnownInfos (length infos.now) infos.now }
    requires few { words_in_image groups.now vtts.now infos.now < 2 ^ 32 }
    requires parts { AreImageParts groups.now vtts.now infos.now parts.now }
    ensures { IfOk result (IsDraftOf codes.now groups.now vtts.now infos.now parts.now) }
{
    let mut draft = Draft {
        words: Vec::new(alloc),
        records: Vec::new(alloc),
        records_at: parts.infos.end,
    };
    push_directory(&mut draft, &parts.firsts, vtts, &parts.vtts.at)?;
    push_groups(&mut draft, codes, &parts.infos.at, groups)?;
    push_vtts(&mut draft, groups, &parts.groups, vtts)?;
    push_infos(&mut draft, &parts.infos.at, infos)?;
    Ok(draft)
}
