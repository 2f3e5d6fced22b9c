//! Address points.

ghost use Rattle.std.specs.Prelude.{◌≡◌, ◌<◌, ◌+◌, ◌*◌, ◌^◌, ◌++◌, ℕ, IfOk, List, OnOk, length};
ghost use Rattle.abi_slots.specs.Images.{all_words, point_at};
ghost use Rattle.abi_image.specs.Encoded.{points_from, points_of};
ghost use Rattle.abi_image.specs.invariants.Drafts.{address_in};
ghost use Rattle.abi_image.specs.invariants.Points.{ArePointsOf, AreGroupPoints, HaveGroupRoom};

use crate::image::{Point, PointList};
use crate::regions::behind;
use abi_slots::{Group, GroupName, Table};
use cxx_subobject::subobject_below;
use foundation::{NoMemory, Sequence};
use std::alloc::Global;

/// Addresses, in order.
pub type AddressList = Sequence<u64>;

/// The address points of tables that stand one after the other from an address on.
fn points_of_tables(alloc: Global, at: u64, tables: &[Table]) -> Result<AddressList, NoMemory>
    requires { at + 8 * length (all_words tables.now) < 2 ^ 63 }
    ensures { IfOk result (ArePointsOf at tables.now) }
{
    let mut points = Sequence::new(alloc);
    let mut here = at;
    for table in tables {
        points.push(behind(here, table.before as usize))?;
        here = behind(here, table.words.len());
    }
    Ok(points)
}

/// The address points of the tables of each group.
pub fn points_of_groups(
    alloc: Global,
    groups: &[Group],
    group_at: &[u64],
) -> Result<Vec<AddressList>, NoMemory>
    requires size { length group_at.now ≡ length groups.now }
    requires room { HaveGroupRoom groups.now group_at.now }
    ensures { IfOk result (λ points. AreGroupPoints groups.now group_at.now points.items) }
{
    let mut points = Vec::new(alloc);
    for (i, group) in groups.iter().enumerate() {
        points.push(points_of_tables(alloc, group_at[i], group.tables.as_slice())?)?;
    }
    Ok(points)
}

/// The name of a group once more.
fn copy_name(alloc: Global, name: &GroupName) -> Result<GroupName, NoMemory>
    ensures { IfOk result (λ copy. copy ≡ name.now) }
{
    Ok(GroupName {
        complete: name.complete,
        view: subobject_below(alloc, &name.view, &[])?,
    })
}

/// Puts the address points of a group behind others.
fn push_points(
    alloc: Global,
    points: &mut PointList,
    addresses: &[u64],
    group: &Group,
) -> Result<(), NoMemory>
    ensures { OnOk result ((at : ℕ) → ArePointsOf at group.now.tables addresses.now → points.new ≡ points.old ++ points_from at group.now 0 group.now.tables) }
{
    for (table, address) in addresses.iter().enumerate() {
        points.push(Point {
            address: *address,
            group: copy_name(alloc, &group.name)?,
            table,
        })?;
    }
    Ok(())
}

/// The address points of all tables, in order.
///
/// Errors: want of memory.
pub fn list_points(
    alloc: Global,
    groups: &[Group],
    points: &[AddressList],
) -> Result<PointList, NoMemory>
    requires { length points.now ≡ length groups.now }
    ensures { IfOk result (λ list. (group_at : List ℕ) → AreGroupPoints groups.now group_at points.now → list ≡ points_of (address_in group_at) 0 groups.now) }
{
    let mut list = Sequence::new(alloc);
    for (i, group) in groups.iter().enumerate() {
        push_points(alloc, &mut list, points[i].as_slice(), group)?;
    }
    Ok(list)
}
