//! The image.

use abi_slots::GroupName;
use byte_code::ImageBytes;
use foundation::Sequence;

/// The address point of a table: its address, the name of the group, and the number of the table in it, from 0.
#[derive(Debug, Drop)]
pub struct Point {
    pub address: u64,
    pub group: GroupName,
    pub table: usize,
}

/// Address points, in the order of the groups and of their tables.
pub type PointList = Sequence<Point>;

/// The bytes of all tables, and where the address points are.
#[derive(Debug, Drop)]
pub struct Image {
    pub bytes: ImageBytes,
    pub points: PointList,
}
