//! What the ops of plans are found by.

use crate::class_tables::ClassTables;
use abi_slots::{CodeNumbers, Slots};
use code_ops::routines::Course;
use cxx_hierarchy::{ClassId, Hierarchy};
use cxx_program::TypedProgram;
use path_bodies::BodyIndex;
use path_plan::Form;
use std::alloc::Global;

/// The classes with their layout, their words and tables, the program with the places of its bodies, and the numbers of code.
#[derive(Drop)]
pub struct PlanSite<'a, L> {
    pub alloc: Global,
    pub h: &'a Hierarchy,
    pub layout: &'a L,
    pub slots: &'a Slots,
    pub numbers: &'a CodeNumbers,
    pub program: &'a TypedProgram,
    pub index: &'a BodyIndex,
    pub tables: &'a ClassTables,
}

/// A plan: its course, its form, and the class of its part.
#[derive(Clone, Copy)]
pub struct ClassPlan {
    pub course: Course,
    pub form: Form,
    pub class: ClassId,
}
