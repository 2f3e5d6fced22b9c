//! The blocks of the plans of classes.

ghost use Rattle.std.specs.Prelude.{◌≡◌, ◌<◌, ◌++◌, IfOk, OnOk, length};
ghost use Rattle.std.specs.List.{flat_map};
ghost use Rattle.code_ops.specs.Setups.{PlanCode};
ghost use Rattle.code_ops.specs.Routines.{IsRoutine};
ghost use Rattle.code_blocks.specs.Blocks.{items};
ghost use Rattle.code_plans.specs.Settings.{ArePointers};
ghost use Rattle.abi_lower.specs.invariants.Numbers.{class_ids};
ghost use Rattle.abi_lower.specs.invariants.Runs.{routine_blocks as run_of, class_blocks};
ghost use Rattle.abi_lower.specs.invariants.Lowerings.{IsBlockSite, IsPlanRun, block_setup, plan_code, plan_items};

use crate::block_sites::BlockSite;
use crate::counts::count_own;
use crate::plan_blocks::{PlanRun, end_of_body, push_events};
use crate::routines::{Routine, owner};
use abi_sound::SoundLayout;
use byte_code::BlockList;
use code_blocks::items::Item;
use code_ops::routines::Course;
use code_plans::{ClassPlan, ClassPointers, PlanSite};
use cxx_hierarchy::ClassId;
use foundation::NoMemory;
use path_plan::Form;

impl<'a, L: SoundLayout> BlockSite<'a, L> {
    /// How the virtual pointers of a class are set, for all its plans.
    ///
    /// Errors: want of memory.
    fn pointers(&self, c: ClassId) -> Result<ClassPointers, NoMemory>
        requires site { IsBlockSite L.lays_out L.rows self.now }
        requires known { c.0 < length self.now.lowering.now.h.now }
        ensures { IfOk result (ArePointers (block_setup L.rows self.now) c) }
    {
        let site = PlanSite {
            alloc: self.lowering.alloc,
            h: self.lowering.h,
            layout: self.lowering.layout,
            slots: self.lowering.slots,
            numbers: self.numbers,
            program: self.lowering.program,
            index: self.lowering.index,
            tables: self.tables,
        };
        let pointers = ClassPointers::new(&site, c)?;
        Ok(pointers)
    }

    /// Puts the blocks of a plan with these items behind others.
    fn push_plan_run(
        &self,
        blocks: &mut BlockList,
        pointers: &ClassPointers,
        run: PlanRun,
        all: &[Item],
    ) -> Result<(), NoMemory>
        requires site { IsBlockSite L.lays_out L.rows self.now }
        requires pointers { ArePointers (block_setup L.rows self.now) run.plan.class pointers.now }
        requires routine { IsRoutine (block_setup L.rows self.now) (plan_code run.plan) }
        requires run { IsPlanRun (block_setup L.rows self.now) self.now.numbers.now run }
        requires items { all.now ≡ plan_items (block_setup L.rows self.now) run.plan }
        ensures { OnOk result (blocks.new ≡ blocks.old ++ run_of (block_setup L.rows self.now) (plan_code run.plan)) }
    {
        let site = PlanSite {
            alloc: self.lowering.alloc,
            h: self.lowering.h,
            layout: self.lowering.layout,
            slots: self.lowering.slots,
            numbers: self.numbers,
            program: self.lowering.program,
            index: self.lowering.index,
            tables: self.tables,
        };
        push_events(blocks, &site, pointers, run, all)?;
        let r = Routine::Plan(run.plan.course, run.plan.form, run.plan.class);
        match self.lowering.body(r) {
            None => Ok(()),
            Some(body) => {
                let end = end_of_body(&site, pointers, run, all)?;
                self.push_body(blocks, body, run.first + run.own, end)?;
                Ok(())
            }
        }
    }

    /// Puts the blocks of a plan behind others.
    fn push_plan(
        &self,
        blocks: &mut BlockList,
        pointers: &ClassPointers,
        course: Course,
        form: Form,
        class: ClassId,
    ) -> Result<(), NoMemory>
        requires site { IsBlockSite L.lays_out L.rows self.now }
        requires pointers { ArePointers (block_setup L.rows self.now) class pointers.now }
        requires routine { IsRoutine (block_setup L.rows self.now) (PlanCode course form class) }
        ensures { OnOk result (blocks.new ≡ blocks.old ++ run_of (block_setup L.rows self.now) (PlanCode course form class)) }
    {
        let r = Routine::Plan(course, form, class);
        let all = self.lowering.items(course, form, class)?;
        let has_body = self.lowering.index.has_body(owner(r));
        let run = PlanRun {
            plan: ClassPlan {
                course,
                form,
                class,
            },
            first: self.lowering.first_block(self.numbers, r),
            own: count_own(has_body, all.as_slice()) as u32,
            has_body,
        };
        self.push_plan_run(blocks, pointers, run, all.as_slice())?;
        Ok(())
    }

    /// Puts the blocks of all plans of a class behind others: by which a complete object and a base are constructed, by which both are destroyed, and
    /// by which an object is deleted. Its virtual pointers are found once.
    fn push_class(&self, blocks: &mut BlockList, c: ClassId) -> Result<(), NoMemory>
        requires site { IsBlockSite L.lays_out L.rows self.now }
        requires known { c.0 < length self.now.lowering.now.h.now }
        ensures { OnOk result (blocks.new ≡ blocks.old ++ class_blocks (block_setup L.rows self.now) c) }
    {
        let pointers = self.pointers(c)?;
        self.push_plan(blocks, &pointers, Course::Constructs, Form::InFull, c)?;
        self.push_plan(blocks, &pointers, Course::Constructs, Form::AsBase, c)?;
        self.push_plan(blocks, &pointers, Course::Destroys, Form::InFull, c)?;
        self.push_plan(blocks, &pointers, Course::Destroys, Form::AsBase, c)?;
        self.push_plan(blocks, &pointers, Course::Deletes, Form::InFull, c)?;
        Ok(())
    }

    /// Puts the blocks of the plans of all classes behind others.
    ///
    /// Errors: want of memory.
    pub(crate) fn push_classes(&self, blocks: &mut BlockList) -> Result<(), NoMemory>
        requires site { IsBlockSite L.lays_out L.rows self.now }
        ensures { OnOk result (blocks.new ≡ blocks.old ++ flat_map (class_blocks (block_setup L.rows self.now)) (class_ids (length self.now.lowering.now.h.now))) }
    {
        for n in 0..self.lowering.h.len() {
            self.push_class(blocks, ClassId(n))?;
        }
        Ok(())
    }
}
