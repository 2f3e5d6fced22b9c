//! Final overriders in a view (ISO C++03 10.3 p2, 12.7 p3).

ghost use Rattle.std.specs.Prelude.{◌≡◌, ◌<◌, Some, IfOk, length};
ghost use Rattle.cxx_hierarchy.specs.declared.records.ClassId.{ClassId};
ghost use Rattle.cxx_subobject.specs.Subobjects.{IsSubobject, class_of, join};
ghost use Rattle.cxx_subobject.specs.Inside.{IsInside};
ghost use Rattle.cxx_subobject.specs.Parts.{IsWithinLimits};
ghost use Rattle.cxx_overrider.specs.Overriders.{AreOverriders};
ghost use Rattle.cxx_search.specs.Searches.{final_in};
ghost use Rattle.path_numbers.specs.Numbers.{AreClassNumbers};
ghost use Rattle.path_tables.specs.Parts.{numbered_overrider};
ghost use Rattle.path_tables.specs.invariants.Calls.{IsVirtualCall};

use cxx_hierarchy::{ClassId, Hierarchy};
use cxx_overrider::{FunctionId, Overriders};
use cxx_subobject::{Root, Subobject, class_of, contains, is_longer, join, subobject_below};
use foundation::{NoMemory, Sequence};
use path_numbers::Numbers;
use std::alloc::Global;

/// The function that a call runs, and the number of its subobject within the complete object.
#[derive(Clone, Copy, Debug, PartialEq, Eq)]
pub struct FinalAt {
    pub at: u32,
    pub function: FunctionId,
}

/// A virtual function that is called on a subobject in a view, both of an object of class c.
#[derive(Clone, Copy)]
pub(crate) struct Call<'a> {
    pub h: &'a Hierarchy,
    pub c: ClassId,
    pub view: &'a Subobject,
    pub source: &'a Subobject,
    pub f: FunctionId,
}

/// What lies in a subobject of class d, as a subobject of d alone.
fn part_within(
    alloc: Global,
    h: &Hierarchy,
    c: ClassId,
    d: ClassId,
    x: &Subobject,
    y: &Subobject,
) -> Result<Subobject, NoMemory>
    requires x { IsSubobject h.now c x.now }
    requires y { IsSubobject h.now c y.now }
    requires class { class_of x.now ≡ Some d }
    requires inside { IsInside h.now x.now y.now }
    ensures { IfOk result (λ i. IsSubobject h.now d i × (join x.now i ≡ y.now)) }
{
    h.keeps();
    let front = x.path.as_slice();
    let whole = y.path.as_slice();
    if is_longer(x, y) {
        let below = &whole[front.len()..];
        let mut path = Vec::new(alloc);
        path.push(d)?;
        path.extend_from_slice(below)?;
        Ok(Subobject {
            root: Root::Whole,
            path: Sequence::from_vec(path),
        })
    } else {
        subobject_below(alloc, y, &[])
    }
}

/// The final overrider of the function of a call. None: the source does not lie in the view.
pub(crate) fn final_at(
    alloc: Global,
    o: &Overriders,
    numbers: &Numbers,
    call: &Call,
) -> Result<Option<FinalAt>, NoMemory>
    requires limits { (d : ClassId) → d.0 < length call.now.h.now → IsWithinLimits call.now.h.now d }
    requires overriders { AreOverriders call.now.h.now o.now }
    requires numbers { AreClassNumbers call.now.h.now numbers.now }
    requires call { IsVirtualCall call.now.h.now call.now.c call.now.view.now call.now.source.now call.now.f }
    ensures { IfOk result (λ answer. answer ≡ numbered_overrider call.now.h.now call.now.c (final_in call.now.h.now call.now.view.now call.now.source.now call.now.f)) }
{
    call.h.keeps();
    if !contains(call.h, call.c, call.view, call.source) {
        return Ok(None);
    }
    let d = match class_of(call.view) {
        Some(d) => d,
        // never met: the view is a subobject, by the clause `call`, and each has a class
        None => return Ok(None),
    };
    let inner = part_within(alloc, call.h, call.c, d, call.view, call.source)?;
    let overrider = o.final_overrider(call.h, d, &inner, call.f)?;
    let at = join(alloc, call.h, call.c, call.view, &overrider.at)?;
    Ok(Some(FinalAt {
        at: numbers.number_in(call.h, call.c, &at),
        function: overrider.function,
    }))
}
