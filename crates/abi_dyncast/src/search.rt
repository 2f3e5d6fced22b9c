//! The search for one part of a view.

ghost use Rattle.std.specs.Prelude.{◌≡◌, false, true};
ghost use Rattle.byte_code.specs.Images.{word_at};
ghost use Rattle.byte_code.specs.Readers.{image_of};
ghost use Rattle.abi_dyncast.specs.Graph.{graph_of};
ghost use Rattle.abi_dyncast.specs.invariants.Direct.{LeadsDirectly};
ghost use Rattle.abi_dyncast.specs.invariants.Searches.{MayBeginSearch, MayDescend, LeadsOnlyTo, Searched, TellsOfSource};

use crate::parts::{TypedPart, edge_at, is_virtual, moved, offset_word};
use crate::walk::is_source;
use crate::work::{Found, Goal, WorkList};
use byte_code::{BaseReader, ImageBytes};
use byte_memory::Memory;

/// That nothing was found.
fn nothing() -> Found
    ensures { result ≡ record { source = false; public_source = false; public_target = false } }
{
    Found {
        source: false,
        public_source: false,
        public_target: false,
    }
}

/// The part to which the edges from a part lead, as long as the class has one base, which is not virtual, and a number above that
/// of the source's. No other way leads on from the parts between, so that none of them is put into the work list.
fn descend<M: Memory>(
    reader: &mut BaseReader<'_>,
    _memory: &M,
    goal: Goal,
    part: TypedPart,
) -> TypedPart
    requires { MayDescend (word_at (image_of reader.old)) (M.meaning _memory.now) part }
    ensures down { LeadsOnlyTo (graph_of (word_at (image_of reader.old)) (M.meaning _memory.now)) goal part result }
    ensures image { image_of reader.new ≡ image_of reader.old }
{
    let info = reader.info(part.info);
    if info.class <= goal.class {
        return part;
    }
    if info.bases != 1 {
        return part;
    }
    let base = reader.base(&info, 0);
    if is_virtual(base) {
        return part;
    }
    let next = TypedPart {
        at: moved(part.at, offset_word(base)),
        info: base.info,
    };
    let low = descend(reader, _memory, goal, next);
    low
}

/// Whether the source is a part or lies below it, by any edges. The search ends where it is found. A part below which it does not
/// lie is put into the work list, so that no edge is passed twice.
///
/// The numbers of classes fall along edges: the source does not lie below a part whose number is at most its own.
pub(crate) fn leads_to_source<M: Memory>(
    reader: &mut BaseReader<'_>,
    memory: &M,
    work: &mut WorkList,
    goal: Goal,
    part: TypedPart,
) -> bool
    requires { MayBeginSearch (word_at (image_of reader.old)) (M.meaning memory.now) goal work.old.parts work.old.entries.items part }
    ensures tells { TellsOfSource (graph_of (word_at (image_of reader.old)) (M.meaning memory.now)) goal part result }
    ensures searched { Searched (graph_of (word_at (image_of reader.old)) (M.meaning memory.now)) goal part work.old.entries.items work.new.entries.items }
    ensures image { image_of reader.new ≡ image_of reader.old }
    ensures parts { work.new.parts ≡ work.old.parts }
{
    let info = reader.info(part.info);
    if info.class <= goal.class {
        return is_source(goal, part.at, info.class);
    }
    if let Some(_) = work.find(part) {
        return false;
    }
    let low = descend(reader, memory, goal, part);
    if low.info != part.info {
        let far = leads_to_source(reader, memory, work, goal, low);
        if !far {
            work.add(part, info.class, nothing());
        }
        return far;
    }
    for number in 0..info.bases {
        let way = edge_at(reader, memory, part, info, number);
        let below = leads_to_source(reader, memory, work, goal, way.part);
        if below {
            return true;
        }
    }
    work.add(part, info.class, nothing());
    false
}

/// Whether bases that are not virtual lead from a part to the source. Nothing of the memory is read, and no part is met twice.
pub(crate) fn leads_directly<M: Memory>(
    image: &ImageBytes,
    _memory: &M,
    goal: Goal,
    part: TypedPart,
) -> bool
    requires { MayDescend (word_at image.now) (M.meaning _memory.now) part }
    ensures { result ≡ true → LeadsDirectly (word_at image.now) goal part }
{
    let info = image.info(part.info);
    if info.class <= goal.class {
        return is_source(goal, part.at, info.class);
    }
    for number in 0..info.bases {
        let base = image.base(info.first + 16 * number as u64);
        if !is_virtual(base) {
            let next = TypedPart {
                at: moved(part.at, offset_word(base)),
                info: base.info,
            };
            let found = leads_directly(image, _memory, goal, next);
            if found {
                return found;
            }
        }
    }
    false
}
