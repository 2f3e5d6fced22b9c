//! The walk over the parts of a view.

ghost use Rattle.std.specs.Prelude.{◌≡◌, true};
ghost use Rattle.byte_code.specs.Images.{word_at};
ghost use Rattle.byte_code.specs.Readers.{image_of, visits_of};
ghost use Rattle.byte_code.specs.Records.{IsInfoAt};
ghost use Rattle.abi_dyncast.specs.Graph.{graph_of, info_at};
ghost use Rattle.abi_dyncast.specs.invariants.Finding.{is_source, found_itself, found_with_base, IsToldAlready, TellsBelow};
ghost use Rattle.abi_dyncast.specs.invariants.Walks.{MayBeginWalk, Visited, HasRead};

use crate::parts::{TypedPart, edge_at};
use crate::work::{Found, Goal, WorkList};
use byte_code::BaseReader;
use byte_memory::Memory;

/// Whether a part of a class at an address is the source.
pub(crate) fn is_source(goal: Goal, at: u64, class: u32) -> bool
    ensures { result ≡ is_source goal at class }
{
    at == goal.at && class == goal.class
}

/// What a part of a class at an address tells by itself.
fn found_at(goal: Goal, at: u64, class: u32) -> Found
    ensures { result ≡ found_itself goal at class }
{
    let source = is_source(goal, at, class);
    Found {
        source,
        public_source: source,
        public_target: class == goal.target,
    }
}

/// What a part tells, with what one of its bases tells.
fn joined(own: Found, below: Found, is_public: bool) -> Found
    ensures { result ≡ found_with_base own below is_public }
{
    Found {
        source: own.source || below.source,
        public_source: own.public_source || is_public && below.public_source,
        public_target: own.public_target || is_public && below.public_target,
    }
}

/// Whether what lies below a base tells nothing more of a part: the source was found, by public edges too, and the number of the
/// class of the base is below that of the target class. The numbers of classes fall along edges.
fn is_told(reader: &BaseReader<'_>, goal: Goal, found: Found, base: TypedPart) -> bool
    requires { IsInfoAt (word_at (image_of reader.now)) base.info (info_at (word_at (image_of reader.now)) base.info) }
    ensures { result ≡ true → IsToldAlready goal found (info_at (word_at (image_of reader.now)) base.info).class }
{
    if found.source && found.public_source {
        let info = reader.info(base.info);
        return info.class < goal.target;
    }
    false
}

/// Visits a part and the parts below it that were not met before, bases first, and says what was found there. Those that tell
/// nothing more are left out; none of them is of the target class. The record of each edge of a visited part is read once.
pub(crate) fn visit<M: Memory>(
    reader: &mut BaseReader<'_>,
    memory: &M,
    work: &mut WorkList,
    goal: Goal,
    part: TypedPart,
) -> Found
    requires { MayBeginWalk (word_at (image_of reader.old)) (M.meaning memory.now) goal work.old.parts work.old.entries.items part }
    ensures tells { TellsBelow (graph_of (word_at (image_of reader.old)) (M.meaning memory.now)) goal part result }
    ensures visited { Visited (graph_of (word_at (image_of reader.old)) (M.meaning memory.now)) goal part work.old.entries.items work.new.entries.items }
    ensures read { HasRead (graph_of (word_at (image_of reader.old)) (M.meaning memory.now)) work.old.entries.items work.new.entries.items (visits_of reader.old) (visits_of reader.new) }
    ensures image { image_of reader.new ≡ image_of reader.old }
    ensures parts { work.new.parts ≡ work.old.parts }
{
    if let Some(entry) = work.find(part) {
        return entry.found;
    }
    let info = reader.info(part.info);
    let mut found = found_at(goal, part.at, info.class);
    for number in 0..info.bases {
        let way = edge_at(reader, memory, part, info, number);
        if is_told(reader, goal, found, way.part) {
            continue;
        }
        let below = visit(reader, memory, work, goal, way.part);
        found = joined(found, below, way.is_public);
    }
    work.add(part, info.class, found);
    found
}
