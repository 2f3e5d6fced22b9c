//! The answers: where a cast leads, and whether a part lies in a view.

ghost use Rattle.std.specs.Prelude.{◌≡◌, ◌+◌, ◌-◌, ◌*◌, ◌<◌, ◌^◌, true, false, IsSome};
ghost use Rattle.byte_code.specs.Images.{word_at};
ghost use Rattle.byte_code.specs.Readers.{image_of, visits_of};
ghost use Rattle.byte_code.specs.Records.{IsTableWord};
ghost use Rattle.abi_dyncast.specs.Graph.{graph_of, pointer_at};
ghost use Rattle.abi_dyncast.specs.Casts.{room, view_at_address, CanCast, CanCastHinted, CastsTo, CountsVisits, CanTellWithin, TellsWithin};
ghost use Rattle.abi_dyncast.specs.invariants.Deciding.{is_candidate, only_candidate, decide_by};
ghost use Rattle.abi_dyncast.specs.invariants.Hinting.{is_at_hint};
ghost use Rattle.abi_dyncast.specs.invariants.Walks.{ReadsAtMost};

use crate::parts::{TypedPart, moved, pointer, table_word, word};
use crate::search::leads_to_source;
use crate::walk::visit;
use crate::work::{Entry, Found, Goal, WorkList};
use byte_code::{BaseReader, ImageBytes};
use byte_memory::Memory;

/// Whether an entry is of the target class and, where `over`, the source lies in it.
fn is_candidate(entry: Entry, target: u32, over: bool) -> bool
    ensures { result ≡ is_candidate target over entry }
{
    entry.class == target && (entry.found.source || !over)
}

/// The one entry that is a candidate, where there is exactly one.
fn only_candidate(entries: &[Entry], target: u32, over: bool) -> Option<Entry>
    ensures { result ≡ only_candidate entries.now target over }
{
    let mut only: Option<Entry> = None;
    for entry in entries {
        if is_candidate(*entry, target, over) {
            if only.is_some() {
                return None;
            }
            only = Some(*entry);
        }
    }
    only
}

/// The answer by the entries of a view, and by what the view tells.
fn decide(entries: &[Entry], target: u32, found: Found) -> Option<TypedPart>
    ensures { result ≡ decide_by (only_candidate entries.now target true) (only_candidate entries.now target false) found }
{
    if let Some(entry) = only_candidate(entries, target, true) {
        if entry.found.public_source {
            return Some(entry.part);
        }
    }
    match only_candidate(entries, target, false) {
        None => None,
        Some(entry) => {
            if found.public_source && found.public_target {
                Some(entry.part)
            } else {
                None
            }
        }
    }
}

/// The view that the virtual pointer at an address leads to.
fn view_from<M: Memory>(reader: &BaseReader<'_>, memory: &M, at: u64) -> TypedPart
    requires top { IsSome (word_at (image_of reader.now) (pointer_at (M.meaning memory.now) at - 16)) }
    requires info { IsSome (word_at (image_of reader.now) (pointer_at (M.meaning memory.now) at - 8)) }
    requires top_word { IsTableWord (word_at (image_of reader.now)) (pointer_at (M.meaning memory.now) at - 16) }
    requires info_word { IsTableWord (word_at (image_of reader.now)) (pointer_at (M.meaning memory.now) at - 8) }
    ensures { result ≡ view_at_address (word_at (image_of reader.now)) (M.meaning memory.now) at }
{
    let point = pointer(memory, at);
    let top = table_word(reader, point.saturating_sub(16));
    TypedPart {
        at: moved(at, top),
        info: table_word(reader, point.saturating_sub(8)),
    }
}

/// Whether the view is of the target class, and the source lies so many bytes behind it as the hint says.
fn is_at_hint(class: u32, view_at: u64, at: u64, target: u32, hint: i64) -> bool
    ensures { result ≡ is_at_hint class view_at at target hint }
{
    if hint < 0 {
        return false;
    }
    view_at as u128 + hint as u128 == at as u128 && class == target
}

/// The answer of a cast by a walk over the whole view.
fn cast_by_walk<M: Memory>(
    reader: &mut BaseReader<'_>,
    memory: &M,
    work: &mut WorkList,
    goal: Goal,
    view: TypedPart,
) -> Option<u64>
    requires view { view ≡ view_at_address (word_at (image_of reader.old)) (M.meaning memory.now) goal.at }
    requires can { CanCast (word_at (image_of reader.old)) (M.meaning memory.now) (room work.old) goal.at }
    ensures casts { CastsTo (word_at (image_of reader.old)) (M.meaning memory.now) goal.at goal.class goal.target result }
    ensures visits { ReadsAtMost (graph_of (word_at (image_of reader.old)) (M.meaning memory.now)) view (visits_of reader.old) (visits_of reader.new) }
    ensures image { image_of reader.new ≡ image_of reader.old }
    ensures kept { room work.new ≡ room work.old }
{
    work.clear();
    let found = visit(reader, memory, work, goal, view);
    match decide(&work.entries, goal.target, found) {
        None => None,
        Some(part) => Some(part.at),
    }
}

/// Where a dynamic_cast of the part of `class` at `at` to the class `target` leads, if anywhere: to the only part of the target
/// class that contains it, by public edges; else, where it is a public base of the view, to the only part of the target class, by
/// public edges from the view (ISO C++03 5.2.7 p8). The view is what the virtual pointer at `at` leads to. Takes no memory.
///
/// The hint is that of `__dynamic_cast` (Itanium C++ ABI 2.9.7). Where it is at least 0, the view is of the target class and it lies
/// so many bytes before `at`, it is the answer, and no record of a base is read.
pub fn cast_hinted<M: Memory>(
    reader: &mut BaseReader<'_>,
    memory: &M,
    work: &mut WorkList,
    at: u64,
    class: u32,
    target: u32,
    hint: i64,
) -> Option<u64>
    requires { CanCastHinted (word_at (image_of reader.old)) (M.meaning memory.now) (room work.old) at class target hint }
    ensures casts { CastsTo (word_at (image_of reader.old)) (M.meaning memory.now) at class target result }
    ensures visits { CountsVisits (graph_of (word_at (image_of reader.old)) (M.meaning memory.now)) (view_at_address (word_at (image_of reader.old)) (M.meaning memory.now) at) at target hint (visits_of reader.old) (visits_of reader.new) }
    ensures image { image_of reader.new ≡ image_of reader.old }
    ensures kept { room work.new ≡ room work.old }
{
    let view = view_from(reader, memory, at);
    let info = reader.info(view.info);
    if is_at_hint(info.class, view.at, at, target, hint) {
        return Some(view.at);
    }
    let goal = Goal { at, class, target };
    let found = cast_by_walk(reader, memory, work, goal, view);
    found
}

/// The answer of a dynamic_cast without a hint. Takes no memory.
pub fn cast<M: Memory>(
    image: &ImageBytes,
    memory: &M,
    work: &mut WorkList,
    at: u64,
    class: u32,
    target: u32,
) -> Option<u64>
    requires { CanCast (word_at image.now) (M.meaning memory.now) (room work.old) at }
    ensures casts { CastsTo (word_at image.now) (M.meaning memory.now) at class target result }
    ensures kept { room work.new ≡ room work.old }
{
    let mut reader = BaseReader::new(image);
    let found = cast_hinted(&mut reader, memory, work, at, class, target, -1);
    found
}

/// Whether the part of `class` at `at` is the view of `view_class` at `view_at` or a base subobject of it, public or not. A view
/// whose class has no table, by the directory, has no parts. Takes no memory.
pub fn is_within<M: Memory>(
    image: &ImageBytes,
    memory: &M,
    work: &mut WorkList,
    view_at: u64,
    view_class: u32,
    at: u64,
    class: u32,
) -> bool
    requires { CanTellWithin (word_at image.now) image.now.base (M.meaning memory.now) (room work.old) view_at view_class }
    ensures tells { TellsWithin (word_at image.now) image.now.base (M.meaning memory.now) view_at view_class at class result }
    ensures kept { room work.new ≡ room work.old }
{
    let point = word(image, image.base + 16 * view_class as u64);
    if point == 0 {
        return false;
    }
    let view = TypedPart {
        at: view_at,
        info: word(image, point.saturating_sub(8)),
    };
    work.clear();
    let goal = Goal {
        at,
        class,
        target: class,
    };
    leads_to_source(&mut BaseReader::new(image), memory, work, goal, view)
}
