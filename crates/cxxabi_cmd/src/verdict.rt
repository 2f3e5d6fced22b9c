//! The passes over a source.

ghost use Rattle.std.specs.Prelude.{◌≡◌, ◌≤◌, ◌⊎◌, IfOk, IfErr, OnOk, length};
ghost use Rattle.cxx_overrider.specs.Faults.{StopsIn};
ghost use Rattle.cxx_overrider.specs.Overriders.{AreOverriders};
ghost use Rattle.abi_sound.specs.Places.{places_of};
ghost use Rattle.abi_slots.specs.Slots.{AreSlots};
ghost use Rattle.abi_layout.specs.AbiLayouts.{IsAbiLayout};
ghost use Rattle.cxxabi_cmd.specs.invariants.Listings.{IsReady};
ghost use Rattle.foundation.specs.Limits.{source_limit};
ghost use Rattle.cxxabi_cmd.specs.Verdict.{Verdict, Stops, Accepts, StopsFirst, MeetsNoFault, HasManyWords, HasFewWords};

use abi_layout::{AbiLayout, lay_out, lay_out_first};
use abi_slots::Slots;
use abi_tables::{check_vtts, check_words};
use cxx_decl_parser::parse_source;
use cxx_hierarchy::{Hierarchy, LimitNo, Stop, build};
use cxx_overrider::{ClassStop, Overriders, check_by_class};
use cxx_program::TypedProgram;
use cxx_resolve::resolve;
use cxx_syntax::SourceText;
use cxx_text::tokens;
use cxx_typing::programs_are_typed;
use std::alloc::Global;

/// A source that is accepted, its classes, what its globals and bodies resolve to, the final overriders and the layout of the
/// classes, and what they list for their tables.
#[derive(Drop)]
pub struct Accepted {
    pub source: SourceText,
    pub hierarchy: Hierarchy,
    pub program: TypedProgram,
    pub overriders: Overriders,
    pub layout: AbiLayout,
    pub slots: Slots,
}

// The first fault of classes of which the meaning refuses one: that of the layout of a class before it, or else this.
fn first_refusal(alloc: Global, h: &Hierarchy, refused: ClassStop) -> Stop
    requires stops { StopsIn h.now refused.class refused.stop }
    requires refuses { refused.stop ≡ Stop.NoMemory → ⊥ }
    ensures { (result ≡ Stop.NoMemory) ⊎ StopsFirst h.now result }
{
    h.keeps();
    match lay_out_first(alloc, h, refused.class.0) {
        Ok(_) => {}
        Err(stop) => return stop,
    }
    refused.stop
}

// The first fault of classes whose meanings are not passed, or want of memory.
fn first_stop(alloc: Global, h: &Hierarchy, refused: ClassStop) -> Stop
    requires { StopsIn h.now refused.class refused.stop }
    ensures { (result ≡ Stop.NoMemory) ⊎ StopsFirst h.now result }
{
    match refused.stop {
        Stop::NoMemory => Stop::NoMemory,
        Stop::Refused(_, _) | Stop::Limit(_) => first_refusal(alloc, h, refused),
    }
}

// Makes the pass over the classes: their meanings and their layout.
fn check_classes(alloc: Global, h: &Hierarchy) -> Result<(Overriders, AbiLayout), Stop>
    ensures none { OnOk result (MeetsNoFault h.now) }
    ensures overriders { IfOk result (λ passed. AreOverriders h.now passed.0) }
    ensures layout { IfOk result (λ passed. IsAbiLayout h.now passed.1) }
    ensures err { IfErr result (λ stop. (stop ≡ Stop.NoMemory) ⊎ StopsFirst h.now stop) }
{
    h.keeps();
    match check_by_class(alloc, h) {
        Ok(overriders) => {
            let layout = lay_out(alloc, h)?;
            Ok((overriders, layout))
        }
        Err(refused) => Err(first_stop(alloc, h, refused)),
    }
}

// Makes the pass over the words of the tables, of which the classes list these.
fn check_tables(
    alloc: Global,
    h: &Hierarchy,
    overriders: &Overriders,
    layout: &AbiLayout,
) -> Result<Slots, Stop>
    requires overriders { AreOverriders h.now overriders.now }
    requires layout { IsAbiLayout h.now layout.now }
    ensures few { OnOk result (HasFewWords h.now) }
    ensures slots { IfOk result (AreSlots h.now (places_of h.now layout.now)) }
    ensures err { IfErr result (λ stop. (stop ≡ Stop.NoMemory) ⊎ ((stop ≡ Stop.Limit LimitNo.L7) × HasManyWords h.now)) }
{
    // What the classes list may take far more memory than the lengths of their VTTs, which alone can pass the limit.
    check_vtts(alloc, h, layout)?;
    let slots = Slots::new(alloc, h, overriders, layout)?;
    check_words(alloc, h, layout, &slots)?;
    Ok(slots)
}

/// Makes the passes over the bytes of a source.
///
/// Errors: the first refusal or limit that they meet, or want of memory.
pub fn judge(alloc: Global, bytes: &[u8]) -> Result<Accepted, Stop>
    requires { length bytes.now ≤ source_limit }
    ensures ok { IfOk result (λ accepted. Verdict bytes.now (Accepts accepted.source accepted.hierarchy accepted.program)) }
    ensures ready { IfOk result (λ accepted. IsReady accepted) }
    ensures err { IfErr result (λ stop. (stop ≡ Stop.NoMemory) ⊎ Verdict bytes.now (Stops stop)) }
{
    programs_are_typed();
    let list = tokens(alloc, bytes)?;
    let source = parse_source(alloc, bytes, &list)?;
    let hierarchy = build(alloc, &source.records)?;
    let (overriders, layout) = check_classes(alloc, &hierarchy)?;
    let program = resolve(alloc, &hierarchy, &overriders, &source)?;
    match check_tables(alloc, &hierarchy, &overriders, &layout) {
        Ok(slots) => Ok(Accepted {
            source,
            hierarchy,
            program,
            overriders,
            layout,
            slots,
        }),
        Err(stop) => Err(stop),
    }
}
