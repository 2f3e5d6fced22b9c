//! Writes a whole text.

ghost use Rattle.std.specs.Prelude.{ℕ, ◌≡◌, ◌≤◌, ◌++◌, Some, length, take, IfSome, IsTrue};
ghost use Rattle.std.specs.Bool.{OnFalse};
ghost use Rattle.cxxabi_streams.specs.Streams.{Rose, AddsFrontOf};

use crate::sink::Sink;

/// Writes all of a text, and says whether the sink took it. It takes no memory.
pub fn write_text<K: Sink>(sink: &mut K, text: &[u8]) -> bool
    ensures whole { IsTrue result → IfSome (K.contents sink.old) (λ bytes. K.contents sink.new ≡ Some (bytes ++ text.now)) }
    ensures part { OnFalse result (IfSome (K.contents sink.old) (λ bytes. AddsFrontOf bytes text.now (K.contents sink.new))) }
    ensures fault { OnFalse result (Rose (K.fault_count sink.old) (K.fault_count sink.new)) }
    ensures counts { K.fault_count sink.old ≤ K.fault_count sink.new }
{
    let mut rest = text;
    while !rest.is_empty() {
        let Ok(count) = sink.write(rest) else {
            return false;
        };
        let (_, after) = rest.split_at(count);
        rest = after;
    }
    true
}
