//! Laws of arrays.

ghost use Rattle.std.specs.Prelude.{◌≡◌, ℕ, ◌+◌, ◌-◌, ◌*◌, ◌%◌, ◌<◌, ◌≤◌, Some, [], length, slice_get};
ghost use Rattle.cxx_hierarchy.specs.declared.records.ClassId.{ClassId};
ghost use Rattle.cxx_hierarchy.specs.Classes.{Classes};
ghost use Rattle.cxx_hierarchy.specs.Hierarchies.{IsHierarchy};
ghost use Rattle.byte_memory.specs.Regions.{IsAscendingBy};
ghost use Rattle.byte_memory.specs.Store.{Store, Closes};
ghost use Rattle.abi_sound.specs.Places.{Places};
ghost use Rattle.abi_cookie.specs.declared.answers.ArrayAnswer.{ArrayAnswer};
ghost use Rattle.abi_cookie.specs.Arrays.{IsArray, DiffersBehind, element_at, elements, ended_elements};
ghost use Rattle.abi_cookie.specs.Answers.{IsArrayAnswer};

/// The n elements of an array lie one behind the other, and inside the bytes that they have together.
pub fn elements_lie_apart()
    ensures count { (first size n : ℕ) → length (elements first size n) ≡ n }
    ensures each { (first size n i : ℕ) → i < n → slice_get (elements first size n) i ≡ Some (element_at first size i) }
    ensures apart { (first size n : ℕ) → IsAscendingBy (λ at. at) (λ at. size) (elements first size n) }
    ensures inside { (first size n i : ℕ) → i < n → (first ≤ element_at first size i) × (element_at first size i + size ≤ first + n * size) }
{}

/// With a cookie each element is ended once, in the reverse order: of n elements, element i is ended behind n - 1 - i others.
pub fn each_ended_once()
    ensures count { (first size cookie n : ℕ) → 0 < cookie → length (ended_elements first size cookie n) ≡ n }
    ensures each { (first size cookie n i : ℕ) → 0 < cookie → i < n → slice_get (ended_elements first size cookie n) (n - 1 - i) ≡ Some (element_at first size i) }
    ensures once { (first size i j : ℕ) → 1 ≤ size → element_at first size i ≡ element_at first size j → i ≡ j }
{}

/// Without a cookie no element is ended.
pub fn none_ended()
    ensures { (first size n : ℕ) → ended_elements first size 0 n ≡ [] }
{}

/// An array stays one, whatever is stored in its elements and behind them, and also after its region was closed.
pub fn arrays_stay()
    ensures stored { (old new : Store) (size cookie n first : ℕ) → cookie % 8 ≡ 0 → DiffersBehind old new first → IsArray old size cookie n first → IsArray new size cookie n first }
    ensures closed { (old new : Store) (size cookie n first : ℕ) → Closes old new (first - cookie) → IsArray old size cookie n first → IsArray new size cookie n first }
{}

/// There is an answer for each class and each number of elements.
pub fn some_answer()
    ensures { (h : Classes) (l : Places) (c : ClassId) (n : ℕ) → IsHierarchy h → c.0 < length h → (answer : ArrayAnswer) × IsArrayAnswer h l c n answer }
{}

/// There is at most one answer.
pub fn one_answer()
    ensures { (h : Classes) (l : Places) (c : ClassId) (n : ℕ) (one other : ArrayAnswer) → IsArrayAnswer h l c n one → IsArrayAnswer h l c n other → one ≡ other }
{}
