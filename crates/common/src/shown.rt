// Answers that may be absent, as text.
ghost use Rattle.std.specs.Prelude.{◌≡◌, ℕ, List, Some, IfOk, MatchOption, string_bytes};

use std::alloc::{AllocError, Global};
use std::fmt::Display;

// What is there, as it prints, or else the word for what is absent.
pub fn shown_or<T: Display + Drop>(
    heap: Global,
    answer: Option<T>,
    absent: &str,
) -> Result<String, AllocError>
    ensures { IfOk result (λ s. MatchOption answer (string_bytes s ≡ absent.now) (λ x. (t : List ℕ) → T.Display.output x ≡ Some t → string_bytes s ≡ t)) }
{
    match answer {
        None => String::from_str(heap, absent),
        Some(answer) => answer.to_string(heap),
    }
}
