// How number sets, cells and the lines of a sheet are written and read.
#![tactic(auto)]

ghost use Rattle.std.specs.Prelude.{◌≡◌, ℕ, List, IfOk, string_bytes, Option};

pub mod cell;
pub mod intervals;
pub mod lists;
pub mod numerals;
pub mod sheet;

use domain::Domain;
use std::alloc::{AllocError, Global};

// A kind of sets with a written form.
pub trait Notation: Domain {
    ghost written: { Self → List ℕ };

    ghost read_as: { List ℕ → Option Self };

    // The set as text; nothing for an empty set or a record out of form.
    fn text(self, heap: Global) -> Result<String, AllocError>
        ensures { IfOk result (λ s. string_bytes s ≡ written self) };

    // The set that the bytes write; a record out of form is taken as it stands.
    fn read(bytes: &[u8]) -> Option<Self>
        ensures { result ≡ read_as bytes.now };
}
