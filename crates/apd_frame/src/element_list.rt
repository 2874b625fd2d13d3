//! What is asked of the elements of a frame's body.
ghost use Rattle.std.specs.Prelude.{◌≡◌, ◌==◌, ◌↔◌, ℕ, List, IsTrue};
ghost use Rattle.std.specs.List.{find};
ghost use Rattle.std.specs.Option.{option_copied, option_map};
ghost use Rattle.apd_base.specs.Number.{AreBytes};
ghost use Rattle.apd_frame.specs.Contents.{element};
ghost use Rattle.apd_frame.specs.Elements.{elements_of, first_with, octets_of, well_formed, IsLongest, WellFormed};

use crate::element::{Element, Elements, split_element};

/// The whole elements of bytes from the front, as many as there are (IEEE Std 802.11-2016, 9.4.2.1).
/// They are slices of the bytes. It takes no memory.
pub fn elements(bytes: &[u8]) -> Elements<'_>
    ensures computed { result ≡ elements_of bytes.now }
    ensures longest { IsLongest bytes.now result }
{
    Elements::new(bytes)
}

/// Whether bytes are whole elements, and nothing else. It takes no memory.
pub fn well_formed(bytes: &[u8]) -> bool
    ensures computed { result ≡ well_formed bytes.now }
    ensures elements { IsTrue result ↔ WellFormed bytes.now }
{
    let mut rest = bytes;
    while let Some((_, behind)) = split_element(rest) {
        rest = behind;
    }
    rest.is_empty()
}

fn first_element_with(bytes: &[u8], id: u8) -> Option<Element<'_>>
    ensures { option_map element result ≡ find (λ e. e.0 == id) (elements_of bytes.now) }
{
    elements(bytes).find(|element| element.id == id)
}

/// The body of the first whole element with an ID. It takes no memory.
pub fn first_with(bytes: &[u8], id: u8) -> Option<&[u8]>
    ensures { option_copied result ≡ first_with id bytes.now }
{
    let element = first_element_with(bytes, id)?;
    Some(element.body)
}

/// What the definitions compute is what the standard's words say, for bytes: `elements_of` is the
/// longest list of whole elements from the front, and there is no other; `well_formed` tells whether
/// there is a list of elements whose bytes they are. Elements that were written are read again.
pub fn elements_law()
    ensures longest { (f : List ℕ) (elements : List (ℕ × List ℕ)) → AreBytes f →
        IsLongest f elements ↔ (elements ≡ elements_of f) }
    ensures well_formed { (f : List ℕ) → AreBytes f → IsTrue (well_formed f) ↔ WellFormed f }
    ensures read_again { (elements : List (ℕ × List ℕ)) → elements_of (octets_of elements) ≡ elements }
{}
