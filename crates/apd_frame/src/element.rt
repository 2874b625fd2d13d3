//! The elements of a frame's body.
ghost use Rattle.std.specs.Prelude.{◌≡◌, [], ◌∷◌, ◌++◌, IfNone, IfSome};
ghost use Rattle.apd_frame.specs.Contents.{element};
ghost use Rattle.apd_frame.specs.Elements.{elements_of, octets_of_one, IsLongest};

use std::marker::Model;

/// The ID of an SSID element (IEEE Std 802.11-2016, 9.4.2.1, Table 9-77).
pub const SSID: u8 = 0;

/// The ID of a Supported Rates and BSS Membership Selectors element.
pub const SUPPORTED_RATES: u8 = 1;

/// The ID of a DSSS Parameter Set element.
pub const DSSS_PARAMETER_SET: u8 = 3;

/// The element IDs in numbers, as IEEE Std 802.11-2016, 9.4.2.1, Table 9-77 has them. Other contracts
/// and definitions cite them by name.
pub fn element_ids_law()
    ensures ssid { SSID ≡ 0 }
    ensures supported_rates { SUPPORTED_RATES ≡ 1 }
    ensures dsss_parameter_set { DSSS_PARAMETER_SET ≡ 3 }
{}

/// An element (IEEE Std 802.11-2016, 9.4.2.1): its ID, and as many bytes as its length says.
#[derive(Clone, Copy, Debug, PartialEq, Eq)]
pub struct Element<'a> {
    /// The Element ID.
    pub id: u8,
    /// The bytes behind the length, at most 255.
    pub body: &'a [u8],
}

/// Hands out the elements of bytes from the front, and ends at the first that is cut. Contracts see
/// the list of what it has yet to hand out.
#[derive(Debug, Drop)]
pub struct Elements<'a> {
    bytes: &'a [u8],
}

impl<'a> Model for Elements<'a> {
    ghost use Rattle.std.specs.Prelude.{List, ℕ};
    ghost use Rattle.apd_frame.specs.Elements.{elements_of};

    ghost Value = { List (ℕ × List ℕ) };

    ghost view = { λ a. elements_of a.bytes.now };
}

impl<'a> Elements<'a> {
    pub(crate) fn new(bytes: &'a [u8]) -> Elements<'a>
        ensures computed { result ≡ elements_of bytes.now }
        ensures longest { IsLongest bytes.now result }
    {
        Elements { bytes }
    }
}

impl<'a> Iterator for Elements<'a> {
    ghost use Rattle.std.specs.Iterator.{YieldsFirstBy, item_count};

    type Item = Element<'a>;

    ghost next_gives = { YieldsFirstBy element (λ rest. rest) };

    ghost remaining = { item_count (λ rest. rest) };

    fn next(&mut self) -> Option<Element<'a>> {
        let (element, rest) = split_element(self.bytes)?;
        self.bytes = rest;
        Some(element)
    }
}

/// The element at the front and the bytes behind it, where a whole one stands there.
pub(crate) fn split_element(bytes: &[u8]) -> Option<(Element<'_>, &[u8])>
    ensures none { IfNone result (elements_of bytes.now ≡ []) }
    ensures first { IfSome result (λ split. elements_of bytes.now ≡ element split.0 ∷ elements_of split.1.now) }
    ensures bytes { IfSome result (λ split. bytes.now ≡ octets_of_one (element split.0) ++ split.1.now) }
{
    let [id, length, rest @ ..] = bytes else {
        return None;
    };
    let (body, behind) = rest.split_at_checked(*length as usize)?;
    Some((Element { id: *id, body }, behind))
}
