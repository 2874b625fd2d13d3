//! Why a frame is ignored.
use std::fmt;

/// The reasons for which a frame is ignored (own), in their order: the first that holds is told. It
/// prints as one word.
#[derive(Clone, Copy, Debug, PartialEq, Eq)]
pub enum Ignored {
    /// More than 2,304 bytes.
    TooLong,
    /// Fewer than the 24 bytes of the header.
    Short,
    /// The protocol version is not 0.
    Version,
    /// Neither a management nor a data frame.
    Class,
    /// More Fragments is 1, or the fragment number is not 0.
    Fragment,
    /// A management frame with Protected Frame or +HTC/Order 1.
    Flags,
    /// A data frame that is not To DS 1 and From DS 0.
    Direction,
    /// Address 2 is a group's address or the radio's own.
    Sender,
    /// Address 1 is not the radio's own; in a probe request it may be the broadcast address.
    Receiver,
    /// Address 3 of a management frame is not the radio's own; in a probe request it may be the
    /// broadcast address.
    OtherBss,
    /// A management frame that is no request to associate, reassociate or find a network, and no
    /// disassociation, authentication or deauthentication.
    Subtype,
    /// The body is shorter than the fixed fields of its kind.
    Body,
}

impl fmt::Display for Ignored {
    ghost use Rattle.std.specs.Prelude.{Some};
    ghost use Rattle.apd_frame.specs.Outcome.{word};

    ghost output = { λ reason. Some (word reason) };

    fn fmt<W: fmt::Write>(&self, f: &mut fmt::Formatter<W>) -> fmt::Result {
        match self {
            Ignored::TooLong => f.write_str("long"),
            Ignored::Short => f.write_str("short"),
            Ignored::Version => f.write_str("version"),
            Ignored::Class => f.write_str("class"),
            Ignored::Fragment => f.write_str("fragment"),
            Ignored::Flags => f.write_str("flags"),
            Ignored::Direction => f.write_str("direction"),
            Ignored::Sender => f.write_str("sender"),
            Ignored::Receiver => f.write_str("receiver"),
            Ignored::OtherBss => f.write_str("bss"),
            Ignored::Subtype => f.write_str("subtype"),
            Ignored::Body => f.write_str("body"),
        }
    }
}
