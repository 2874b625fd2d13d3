//! The words that a command may begin with.
ghost use Rattle.std.specs.Prelude.{◌≡◌};
ghost use Rattle.apd_ctrl.specs.Words.{spelling, word_of};

use apd_base::Which;

/// A word that a command may begin with.
#[derive(Clone, Copy, Debug, PartialEq, Eq)]
pub(crate) enum Word {
    Ping,
    Status,
    Sta,
    StaFirst,
    StaNext,
    Deauthenticate,
    Disassociate,
    List(Which),
}

const WORDS: [Word; 9] = [
    Word::Ping,
    Word::Status,
    Word::Sta,
    Word::StaFirst,
    Word::StaNext,
    Word::Deauthenticate,
    Word::Disassociate,
    Word::List(Which::Accept),
    Word::List(Which::Deny),
];

impl Word {
    fn spelling(self) -> &'static [u8]
        ensures { result.now ≡ spelling self }
    {
        match self {
            Word::Ping => b"PING",
            Word::Status => b"STATUS",
            Word::Sta => b"STA",
            Word::StaFirst => b"STA-FIRST",
            Word::StaNext => b"STA-NEXT",
            Word::Deauthenticate => b"DEAUTHENTICATE",
            Word::Disassociate => b"DISASSOCIATE",
            Word::List(Which::Accept) => b"ACCEPT_ACL",
            Word::List(Which::Deny) => b"DENY_ACL",
        }
    }
}

/// The word that bytes spell, if it is listed.
#[tactic(auto, unfolding(crate::specs::Words::word_of, crate::specs::Words::word_among))]
pub(crate) fn word_of(text: &[u8]) -> Option<Word>
    ensures { result ≡ word_of text.now }
{
    for word in &WORDS {
        if text == word.spelling() {
            return Some(*word);
        }
    }
    None
}
