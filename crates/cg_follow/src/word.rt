/// The word with which a line of followers begins.
#[derive(Clone, Copy)]
pub(crate) enum FollowWord {
    Follower,
    Feed,
    Fstop,
    Frecover,
    Fweak,
}

impl FollowWord {
    ghost use Rattle.std.specs.Prelude.{◌≡◌};
    ghost use Rattle.cg_follow.specs.Line.{word_of};

    /// The word that the text is.
    #[tactic(auto, unfolding(crate::specs::Line::word_of))]
    pub(crate) fn of(text: &[u8]) -> Option<FollowWord>
        ensures { result ≡ word_of text.now }
    {
        if text == b"follower".as_slice() {
            Some(FollowWord::Follower)
        } else if text == b"feed".as_slice() {
            Some(FollowWord::Feed)
        } else if text == b"fstop".as_slice() {
            Some(FollowWord::Fstop)
        } else if text == b"frecover".as_slice() {
            Some(FollowWord::Frecover)
        } else if text == b"fweak".as_slice() {
            Some(FollowWord::Fweak)
        } else {
            None
        }
    }
}
