/// The word with which a line of sessions begins.
#[derive(Clone, Copy)]
pub(crate) enum SessionWord {
    Session,
    Swrite,
    Sweak,
}

impl SessionWord {
    ghost use Rattle.std.specs.Prelude.{◌≡◌};
    ghost use Rattle.cg_session.specs.Line.{word_of};

    /// The word that the text is.
    #[tactic(auto, unfolding(crate::specs::Line::word_of))]
    pub(crate) fn of(text: &[u8]) -> Option<SessionWord>
        ensures { result ≡ word_of text.now }
    {
        if text == b"session".as_slice() {
            Some(SessionWord::Session)
        } else if text == b"swrite".as_slice() {
            Some(SessionWord::Swrite)
        } else if text == b"sweak".as_slice() {
            Some(SessionWord::Sweak)
        } else {
            None
        }
    }
}
