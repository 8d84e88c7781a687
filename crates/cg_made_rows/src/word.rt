/// The word with which a line begins that asks for the relaxed database.
#[derive(Clone, Copy)]
pub(crate) enum RelaxedWord {
    Relaxed,
    Joined,
}

impl RelaxedWord {
    ghost use Rattle.std.specs.Prelude.{◌≡◌};
    ghost use Rattle.cg_made_rows.specs.Line.{word_of};

    /// The word that the text is.
    #[tactic(auto, unfolding(crate::specs::Line::word_of))]
    pub(crate) fn of(text: &[u8]) -> Option<RelaxedWord>
        ensures { result ≡ word_of text.now }
    {
        if text == b"relaxed".as_slice() {
            Some(RelaxedWord::Relaxed)
        } else if text == b"joined".as_slice() {
            Some(RelaxedWord::Joined)
        } else {
            None
        }
    }
}
