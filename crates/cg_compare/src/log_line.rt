use cg_base::IdList;

/// The word with which a line begins.
#[derive(Clone, Copy)]
pub(crate) enum LogWord {
    Log,
    End,
}

const EVERY_WORD: [LogWord; 2] = [LogWord::Log, LogWord::End];

impl LogWord {
    ghost use Rattle.std.specs.Prelude.{◌≡◌};
    ghost use Rattle.cg_compare.specs.Lines.{word_text, word_of};

    fn text(self) -> &'static str
        ensures { result.now ≡ word_text self }
    {
        match self {
            LogWord::Log => "log",
            LogWord::End => "end",
        }
    }

    /// The word that the text is.
    #[tactic(auto, unfolding(crate::specs::Lines::word_of))]
    pub(crate) fn of(text: &[u8]) -> Option<LogWord>
        ensures { result ≡ word_of text.now }
    {
        EVERY_WORD
            .iter()
            .copied()
            .find(|word| word.text().as_bytes() == text)
    }
}

/// What a line says: a log, as `log 0 [1:1,2:1]`, or that no more follow.
#[derive(Drop)]
pub enum LogLine {
    Log { white: u64, list: IdList },
    End,
}
