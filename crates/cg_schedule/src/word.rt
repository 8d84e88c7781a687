/// The word with which the line of an event begins.
#[derive(Clone, Copy, Debug, PartialEq, Eq)]
pub enum Word {
    Start,
    Split,
    Merge,
    Request,
    Weak,
    Dirty,
    Order,
    Recover,
    Downgrade,
    Show,
    Gather,
    End,
    Receive,
    Deliver,
    Rounds,
    Stop,
    Fail,
    Join,
    Leave,
    Transfer,
}

const EVERY_WORD: [Word; 20] = [
    Word::Start,
    Word::Split,
    Word::Merge,
    Word::Request,
    Word::Weak,
    Word::Dirty,
    Word::Order,
    Word::Recover,
    Word::Downgrade,
    Word::Show,
    Word::Gather,
    Word::End,
    Word::Receive,
    Word::Deliver,
    Word::Rounds,
    Word::Stop,
    Word::Fail,
    Word::Join,
    Word::Leave,
    Word::Transfer,
];

impl Word {
    ghost use Rattle.std.specs.Prelude.{◌≡◌};
    ghost use Rattle.cg_schedule.specs.Line.{word_text, word_of, is_start};

    /// The word as it stands in a line.
    pub fn text(self) -> &'static str
        ensures { result.now ≡ word_text self }
    {
        match self {
            Word::Start => "start",
            Word::Split => "split",
            Word::Merge => "merge",
            Word::Request => "request",
            Word::Weak => "weak",
            Word::Dirty => "dirty",
            Word::Order => "order",
            Word::Recover => "recover",
            Word::Downgrade => "downgrade",
            Word::Show => "show",
            Word::Gather => "gather",
            Word::End => "end",
            Word::Receive => "receive",
            Word::Deliver => "deliver",
            Word::Rounds => "rounds",
            Word::Stop => "stop",
            Word::Fail => "fail",
            Word::Join => "join",
            Word::Leave => "leave",
            Word::Transfer => "transfer",
        }
    }

    /// The event word that the text is.
    #[tactic(auto, unfolding(crate::specs::Line::word_of))]
    pub fn of(text: &[u8]) -> Option<Word>
        ensures { result ≡ word_of text.now }
    {
        EVERY_WORD
            .iter()
            .copied()
            .find(|word| word.text().as_bytes() == text)
    }

    pub fn is_start(self) -> bool
        ensures { result ≡ is_start self }
    {
        matches!(self, Word::Start)
    }
}
