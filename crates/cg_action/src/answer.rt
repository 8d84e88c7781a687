use crate::TxtList;
use cg_text::Txt;

/// What a query found.
#[derive(Drop, PartialEq, Eq)]
pub enum Answer {
    /// The key isn't there.
    Absent,
    /// The key's text.
    Text(Txt),
    /// The key's number.
    Int(i64),
    /// The keys that begin with the prefix, ascending by bytes.
    Keys(TxtList),
    /// The number of keys.
    Count(u64),
}
