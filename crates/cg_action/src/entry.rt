use crate::Value;
use cg_base::Row;
use cg_text::Txt;

/// A key with its value.
#[derive(Drop, PartialEq, Eq)]
pub struct DbEntry {
    pub key: Txt,
    pub value: Value,
}

/// Entries, in order.
pub type EntryList = Row<DbEntry>;

/// Texts, in order.
pub type TxtList = Row<Txt>;
