use cg_session::Token;

/// A session that is open, with its number, 1 to 32, and what it has seen.
pub struct Session {
    pub id: u8,
    pub token: Token,
}

impl Drop for Session {
    fn drop(self) {
        let Session { id: _, token: _ } = self;
    }
}
