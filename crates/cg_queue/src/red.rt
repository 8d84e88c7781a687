use cg_action::Action;

/// A red action, and whether it stands in the yellow list.
#[derive(Drop)]
pub(crate) struct Red {
    pub(crate) action: Action,
    pub(crate) is_yellow: bool,
}
