use crate::status::Limit;

/// What passed the limit, how far it goes, and what to do.
pub(crate) fn bound(what: Limit) -> &'static str {
    match what {
        Limit::Line => "it has more than 32768 bytes; make it shorter",
        Limit::Input => "with it the input has more than 8388608 bytes; make it shorter",
        Limit::Lines => "with it the input has more than 200000 lines; make it shorter",
        Limit::Steps =>
            "with it the run has more than 2000000 steps; ask for fewer passes or lines",
    }
}
