/// What a run puts: all of its report, the report's last line alone, or all of it as JSON; where logs are read, what they
/// come to together; where an image is looked at, what is seen in it; or, where an image is to be put, nothing but the last
/// line of a run that isn't done.
#[derive(Clone, Copy, Debug, PartialEq, Eq)]
pub enum Report {
    Whole,
    Tail,
    Json,
    Joined,
    Inspected,
    Imaged,
}
