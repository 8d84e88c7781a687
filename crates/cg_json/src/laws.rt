ghost use Rattle.cg_json.specs.JsonTold.{HasItsLines, StepsAreRead, TailsAreRead, ObjectsTellTheirLines};

/// An object of a JSON report, read back, holds exactly what it was made of: the lines of the step's text, after the
/// one with its number, and that number; or the tail. So two steps whose objects have one text show the same lines.
pub fn objects_tell_their_lines()
    ensures lines { HasItsLines }
    ensures steps { StepsAreRead }
    ensures tails { TailsAreRead }
    ensures apart { ObjectsTellTheirLines }
{}
