ghost use Rattle.std.specs.Prelude.{◌≡◌, ◌++◌, OnOk, OnErr};
ghost use Rattle.cg_json.specs.JsonText.{entry_json};

use crate::lines::lines_of;
use crate::objects::put_step;
use cg_base::NoMemory;
use cg_report::Entry;

/// What a step puts: nothing where it shows nothing, and else one compact object and a line feed. Its members are
/// `lines`, the lines of the entry's text without the one that has the number, and `step`, the number. Where memory is
/// refused nothing is put.
pub fn json(step: u64, e: &Entry, out: &mut Vec<u8>) -> Result<(), NoMemory>
    ensures ok { OnOk result (out.new.items ≡ out.old.items ++ entry_json step e.now) }
    ensures err { OnErr result (out.new.items ≡ out.old.items) }
{
    let lines = lines_of(*out.allocator(), e)?;
    if lines.is_empty() {
        return Ok(());
    }
    put_step(out, step, lines)
}
