use cg_disk::{ModelDisk, Side};
use cg_journal::{AppendErr, Journal};
use std::test::Fail;

#[test]
fn a_record_is_there_whole_or_not_at_all(rt: HostRuntime) -> Result<(), Fail> {
    let alloc = rt.alloc();
    let journal = Journal::format(ModelDisk::new(alloc))
        .ok()
        .ok_or("no journal")?;
    let mut journal = journal
        .append(alloc, Side::A, b"first")
        .ok()
        .ok_or("no record")?;

    // the machine stops inside the first call of an append
    journal.stop_at(1);
    let Err(AppendErr::Lost(disk)) = journal.append(alloc, Side::A, b"second") else {
        return Err("it went on".into());
    };
    let left = disk.image(b"half of it")?;
    assert!(rt; left.calls() == 3 + 4 + 1);
    let (_, a, _) = Journal::open(alloc, left).ok().ok_or("no journal")?;
    assert!(rt; a.len() == 1);
    Ok(())
}
