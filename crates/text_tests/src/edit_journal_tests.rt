use edit_journal::{Disk, EditLog, FuseDisk, LONGEST, MemoryDisk, OpenFault, Tear};
use edit_text::read_line;
use grove_edits::{Edit, EditList};
use grove_sorts::Version;
use std::alloc::Global;
use std::test::Fail;
use text_parts::{NoMemory, write_number};

const DELETION: &[u8] = b"-1.2 0.0 root main 1.1 num:7";

/// Other bytes stand in the ranges written.
const OTHER_BYTES: Tear = Tear {
    byte: 1,
    missing: 0,
    cuts: false,
};

/// They do, the last of them are missing, and cuts have happened.
const MISSING_ENDS: Tear = Tear {
    byte: 1,
    missing: 7,
    cuts: true,
};

/// Closed gates stand there, and whole records are missing.
const MISSING_RECORDS: Tear = Tear {
    byte: 0,
    missing: 40,
    cuts: false,
};

fn edit(line: &[u8]) -> Result<Edit, Fail> {
    Ok(read_line(Version::Two, line)?)
}

fn disk_with(alloc: Global, file: &[u8]) -> Result<MemoryDisk, Fail> {
    let mut disk = MemoryDisk::new(alloc)?;
    if file.len() as u64 <= LONGEST && disk.write_at(0, file).is_ok() {
        Ok(disk)
    } else {
        Err(Fail::from("no such file"))
    }
}

fn count_found(alloc: Global, file: &[u8]) -> Result<usize, Fail> {
    match EditLog::open(alloc, disk_with(alloc, file)?) {
        Ok((_, edits)) => Ok(edits.len()),
        Err(_) => Err(Fail::from("not opened")),
    }
}

// The disk after one edit was appended twice.
fn twice(alloc: Global) -> Result<MemoryDisk, Fail> {
    let deletion = edit(DELETION)?;
    let Ok((mut log, _)) = EditLog::open(alloc, MemoryDisk::new(alloc)?) else {
        return Err(Fail::from("an empty file is a log"));
    };
    log.append(&deletion)?;
    log.append(&deletion)?;
    Ok(log.close())
}

#[test]
fn an_edit_appended_twice(rt: HostRuntime) -> Result<(), Fail> {
    let disk = twice(rt.alloc())?;
    assert_eq!(rt; disk.as_slice().len(), 69);
    assert_eq!(rt;
        disk.as_slice().get(..5),
        Some([1, 0, 0, 0, 0x1d].as_slice())
    );
    assert_eq!(rt; disk.as_slice().get(5..33), Some(DELETION));
    Ok(())
}

// With the gate of the second record cut off and with nothing behind the first.
#[test]
fn an_edit_counts_once_its_gate_is_there(rt: HostRuntime) -> Result<(), Fail> {
    let disk = twice(rt.alloc())?;
    assert_eq!(rt; count_at(rt.alloc(), disk.as_slice(), 69)?, 2);
    assert_eq!(rt; count_at(rt.alloc(), disk.as_slice(), 34)?, 0);
    assert_eq!(rt; count_at(rt.alloc(), disk.as_slice(), 35)?, 1);
    Ok(())
}

// How many edits the log has whose file is the first so many bytes.
fn count_at(alloc: Global, file: &[u8], end: usize) -> Result<usize, Fail> {
    count_found(alloc, file.get(..end).ok_or("a shorter file")?)
}

#[test]
fn a_bare_lf_is_damage(rt: HostRuntime) -> Result<(), Fail> {
    let disk = disk_with(rt.alloc(), &[1, 0, 0, 0, 1, b'\n', 0])?;
    let number = match EditLog::open(rt.alloc(), disk) {
        Err(OpenFault::Damaged { number, .. }) => number,
        _ => 0,
    };
    assert_eq!(rt; number, 1);
    Ok(())
}

// So many edits, no two of them alike.
fn edits(alloc: Global, count: u64) -> Result<EditList, Fail> {
    let mut edits = EditList::new(alloc);
    for number in 0..count {
        let line = insertion(alloc, number)?;
        edits.push(edit(&line)?)?;
    }
    Ok(edits)
}

fn insertion(alloc: Global, number: u64) -> Result<Vec<u8>, Fail> {
    let mut line = Vec::from_slice(alloc, b"+1.2 0.0 root main 1.1 num:")?;
    write_number(number, &mut line)?;
    Ok(line)
}

/// How often a run appends edits or opens its log.
const STEPS: usize = 200;

/// More calls of a disk than a run makes.
const MOST_CALLS: u64 = 1000;

/// More calls of a disk than opening a log makes.
const MOST_CALLS_TO_OPEN: u64 = 10;

// How far a run has come: which edits were tried and which acknowledged, from the first on.
#[derive(Drop)]
struct Progress {
    random: u64,
    steps: usize,
    tried: usize,
    acknowledged: usize,
}

impl Progress {
    fn next_random(&mut self) -> usize {
        self.random = self
            .random
            .wrapping_mul(6364136223846793005)
            .wrapping_add(1442695040888963407);
        (self.random >> 33) as usize
    }

    fn count_step(&mut self) {
        self.steps = self.steps.saturating_add(1);
    }
}

// Makes the steps of a run. Once the disk has stopped they change nothing.
fn run(alloc: Global, mut disk: FuseDisk, edits: &[Edit], progress: &mut Progress) -> FuseDisk {
    for _ in 0..STEPS {
        if progress.steps >= STEPS {
            break;
        }
        disk = open_and_append(alloc, disk, edits, progress);
    }
    disk
}

// Opens the log, and appends edits until it is to be opened again.
fn open_and_append(
    alloc: Global,
    disk: FuseDisk,
    edits: &[Edit],
    progress: &mut Progress,
) -> FuseDisk {
    match open(alloc, disk) {
        Ok(mut log) => {
            progress.count_step();
            append_some(&mut log, edits, progress);
            log.close()
        }
        Err(disk) => disk,
    }
}

fn append_some(log: &mut EditLog<FuseDisk>, edits: &[Edit], progress: &mut Progress) {
    for _ in 0..STEPS {
        if progress.steps >= STEPS || !append_group(log, edits, progress) {
            break;
        }
    }
}

// Appends the next 1 to 4 edits. One time of four it does not, and the log is to be opened again.
fn append_group(log: &mut EditLog<FuseDisk>, edits: &[Edit], progress: &mut Progress) -> bool {
    let random = progress.next_random();
    let start = progress.acknowledged;
    let end = start.saturating_add(random % 4 + 1);
    let Some(group) = edits.get(start..end) else {
        return false;
    };
    if random / 4 % 4 == 0 {
        return false;
    }
    progress.tried = end;
    if log.append_all(group).is_err() {
        return false;
    }
    progress.acknowledged = end;
    progress.count_step();
    true
}

fn open(alloc: Global, disk: FuseDisk) -> Result<EditLog<FuseDisk>, FuseDisk> {
    match EditLog::open(alloc, disk) {
        Ok((log, _)) => Ok(log),
        Err(OpenFault::Failed { disk })
        | Err(OpenFault::TooLong { disk, .. })
        | Err(OpenFault::Damaged { disk, .. })
        | Err(OpenFault::NoMemory { disk }) => Err(disk),
    }
}

// The disk after a crash: with its file as of the last sync, or with what was done since torn.
fn crashed(alloc: Global, disk: FuseDisk, tear: Option<Tear>) -> Result<MemoryDisk, NoMemory> {
    match tear {
        Some(_) => disk.crash_torn(alloc),
        None => disk.crash(alloc),
    }
}

fn disk_of(
    alloc: Global,
    calls: u64,
    bytes: u64,
    tear: Option<Tear>,
) -> Result<FuseDisk, NoMemory> {
    FuseDisk::with_tear(alloc, calls, bytes, tear.unwrap_or_default())
}

#[test]
fn each_acknowledged_edit_is_found(rt: HostRuntime) -> Result<(), Fail> {
    stop_everywhere(rt.alloc(), None)
}

#[test]
fn each_acknowledged_edit_is_found_behind_other_bytes(rt: HostRuntime) -> Result<(), Fail> {
    stop_everywhere(rt.alloc(), Some(OTHER_BYTES))
}

#[test]
fn each_acknowledged_edit_is_found_where_ends_are_missing(rt: HostRuntime) -> Result<(), Fail> {
    stop_everywhere(rt.alloc(), Some(MISSING_ENDS))
}

#[test]
fn each_acknowledged_edit_is_found_where_records_are_missing(rt: HostRuntime) -> Result<(), Fail> {
    stop_everywhere(rt.alloc(), Some(MISSING_RECORDS))
}

// Stops a run at each of its calls, until one is not stopped.
fn stop_everywhere(alloc: Global, tear: Option<Tear>) -> Result<(), Fail> {
    let edits = edits(alloc, 4 * STEPS as u64)?;
    stop_at_each_call(alloc, edits.as_slice(), tear)
}

fn stop_at_each_call(alloc: Global, edits: &[Edit], tear: Option<Tear>) -> Result<(), Fail> {
    for calls in 0..MOST_CALLS {
        if stop_at(alloc, edits, tear, calls)? == STEPS {
            return Ok(());
        }
    }
    Err(Fail::from("a run makes more calls"))
}

// A run whose disk stops at this call and crashes. Its log is opened on what is left, and on what opening leaves that is stopped too.
// Answers how many steps were made.
fn stop_at(alloc: Global, edits: &[Edit], tear: Option<Tear>, calls: u64) -> Result<usize, Fail> {
    let mut progress = Progress {
        random: 7,
        steps: 0,
        tried: 0,
        acknowledged: 0,
    };
    let disk = disk_of(alloc, calls, 40000, tear)?;
    let left = crashed(alloc, run(alloc, disk, edits, &mut progress), tear)?;
    check_left(alloc, edits, &progress, tear, left.as_slice())?;
    check_found(alloc, edits, &progress, left)?;
    Ok(progress.steps)
}

// Opens the log in a file on disks that stop at each of the calls which that makes.
fn check_left(
    alloc: Global,
    edits: &[Edit],
    progress: &Progress,
    tear: Option<Tear>,
    file: &[u8],
) -> Result<(), Fail> {
    for calls in 0..MOST_CALLS_TO_OPEN {
        let left = stopped_again(alloc, file, tear, calls)?;
        check_found(alloc, edits, progress, left)?;
    }
    Ok(())
}

// A disk that holds the file stops while it is opened, and crashes.
fn stopped_again(
    alloc: Global,
    file: &[u8],
    tear: Option<Tear>,
    calls: u64,
) -> Result<MemoryDisk, Fail> {
    let disk = disk_of(alloc, calls.saturating_add(2), 40000, tear)?;
    let disk = opened(alloc, filled(disk, file)?);
    Ok(crashed(alloc, disk, tear)?)
}

// A disk with the file, by two calls.
fn filled(mut disk: FuseDisk, file: &[u8]) -> Result<FuseDisk, Fail> {
    if file.len() as u64 <= LONGEST && disk.write_at(0, file).is_ok() && disk.sync().is_ok() {
        Ok(disk)
    } else {
        Err(Fail::from("no such file"))
    }
}

fn opened(alloc: Global, disk: FuseDisk) -> FuseDisk {
    match open(alloc, disk) {
        Ok(log) => log.close(),
        Err(disk) => disk,
    }
}

// The log on the disk has all edits that were acknowledged, and of the others a front of those that were tried.
fn check_found(
    alloc: Global,
    edits: &[Edit],
    progress: &Progress,
    disk: MemoryDisk,
) -> Result<(), Fail> {
    let Ok((_, found)) = EditLog::open(alloc, disk) else {
        return Err(Fail::from("not opened"));
    };
    if are_found(edits, progress, found.as_slice()) {
        Ok(())
    } else {
        Err(Fail::from("other edits are found"))
    }
}

fn are_found(edits: &[Edit], progress: &Progress, found: &[Edit]) -> bool {
    progress.acknowledged <= found.len()
        && found.len() <= progress.tried
        && Some(found) == edits.get(..found.len())
}
