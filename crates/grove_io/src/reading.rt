// The reading of a whole source.
ghost use Rattle.std.specs.Prelude.{◌≡◌, ◌≢◌, ◌<◌, ◌≤◌, ◌+◌, ◌^◌, ℕ, List, length, take, drop, vec_len, IfOk, OnOk, OnErr, IsOk, IfSome, IsErrOf};
ghost use Rattle.grove_io.specs.Outside.{Gave, HasRisen, IsAtEnd, moved};

use crate::{Failed, InputFault, Source};
use std::alloc::{AllocError, Global};

/// How many bytes one read asks for, at most.
const PIECE: usize = 64 * 1024;

/// Reads a source to its end. It never takes more than `limit + 1` bytes.
///
/// `TooLong` comes where the source gave one byte more than `limit`, and `ReadFault` where a read failed.
pub fn read_all<S: Source>(
    alloc: Global,
    source: &mut S,
    limit: usize,
) -> Result<Vec<u8>, InputFault>
    requires { limit < 2 ^ 32 }

    ensures whole { IfOk result (λ text. IfSome (S.left source.old) (λ left. text.items ≡ left)) }
    ensures at_end { OnOk result (IsAtEnd (S.left source.new)) }
    ensures short { IfOk result (λ text. vec_len text ≤ limit) }
    ensures gave { IfOk result (λ text. Gave (S.left source.old) text.items (S.left source.new)) }

    ensures too_long { IsErrOf result InputFault.TooLong
        → (given : List ℕ) × (length given ≡ limit + 1) × Gave (S.left source.old) given (S.left source.new) }
    ensures too_long_where_told { IsErrOf result InputFault.TooLong
        → IfSome (S.left source.old) (λ left. limit < length left) }
    ensures else_within_limit { result ≢ Err InputFault.TooLong
        → (given : List ℕ) × (length given ≤ limit) × Gave (S.left source.old) given (S.left source.new) }

    ensures cause { IsErrOf result InputFault.ReadFault → HasRisen (S.faults source.old) (S.faults source.new) }
    ensures never_falls { S.faults source.old ≤ S.faults source.new }

    ensures sure { S.never_fails source.old → result ≢ Err InputFault.ReadFault }
    ensures stays_sure { S.never_fails source.old → S.never_fails source.new }
    ensures no_fault { S.never_fails source.old → S.faults source.new ≡ S.faults source.old }
{
    let filler = filler(alloc)?;
    let mut text = Vec::new(alloc);
    let mut filled = 0;
    while filled <= limit {
        make_room(&mut text, filled, limit + 1, &filler)?;
        let count = read_behind(source, &mut text, filled)?;
        if count == 0 {
            text.truncate(filled);
            return Ok(text);
        }
        filled += count;
    }
    Err(InputFault::TooLong)
}

/// Bytes to put where a read is to write.
fn filler(alloc: Global) -> Result<Vec<u8>, AllocError>
    ensures { IfOk result (λ filler. 0 < vec_len filler) }
{
    vec![in alloc; 0; PIECE]
}

/// Makes the text longer than `filled`, by bytes of the filler, and at most `most` long.
fn make_room(
    text: &mut Vec<u8>,
    filled: usize,
    most: usize,
    filler: &[u8],
) -> Result<(), AllocError>
    requires filled { filled ≤ vec_len text.old }
    requires short { filled < most }
    requires within { vec_len text.old ≤ most }
    requires some { 0 < length filler.now }
    ensures room { OnOk result (filled < vec_len text.new) }
    ensures within { vec_len text.new ≤ most }
    ensures front { take filled text.new.items ≡ take filled text.old.items }
{
    if filled < text.len() {
        return Ok(());
    }
    let more = (most - text.len()).min(filler.len());
    text.extend_from_slice(&filler[..more])
}

/// One read, to behind the first `filled` bytes of the text.
fn read_behind<S: Source>(source: &mut S, text: &mut [u8], filled: usize) -> Result<usize, Failed>
    requires { filled < length text.old }
    ensures within { IfOk result (λ count. filled + count ≤ length text.new) }
    ensures front { take filled text.new ≡ take filled text.old }
    ensures gave { Gave (S.left source.old) (moved result (drop filled text.new)) (S.left source.new) }
    ensures at_end { IfOk result (λ count. count ≡ 0 → IsAtEnd (S.left source.new)) }
    ensures never_falls { S.faults source.old ≤ S.faults source.new }
    ensures cause { OnErr result (HasRisen (S.faults source.old) (S.faults source.new)) }
    ensures sure { S.never_fails source.old → IsOk result }
    ensures stays_sure { S.never_fails source.old → S.never_fails source.new }
    ensures no_fault { S.never_fails source.old → S.faults source.new ≡ S.faults source.old }
{
    source.read(&mut text[filled..])
}

#[cfg(test)]
mod tests {
    use super::*;
    use crate::{MemorySource, SureSource};
    use std::process::Abort;
    use std::test::Fail;

    fn source(alloc: Global, piece: usize, failing: u64) -> Result<MemorySource, AllocError>
        requires { 1 ≤ piece }
    {
        let bytes = b"abc".to_vec(alloc)?;
        Ok(MemorySource::new(bytes, piece, [failing].to_vec(alloc)?))
    }

    // Reads up to a limit, which fails so, and then all that is left.
    fn check_rest<R: Abort>(
        rt: &R,
        alloc: Global,
        source: &mut MemorySource,
        limit: usize,
        fault: InputFault,
        left: &[u8],
    ) -> Result<(), Fail>
        requires { limit < 2 ^ 32 }
    {
        let first = read_all(alloc, source, limit).err();
        assert!(rt; first == Some(fault));
        let rest = read_all(alloc, source, 3)?;
        assert!(rt; rest.as_slice() == left);
        Ok(())
    }

    fn check_fault<R: Abort>(rt: &R, alloc: Global, call: u64, left: &[u8]) -> Result<(), Fail> {
        let mut source = source(alloc, 1, call)?;
        check_rest(rt, alloc, &mut source, 3, InputFault::ReadFault, left)
    }

    // At one byte a read, the fourth read finds the end.
    #[test]
    fn goes_on_after_a_fault_at_each_read(rt: HostRuntime) -> Result<(), Fail> {
        check_fault(&rt, rt.alloc(), 1, b"abc")?;
        check_fault(&rt, rt.alloc(), 2, b"bc")?;
        check_fault(&rt, rt.alloc(), 3, b"c")?;
        check_fault(&rt, rt.alloc(), 4, b"")
    }

    fn check_limit<R: Abort>(rt: &R, alloc: Global, limit: usize, left: &[u8]) -> Result<(), Fail>
        requires { limit < 2 ^ 32 }
    {
        let mut source = source(alloc, 9, 0)?;
        check_rest(rt, alloc, &mut source, limit, InputFault::TooLong, left)
    }

    #[test]
    fn takes_one_byte_beyond_the_limit(rt: HostRuntime) -> Result<(), Fail> {
        check_limit(&rt, rt.alloc(), 0, b"bc")?;
        check_limit(&rt, rt.alloc(), 1, b"c")?;
        check_limit(&rt, rt.alloc(), 2, b"")
    }

    fn check_all<R: Abort>(rt: &R, alloc: Global, source: &mut SureSource) -> Result<(), Fail> {
        let text = read_all(alloc, source, 3)?;
        assert!(rt; text.as_slice() == b"abc".as_slice());
        Ok(())
    }

    #[test]
    fn reads_to_the_limit(rt: HostRuntime) -> Result<(), Fail> {
        let mut source = SureSource::new(b"abc".to_vec(rt.alloc())?, 2);
        check_all(&rt, rt.alloc(), &mut source)
    }
}
