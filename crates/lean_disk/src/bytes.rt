// Bytes put over others, and bytes copied out.
ghost use Rattle.std.specs.Prelude.{◌≡◌, ◌≤◌, ◌+◌, ◌-◌, ◌++◌, length, min, take, drop, OnErr, OnOk};
ghost use Rattle.lean_disk.specs.Area.{put_over};

use std::alloc::AllocError;

// Puts bytes into a place that has them all.
fn place(into: &mut [u8], at: usize, bytes: &[u8])
    requires { at + length bytes.now ≤ length into.old }
    ensures { into.new ≡ take at into.old ++ bytes.now ++ drop (at + length bytes.now) into.old }
{
    into[at..at + bytes.len()].copy_from_slice(bytes);
}

/// Puts bytes over those of a list from a place on, with zeros up to it. It costs their length, not the list's.
pub fn overwrite(list: &mut Vec<u8>, at: usize, bytes: &[u8]) -> Result<(), AllocError>
    ensures after { OnOk result (list.new.items ≡ put_over at bytes.now list.old.items) }
    ensures same { OnErr result (list.new.items ≡ list.old.items) }
{
    if bytes.len() > usize::MAX - at {
        return Err(AllocError);
    }
    let size = list.len().max(at + bytes.len());
    list.resize(size, 0)?;
    place(list, at, bytes);
    Ok(())
}

/// Copies the bytes from a place on, as many as stand there and fit.
pub fn copy_out(bytes: &[u8], at: usize, into: &mut [u8]) -> usize
    ensures count { result ≡ min (length into.old) (length bytes.now - at) }
    ensures bytes { into.new ≡ take result (drop at bytes.now) ++ drop result into.old }
{
    if at >= bytes.len() {
        return 0;
    }
    let rest = &bytes[at..];
    let n = rest.len().min(into.len());
    into[..n].copy_from_slice(&rest[..n]);
    n
}
