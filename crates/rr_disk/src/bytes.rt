// Work on the bytes of a file.
ghost use Rattle.std.specs.Prelude.{◌≡◌, ◌+◌, ◌^◌, ◌-◌, ◌<◌, ◌≤◌, ◌++◌, length, max, replicate, vec_len, SomeIff};
ghost use Rattle.std.specs.Vec.{vec_capacity};
ghost use Rattle.rr_disk.specs.Disk.{written};

// A file's length and offsets are signed numbers of 64 bits to the system.
const GREATEST_END: u64 = 1 << 63;

/// Where a call of `len` bytes ends, if that is a place in a file.
pub fn end_of(at: u64, len: usize) -> Option<u64>
    ensures { SomeIff result (at + len ≤ 2 ^ 63) (at + len) }
{
    let end = at.checked_add(len as u64)?;
    if end <= GREATEST_END { Some(end) } else { None }
}

/// Puts bytes in the place of others.
pub fn copy_over(target: &mut [u8], from: &[u8])
    requires { length target.old ≡ length from.now }
    ensures { target.new ≡ from.now }
{
    target.copy_from_slice(from);
}

/// Writes bytes within a file.
pub fn put(file: &mut [u8], at: usize, bytes: &[u8])
    requires { at + length bytes.now ≤ length file.old }
    ensures { file.new ≡ written file.old at bytes.now }
{
    copy_over(&mut file[at..at + bytes.len()], bytes);
}

/// Makes a file at least `end` bytes long, by zeros.
pub fn grow(file: &mut Vec<u8>, end: usize)
    requires { end ≤ vec_capacity file.old }
    ensures bytes { file.new.items ≡ file.old.items ++ replicate (end - length file.old.items) 0 }
    ensures len { vec_len file.new ≡ max (vec_len file.old) end }
    ensures capacity { vec_capacity file.old ≤ vec_capacity file.new }
{
    if file.len() >= end {
        return;
    }
    file.resize(end, 0).unwrap();
}

/// Writes bytes into a file that has the memory for them. A gap between its end and them becomes zeros.
pub fn overwrite(file: &mut Vec<u8>, at: usize, bytes: &[u8])
    requires fits { at + length bytes.now < 2 ^ 64 }
    requires room { at + length bytes.now ≤ vec_capacity file.old }
    ensures bytes { file.new.items ≡ written file.old.items at bytes.now }
    ensures len { vec_len file.new ≡ max (vec_len file.old) (at + length bytes.now) }
    ensures capacity { vec_capacity file.old ≤ vec_capacity file.new }
{
    grow(file, at + bytes.len());
    put(file, at, bytes);
}
