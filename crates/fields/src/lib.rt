// The fields of a book, written into the rest of a lent buffer, and the end record that job books and plan books have alike.
#![tactic(auto)]

ghost use Rattle.std.specs.Prelude.{◌≡◌, [], ◌∷◌, ◌+◌, ◌≤◌, length};
ghost use Rattle.job.specs.Fields.{word_of};
ghost use Rattle.job.specs.Written.{bytes2, bytes4};
ghost use Rattle.fields.specs.Bytes.{over, behind, Wrote};

// Bytes behind the first `at`.
#[tactic(auto, using(crate::proofs::Over::stored_behind))]
fn put(out: &mut [u8], at: usize, bytes: &[u8])
    requires { at + length bytes.now ≤ length out.old }
    ensures { out.new ≡ behind at bytes.now out.old }
{
    out[at..at + bytes.len()].copy_from_slice(bytes);
}

// A byte at the front.
#[tactic(auto, using(crate::proofs::Over::behind_none))]
pub fn put1(out: &mut [u8], v: u8)
    requires { 1 ≤ length out.old }
    ensures { out.new ≡ over (v ∷ []) out.old }
{
    put(out, 0, &[v]);
}

// The lower two bytes of a number, little-endian.
pub fn put2(out: &mut [u8], at: usize, v: u32)
    requires { at + 2 ≤ length out.old }
    ensures { out.new ≡ behind at (bytes2 v) out.old }
{
    put(out, at, &v.to_le_bytes()[..2]);
}

// The four bytes of a number, little-endian.
pub fn put4(out: &mut [u8], at: usize, v: u32)
    requires { at + 4 ≤ length out.old }
    ensures { out.new ≡ behind at (bytes4 v) out.old }
{
    put(out, at, &v.to_le_bytes());
}

// The word of a coordinate, which is held with 1,000,000 added to it.
pub fn word(c: u32) -> u32
    ensures { result ≡ word_of c }
{
    c.wrapping_sub(1000000)
}

// An end record with its count.
pub fn write_end(out: &mut [u8], count: u32) -> usize
    requires { 3 ≤ length out.old }
    ensures { Wrote (0x5A ∷ bytes2 count) out.old out.new result }
{
    put1(out, 0x5A);
    put2(out, 1, count);
    3
}
