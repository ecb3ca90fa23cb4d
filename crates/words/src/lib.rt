// Numbers in a lent buffer. A cell holds 32 bits, and only this crate knows it.
// Reading gives the number at a place, 0 past the end. Storing changes that place alone, and nothing past the end.
// A buffer is wiped from its front: what lies past the front stays as it was.
// The laws of a buffer that is filled from its front are in proofs/Fronts.antt, those of a run of stores in proofs/Runs.antt.
#![tactic(auto)]

ghost use Rattle.std.specs.Prelude.{◌≡◌, [], ◌∷◌, ◌++◌, ◌<◌, ◌≤◌, ◌^◌, length, get_or, set, drop, replicate};
ghost use Rattle.std.proofs.lemmas.List.Edits.{sets};
ghost use Rattle.words.specs.Cells.{Narrow};

// The number at place i; 0 where the buffer has no such place.
pub fn at(s: &[u32], i: usize) -> usize
    ensures { result ≡ get_or s.now i 0 }
{
    if i < s.len() { s[i] as usize } else { 0 }
}

// The number v at place i, all else as it was. It must fit a cell.
pub fn put(s: &mut [u32], i: usize, v: usize)
    requires { v < 2 ^ 32 }
    ensures { s.new ≡ set s.old i v }
{
    if i < s.len() {
        s[i] = v as u32;
    }
}

// The first n numbers zero, the others as they were. The buffer must have so many.
pub fn wipe(s: &mut [u32], n: usize)
    requires { n ≤ length s.old }
    ensures { s.new ≡ replicate n 0 ++ drop n s.old }
{
    s[..n].fill(0);
}

// Numbers from place i on, all else as it was. They must fit a cell.
pub fn put_all(s: &mut [u32], i: usize, vs: &[usize])
    requires { Narrow vs.now }
    ensures { s.new ≡ sets s.old i vs.now }
{
    if i < s.len() {
        for (j, v) in vs.iter().enumerate() {
            put(s, i + j, *v);
        }
    }
}
