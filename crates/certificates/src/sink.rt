// Where the numbers of a certificate go: into the output, or only into a count of their bytes.
ghost use Rattle.std.specs.Prelude.{◌≡◌, ◌≤◌, ℕ, Bool, true, false, List, []};
ghost use Rattle.language.specs.Numbers.{groups};
ghost use Rattle.certificates.specs.Emitted.{Fits, Emitted};

// What takes numbers, one after another.
pub trait Sink {
    // Whether their bytes are stored.
    ghost writes: { Bool };

    // What they are stored into.
    ghost bytes: { Self → List ℕ };

    // Where the next byte goes.
    ghost place: { Self → ℕ };

    // Which lent output it is: it stays the same one.
    ghost name: { Self → ℕ };

    // The next number's bytes.
    fn number(&mut self, v: usize)
        requires { Fits writes (place self.old) (groups v) (bytes self.old) × (v ≤ 65535) × (place self.old ≤ 1000010) }
        ensures same { name self.new ≡ name self.old }
        ensures emitted { Emitted writes (bytes self.old) (place self.old) (groups v) (bytes self.new) (place self.new) };
}

// The count of the bytes.
#[derive(Drop)]
pub struct Measure {
    pub length: usize,
}

impl Sink for Measure {
    ghost writes = { false };

    ghost bytes = { λ _. [] };

    ghost place = { λ m. m.length };

    ghost name = { λ _. 0 };

    fn number(&mut self, v: usize) {
        self.length += numbers::length_of(v);
    }
}

// The output, and where in it the next byte goes.
#[derive(Drop)]
pub struct Writer<'a> {
    pub out: &'a mut [u8],
    pub at: usize,
}

impl<'a> Sink for Writer<'a> {
    ghost writes = { true };

    ghost bytes = { λ w. w.out.now };

    ghost place = { λ w. w.at };

    ghost name = { λ w. w.out.ghost_name };

    fn number(&mut self, v: usize) {
        self.at = numbers::write(self.out, self.at, v);
    }
}
