// Rows of a table in a lent buffer.
ghost use Rattle.std.specs.Prelude.{◌≡◌, ◌+◌, ◌≤◌, length};
ghost use Rattle.std.proofs.lemmas.List.Edits.{sets};

// The numbers of a pattern's row: its kind, two operands, how many propositions it binds and how many parts it has.
pub const PATTERN: usize = 5;

// The numbers of a phrase's row: its kind, its operands, zeros to the end.
pub const PHRASE: usize = 12;

// A row's numbers at a place of a table, all else as it was. There must be room for them.
pub fn lay(t: &mut [u32], row: &[u32], from: usize)
    requires { from + length row.now ≤ length t.old }
    ensures { t.new ≡ sets t.old from row.now }
{
    t[from..from + row.len()].copy_from_slice(row);
}
