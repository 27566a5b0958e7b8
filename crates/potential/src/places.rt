// Where a set of rights is in an access matrix: n × n sets, holder by holder.
ghost use Rattle.std.specs.Prelude.{◌≡◌};
ghost use Rattle.potential_theory.specs.Closure.{cell_at};

// Returns the index of the rights of a holder on a target.
pub fn cell_at(n: u32, holder: u32, target: u32) -> usize
    ensures { result ≡ cell_at n holder target }
{
    holder as usize * n as usize + target as usize
}
