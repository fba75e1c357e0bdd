//! Sums of monomials times powers of √2.
ghost use Rattle.std.specs.Prelude.{◌-◌, ◌^◌, ◌≤◌, IfOk};
ghost use Rattle.qz_ring.specs.Terms.{weight_of, largest_reach};
ghost use Rattle.qz_equiv.specs.Phases.{IsTimesRoots};

use qz_ring::{Elem, Memory};

// The sum times √2, as often as the number says.
pub(crate) fn times_roots(sum: &Elem, roots: u64) -> Result<Elem, Memory>
    requires few { roots ≤ 100 }
    requires weight { weight_of sum.now ≤ 2 ^ (100 - roots) }
    ensures counts { IfOk result (IsTimesRoots roots sum.now) }
    ensures reach { IfOk result (λ product. largest_reach product ≤ largest_reach sum.now) }
{
    let mut product = sum.copy()?;
    for _ in 0..roots {
        product.times_root2()?;
    }
    Ok(product)
}
