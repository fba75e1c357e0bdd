//! What the left sides of rules cost.
ghost use Rattle.std.specs.Prelude.{◌≡◌, ◌≤◌, length};
ghost use Rattle.qz_search.specs.Costs.{rule_weight, rule_cost};

use qz_circ::Op;

// What a gate weighs that a gate of a left side binds to.
fn rule_weight(weights: [u8; 4], g: Op) -> u8
    ensures { result ≡ rule_weight weights g }
{
    match g {
        Op::H(_) => weights[0],
        Op::X(_) => weights[1],
        Op::Cx(_, _) => weights[2],
        Op::Rz(_, _) => weights[3],
    }
}

// What the gates cost that a left side binds to.
pub(crate) fn rule_cost(left: &[Op], weights: [u8; 4]) -> u64
    requires { length left.now ≤ 6 }
    ensures { result ≡ rule_cost weights left.now }
{
    let mut n = 0;
    for g in left {
        n += u64::from(rule_weight(weights, *g));
    }
    n
}
