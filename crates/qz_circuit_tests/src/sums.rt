//! Small sums of monomials.
ghost use Rattle.std.specs.Prelude.{◌<◌};

use qz_ring::{Elem, Exponent, Memory};
use std::alloc::Global;
use std::process::Abort;
use std::test::Fail;

// The first functions hide the clauses of what is tested: a test that knows less is proved sooner.
fn one(alloc: Global) -> Result<Elem, Memory> {
    Elem::one(alloc)
}

fn copy(sum: &Elem) -> Result<Elem, Memory> {
    sum.copy()
}

fn is_same(left: &Elem, right: &Elem) -> bool {
    left.same(right)
}

fn is_zero(sum: &Elem) -> bool {
    sum.is_zero()
}

fn weight(sum: &Elem) -> u128 {
    sum.weight()
}

fn leading(sum: &Elem) -> Option<(Exponent, i128)> {
    sum.leading()
}

fn term(sum: &Elem, k: u64) -> Option<(Exponent, i128)> {
    if k < sum.terms() {
        Some(sum.term(k))
    } else {
        None
    }
}

// Adds a small sum to a small sum.
fn add(rt: &impl Abort, sum: &mut Elem, other: &Elem) -> Result<(), Memory> {
    assert!(rt; sum.weight() <= 100);
    assert!(rt; other.weight() <= 100);
    sum.add(other)
}

// Takes a small sum from a small sum.
fn subtract(rt: &impl Abort, sum: &mut Elem, other: &Elem) -> Result<(), Memory> {
    assert!(rt; sum.weight() <= 100);
    assert!(rt; other.weight() <= 100);
    sum.sub(other)
}

// Multiplies a small sum by the square root of 2.
fn times_root2(rt: &impl Abort, sum: &mut Elem) -> Result<(), Memory> {
    assert!(rt; sum.weight() <= 100);
    sum.times_root2()
}

fn exponent(turn: u8, powers: [i64; 3]) -> Exponent {
    Exponent {
        turn: turn as u16,
        powers,
    }
}

// The square root of 2, twice, doubles.
#[test]
fn root2_twice_doubles(rt: HostRuntime) -> Result<(), Fail> {
    let one = one(rt.alloc())?;
    let mut twice = copy(&one)?;
    times_root2(&rt, &mut twice)?;
    assert!(rt; twice.terms() == 2);
    times_root2(&rt, &mut twice)?;
    let mut two = copy(&one)?;
    add(&rt, &mut two, &one)?;
    assert!(rt; is_same(&twice, &two));
    assert!(rt; !is_same(&twice, &one));
    assert!(rt; weight(&two) == 2);
    Ok(())
}

fn turned_one(alloc: Global) -> Result<Elem, Memory> {
    let mut turned = Elem::one(alloc)?;
    turned.shift(Exponent {
        turn: 256,
        powers: [0; 3],
    });
    Ok(turned)
}

// One, turned by half a circle, is minus one: with one it is zero.
#[test]
fn half_a_turn_cancels(rt: HostRuntime) -> Result<(), Fail> {
    let mut turned = turned_one(rt.alloc())?;
    assert!(rt; leading(&turned) == Some((exponent(0, [0; 3]), -1)));
    add(&rt, &mut turned, &one(rt.alloc())?)?;
    assert!(rt; is_zero(&turned));
    Ok(())
}

// One has one term; less itself it is zero, which has none.
#[test]
fn one_has_one_term_and_zero_none(rt: HostRuntime) -> Result<(), Fail> {
    let mut sum = one(rt.alloc())?;
    let monomial = Some((exponent(0, [0; 3]), 1));
    assert!(rt; leading(&sum) == monomial);
    assert!(rt; term(&sum, 0) == monomial);
    assert!(rt; !is_zero(&sum));
    let one = copy(&sum)?;
    subtract(&rt, &mut sum, &one)?;
    assert!(rt; is_zero(&sum));
    assert!(rt; leading(&sum).is_none());
    assert!(rt; is_same(&sum, &Elem::zero(rt.alloc())));
    Ok(())
}

#[tactic(auto, using(qz_ring::proofs::Sums::reach_times_le))]
fn two_steps(alloc: Global) -> Result<Elem, Memory> {
    let step = Exponent {
        turn: 300,
        powers: [1, -2, 0],
    };
    let mut product = Elem::one(alloc)?;
    product.shift(step);
    product.shift(step);
    Ok(product)
}

fn same_turn(alloc: Global) -> Result<Elem, Memory> {
    let mut product = Elem::one(alloc)?;
    product.shift(Exponent {
        turn: 88,
        powers: [0, 0, 7],
    });
    Ok(product)
}

// The powers of the unknowns add up, and order the terms of one turn.
#[test]
fn powers_add_up_and_order_the_terms(rt: HostRuntime) -> Result<(), Fail> {
    let mut product = two_steps(rt.alloc())?;
    assert!(rt; leading(&product) == Some((exponent(88, [2, -4, 0]), 1)));
    add(&rt, &mut product, &same_turn(rt.alloc())?)?;
    assert!(rt; product.terms() == 2);
    assert!(rt; leading(&product) == Some((exponent(88, [0, 0, 7]), 1)));
    Ok(())
}

// One, turned.
fn turned_by(alloc: Global, turn: u8) -> Result<Elem, Memory> {
    let mut turned = Elem::one(alloc)?;
    turned.shift(Exponent {
        turn: turn as u16,
        powers: [0; 3],
    });
    Ok(turned)
}

// Whether the first sum is the second one, turned.
#[tactic(auto, using(qz_ring::proofs::Sums::reach_times_le))]
fn is_turned_by(product: &Elem, sum: &Elem, turn: u8) -> bool {
    let _terms = sum.terms();
    product.is_product(
        sum,
        Exponent {
            turn: turn as u16,
            powers: [0; 3],
        },
    )
}

// Root two, turned by a quarter of a circle, is an eighth of a circle and three eighths together, whose order is another.
#[test]
fn a_quarter_turn_of_root2_is_its_product(rt: HostRuntime) -> Result<(), Fail> {
    let mut root = one(rt.alloc())?;
    times_root2(&rt, &mut root)?;
    let mut turned = turned_by(rt.alloc(), 64)?;
    add(&rt, &mut turned, &turned_by(rt.alloc(), 192)?)?;
    assert!(rt; is_turned_by(&turned, &root, 128));
    assert!(rt; !is_turned_by(&turned, &root, 64));
    assert!(rt; !is_turned_by(&root, &turned, 128));
    assert!(rt; !is_turned_by(&one(rt.alloc())?, &root, 128));
    Ok(())
}
