//! Shards: circuits in the order in which they came, and their classes.
ghost use Rattle.std.specs.Prelude.{◌≡◌, ◌+◌, ◌<◌, [], length, All, IfOk, OnOk};
ghost use Rattle.qz_circ.specs.Order.{all_circuits};
ghost use Rattle.qz_shard.specs.Shards.{IsAtHome, print_at};

use qz_circ::{Bounds, Memory, Op, Steps, rank, unrank};
use qz_finger::Probe;
use qz_shard::Shard;
use std::alloc::Global;
use std::marker::Brand;
use std::sync::ledger::{Blank, Ledger};
use std::test::Fail;

// The probe of the seed 0 for the bounds' qubits.
fn probe_for(b: Bounds) -> Probe
    ensures { result ≡ record { seed = 0; q = b.q } }
{
    Probe::new(0, b.q())
}

// The fingerprint of the circuit with this rank.
fn finger_at(alloc: Global, b: Bounds, probe: Probe, r: u64) -> Result<u64, Memory>
    requires rank { r < length (all_circuits b) }
    requires qubits { probe.q ≡ b.q }
    ensures { IfOk result (λ print. print ≡ print_at b probe.seed r) }
{
    let circuit = unrank(alloc, r, b)?;
    Ok(probe.finger(&circuit))
}

// Adds two circuits, which belong there, to an empty shard, and gives their places.
fn add_both<L: Ledger>(
    shard: &mut Shard,
    first: u64,
    second: u64,
    blank: Blank,
) -> Result<[u64; 2], Memory>
    requires name { blank.name ≡ L.name }
    requires parts { blank.parts ≡ L.parts }
    requires shared { 0 < L.parts }
    requires empty { shard.old.journal ≡ [] }
    requires first { first < length (all_circuits shard.old.bounds) }
    requires second { second < length (all_circuits shard.old.bounds) }
    requires first_home { IsAtHome shard.old first }
    requires second_home { IsAtHome shard.old second }
    requires different { first ≡ second → ⊥ }
{
    let mut steps = Steps::<L>::new(blank);
    let place = shard.add(first, &mut steps)?;
    let next = shard.add(second, &mut steps)?;
    Ok([place, next])
}

// A shard of two circuits at the places 0 and 1; nothing where they don't belong into one shard or got other places.
fn shard_of(alloc: Global, b: Bounds, first: u64, second: u64) -> Result<Option<Shard>, Memory> {
    if first == second || first >= b.circuits() || second >= b.circuits() {
        return Ok(None);
    }
    let probe = probe_for(b);
    let print = finger_at(alloc, b, probe, first)?;
    let other = finger_at(alloc, b, probe, second)?;
    let number = print % 16;
    if other % 16 != number {
        return Ok(None);
    }
    let mut shard = Shard::new(alloc, number, b, probe);
    let places = add_both::<Brand>(&mut shard, first, second, Blank::new(1))?;
    if places == [0, 1] {
        Ok(Some(shard))
    } else {
        Ok(None)
    }
}

// Whether the shard has these two entries and one class, with these members.
fn has_one_class(shard: &Shard, entries: [u64; 2], members: &[u64]) -> bool {
    shard.len() == 2
        && shard.entry(0) == entries[0]
        && shard.entry(1) == entries[1]
        && shard.classes() == 1
        && shard.class(0) == members
        && shard.prints() == 1
}

// The empty circuit and two H, in both orders.
fn both_orders(alloc: Global) -> Option<bool> {
    let b = Bounds::new(2, 1, 0).ok()?;
    let pair = rank(&[Op::H(0), Op::H(0)], b)?;
    let forwards = shard_of(alloc, b, 0, pair).ok()??;
    let backwards = shard_of(alloc, b, pair, 0).ok()??;
    let first = has_one_class(&forwards, [0, 10], &[0, 10]);
    let second = has_one_class(&backwards, [10, 0], &[0, 10]);
    Some(first && second)
}

#[test]
fn a_class_rises_in_whatever_order_its_circuits_come(rt: HostRuntime) {
    assert!(rt; both_orders(rt.alloc()) == Some(true));
}

// What a shard is made of: the bounds of its circuits, the probe of their fingerprints, and its number.
#[derive(Drop)]
struct Home {
    bounds: Bounds,
    probe: Probe,
    number: u64,
}

// Takes a circuit into a shard of earlier ones, if it belongs there.
fn take_in<L: Ledger>(
    alloc: Global,
    home: &Home,
    shard: &mut Shard,
    r: u64,
    steps: &mut Steps<L>,
) -> Result<(), Memory>
    requires rank { r < length (all_circuits home.now.bounds) }
    requires qubits { home.now.probe.q ≡ home.now.bounds.q }
    requires bounds { shard.old.bounds ≡ home.now.bounds }
    requires probe { shard.old.probe ≡ home.now.probe }
    requires number { shard.old.number ≡ home.now.number }
    requires earlier { All (λ t. t < r) shard.old.journal }
    ensures bounds { OnOk result (shard.new.bounds ≡ home.now.bounds) }
    ensures probe { OnOk result (shard.new.probe ≡ home.now.probe) }
    ensures number { OnOk result (shard.new.number ≡ home.now.number) }
    ensures earlier { OnOk result (All (λ t. t < r + 1) shard.new.journal) }
{
    let print = finger_at(alloc, home.bounds, home.probe, r)?;
    if print % 16 == home.number {
        shard.add_with_print(r, print, steps)?;
        return Ok(());
    }
    Ok(())
}

// A shard with all circuits within the bounds that belong there, by rank.
fn filled<L: Ledger>(alloc: Global, home: &Home, blank: Blank) -> Result<Shard, Memory>
    requires name { blank.name ≡ L.name }
    requires parts { blank.parts ≡ L.parts }
    requires shared { 0 < L.parts }
    requires number { home.now.number < 16 }
    requires qubits { home.now.probe.q ≡ home.now.bounds.q }
{
    let mut steps = Steps::<L>::new(blank);
    let mut shard = Shard::new(alloc, home.number, home.bounds, home.probe);
    for r in 0..home.bounds.circuits() {
        take_in(alloc, home, &mut shard, r, &mut steps)?;
    }
    Ok(shard)
}

// How many circuits and classes the sixteen shards of all circuits within the bounds have, and whether no shard has more
// fingerprints than classes.
fn sizes(alloc: Global, b: Bounds) -> Result<([u64; 2], bool), Memory> {
    let probe = probe_for(b);
    let mut entries = 0u64;
    let mut classes = 0u64;
    let mut few = true;
    for number in 0..16 {
        let home = Home {
            bounds: b,
            probe,
            number,
        };
        let shard = filled::<Brand>(alloc, &home, Blank::new(1))?;
        entries = entries.saturating_add(shard.len());
        classes = classes.saturating_add(shard.classes());
        few = few && shard.prints() <= shard.classes();
    }
    Ok(([entries, classes], few))
}

// The numbers of circuits, and of classes with those of one circuit, by the sizes of the class lists.
#[test]
fn all_circuits_are_in_their_classes(rt: HostRuntime) -> Result<(), Fail> {
    let alloc = rt.alloc();
    let plain = sizes(alloc, Bounds::new(2, 1, 0)?)?;
    assert!(rt; plain.0 == [91, 17 + 91 - 77] && plain.1, "one qubit");
    let with_parameter = sizes(alloc, Bounds::new(2, 1, 1)?)?;
    assert!(rt;
        with_parameter.0 == [133, 33 + 133 - 111] && with_parameter.1,
        "a parameter"
    );
    let two_qubits = sizes(alloc, Bounds::new(2, 2, 0)?)?;
    assert!(rt;
        two_qubits.0 == [421, 130 + 421 - 349] && two_qubits.1,
        "two qubits"
    );
    Ok(())
}
