//! Fingerprints of circuits. The numbers were computed outside of the program, from the lists of ways.
ghost use Rattle.std.specs.Prelude.{◌≤◌};
ghost use Rattle.qz_circ.specs.Circuit.{ActsBelow, HasBelow, IsOn};

use qz_circ::{Expr, Op};
use qz_finger::Probe;
use std::process::Abort;

const FLIP: Op = Op::X(0);

// The fingerprint by the probe of a seed.
fn print_of(seed: u64, q: u64, c: &[Op]) -> u64
    requires qubits { (1 ≤ q) × (q ≤ 3) }
    requires gates { IsOn q 3 c.now }
{
    Probe::new(seed, q).finger(c)
}

// These are the fingerprints for the seeds 0 and 42.
fn assert_prints(rt: &impl Abort, q: u64, c: &[Op], prints: [u64; 2])
    requires qubits { (1 ≤ q) × (q ≤ 3) }
    requires gates { IsOn q 3 c.now }
{
    let found = [print_of(0, q, c), print_of(42, q, c)];
    assert!(rt; found == prints);
}

// The fingerprint of a circuit with one gate more, from the values of the circuit.
fn print_with(seed: u64, q: u64, c: &[Op], op: Op) -> u64
    requires qubits { (1 ≤ q) × (q ≤ 3) }
    requires gates { IsOn q 3 c.now }
    requires gate { ActsBelow q op }
    requires parameters { HasBelow 3 op }
{
    let probe = Probe::new(seed, q);
    probe.finger_with(&probe.values(c), op)
}

// Each kind of gate and of angle, and gates of all kinds on two qubits.
#[test]
fn numbers_of_circuits(rt: HostRuntime) {
    let rt = &rt;
    assert_prints(rt, 1, &[], [18378603877403180086, 8945887196218941384]);
    assert_prints(
        rt,
        1,
        &[Op::H(0)],
        [1926410559791906799, 764979505078680971],
    );
    assert_prints(rt, 1, &[FLIP], [15639118267708097995, 13708602925647616246]);
    let third = Op::Rz(0, Expr::Const(12));
    assert_prints(rt, 1, &[third], [2565407166587150359, 3578384561245581260]);
    let plus = Op::Rz(0, Expr::Plus(1));
    assert_prints(rt, 1, &[plus], [7309696094292487558, 12590565860326366130]);
    let minus = Op::Rz(0, Expr::Minus(2));
    assert_prints(rt, 1, &[minus], [7826943932497007999, 7976621187593495776]);
    let both = Op::Rz(0, Expr::Sum(0, 2));
    assert_prints(rt, 1, &[both], [3041647469724430613, 9068843551596093694]);
    assert_prints(
        rt,
        2,
        &[Op::Cx(1, 0)],
        [18300349528782509390, 12257163766875113553],
    );
    assert_prints(
        rt,
        2,
        &[Op::Cx(0, 1)],
        [12598371507962669066, 7372821516574810033],
    );
    let sum = Op::Rz(1, Expr::Sum(0, 1));
    let minus = Op::Rz(1, Expr::Minus(1));
    let last = Op::Rz(0, Expr::Const(28));
    let mixed = [Op::H(1), sum, Op::Cx(0, 1), minus, FLIP, Op::H(0), last];
    assert_prints(rt, 2, &mixed, [4396160642803763154, 7086080450482914633]);
}

// By the numbers of a circuit on three qubits, and by those of whole circuits with a gate of each kind.
#[test]
fn one_gate_more(rt: HostRuntime) {
    let plus = Op::Rz(0, Expr::Plus(0));
    let eighth = Op::Rz(2, Expr::Const(4));
    let front = [
        Op::H(2),
        Op::Cx(2, 0),
        plus,
        Op::Cx(1, 2),
        eighth,
        Op::X(1),
        Op::H(1),
    ];
    let last = Op::Rz(1, Expr::Minus(0));
    let first = print_with(0, 3, &front, last);
    assert!(rt; first == 12591762476821673655, "seed 0");
    let second = print_with(42, 3, &front, last);
    assert!(rt; second == 9280579882001791013, "seed 42");
    let quarter = Op::Rz(0, Expr::Const(8));
    let front = [Op::H(1), quarter, Op::Cx(1, 0)];
    let both = Op::Rz(1, Expr::Sum(0, 2));
    for op in [Op::H(0), Op::X(1), Op::Cx(0, 1), both] {
        let whole = print_of(7, 2, &[front[0], front[1], front[2], op]);
        assert!(rt;
            print_with(7, 2, &front, op) == whole,
            "the same as of the whole circuit"
        );
    }
}

// Two equivalent pairs for each of some seeds, of which the first has a phase with a parameter; and circuits that differ.
#[test]
fn equivalent_circuits_share_one(rt: HostRuntime) {
    let plus = Op::Rz(0, Expr::Plus(0));
    let minus = Op::Rz(0, Expr::Minus(0));
    for seed in [0, 1, 12345678901234567890, u64::MAX] {
        let first = print_of(seed, 1, &[FLIP, plus]);
        let second = print_of(seed, 1, &[minus, FLIP]);
        assert!(rt; first == second, "a rotation passes X");
        let none = print_of(seed, 1, &[]);
        let twice = print_of(seed, 1, &[Op::H(0), Op::H(0)]);
        assert!(rt; none == twice, "two H are none");
    }
    let none = print_of(0, 1, &[]);
    let eighth = print_of(0, 1, &[Op::Rz(0, Expr::Const(4))]);
    let quarter = print_of(0, 1, &[Op::Rz(0, Expr::Const(8))]);
    assert!(rt; none != eighth, "one eighth is no whole circle");
    let sixteenth = Op::Rz(0, Expr::Const(1));
    let finer = print_of(0, 1, &[sixteenth, Op::Rz(0, Expr::Const(3))]);
    assert!(rt; finer == eighth, "π/16 and 3·π/16 are π/4");
    let one = print_of(0, 1, &[sixteenth]);
    assert!(rt; one != none && one != eighth, "π/16 is neither");
    assert!(rt; eighth != quarter, "one eighth is not two");
    let first = print_of(0, 1, &[plus]);
    let second = print_of(0, 1, &[Op::Rz(0, Expr::Plus(1))]);
    assert!(rt; first != second, "two parameters");
}
